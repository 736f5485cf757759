// Whether the candidate that was run is the one listed of its class, and its key.
ghost use Rattle.std.specs.Prelude.{◌≡◌, ◌<◌, ◌↔◌, IfOk, IsTrue, false, length};
ghost use Rattle.kr_mean.specs.Entries.{IsListed};
ghost use Rattle.kr_mean.specs.Readings.{AllBelow};
ghost use Rattle.kr_mean.specs.Runs.{contains_number, key_along};
ghost use Rattle.kr_mean.specs.Space.{IsVector};
ghost use Rattle.kr_plain.specs.Plain.{IsSettledUpto};

use crate::least::is_allowed_along;
use kr_base::{Cut, NoMemory};
use kr_iso::choice_law;
use kr_step::{Candidate, Ending};
use std::alloc::Global;

/// Whether a slot is among these.
fn has_slot(slots: &[u32], slot: u32) -> bool
    ensures { result ≡ contains_number slots.now slot }
{
    for other in slots {
        if *other == slot {
            return true;
        }
    }
    false
}

/// Whether every slot that the last order doesn't have is at 0.
fn is_settled<C: Candidate>(candidates: &C) -> bool
    requires { length (C.vector candidates.now) ≡ (C.space candidates.now).slots }
    ensures { IsTrue result ↔ IsSettledUpto (C.space candidates.now).slots (C.last candidates.now) (C.vector candidates.now) }
{
    let order = candidates.last_order();
    for slot in 0..candidates.slots() {
        if candidates.index(slot) != 0 && !has_slot(order, slot) {
            return false;
        }
    }
    true
}

/// Whether the candidate that was run last is listed: the least of its class, and 0 wherever its order doesn't lead.
pub(crate) fn is_listed<C: Candidate>(alloc: Global, candidates: &C) -> Result<bool, NoMemory>
    requires vector { IsVector (C.space candidates.now) (C.vector candidates.now) }
    requires last { C.last candidates.now ≡ C.order candidates.now (C.vector candidates.now) }
    ensures { IfOk result (λ listed. IsTrue listed ↔ IsListed (C.space candidates.now) (C.order candidates.now) (C.vector candidates.now)) }
{
    candidates.laws();
    choice_law::<Ending>();
    if !is_allowed_along(alloc, candidates)? {
        return Ok(false);
    }
    Ok(is_settled(candidates))
}

/// The key of the candidate that was run last.
pub(crate) fn last_key<C: Candidate>(alloc: Global, candidates: &C) -> Result<Cut, NoMemory>
    requires { AllBelow (length (C.vector candidates.now)) (C.last candidates.now) }
    ensures { IfOk result (λ key. key ≡ key_along (C.vector candidates.now) (C.last candidates.now)) }
{
    let order = candidates.last_order();
    let mut numbers = Vec::new(alloc);
    for slot in order {
        numbers.push(candidates.index(*slot))?;
    }
    Ok(Cut::new(numbers))
}
