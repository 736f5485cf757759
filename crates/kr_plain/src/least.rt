// Whether a candidate is the least of its class.
ghost use Rattle.std.specs.Prelude.{◌≡◌, ◌<◌, ◌+◌, ◌↔◌, [], IfOk, IsTrue};
ghost use Rattle.kr_iso.specs.Choices.{AllowedPath, PathIn};
ghost use Rattle.kr_mean.specs.Choices.{AllowedAlong, IsAllowed};
ghost use Rattle.kr_mean.specs.Isomorphism.{IsLeast};
ghost use Rattle.kr_mean.specs.Readings.{AllBelow};
ghost use Rattle.kr_mean.specs.Space.{IsVector};

use kr_base::{NoMemory, Steps};
use kr_iso::{Slots, choice_law, next_choice};
use kr_step::{Candidate, Ending};
use std::alloc::Global;
use std::sync::ledger::Ledger;

/// Whether an index is allowed after a path.
fn is_allowed<S: Slots>(slots: &S, path: &[(u32, u32)], slot: u32, index: u32) -> bool
    requires path { PathIn (S.space slots.now) path.now }
    requires allowed { AllowedPath (S.space slots.now) [] path.now }
    requires slot { slot < (S.space slots.now).slots }
    requires index { index < (S.space slots.now).size slot }
    ensures { IsTrue result ↔ IsAllowed (S.space slots.now) path.now slot index }
{
    match next_choice(slots, path, slot, index) {
        None => false,
        Some(least) => least == index,
    }
}

/// Whether each choice along the order of the last run is allowed after those before it.
pub(crate) fn is_allowed_along<C: Candidate>(
    alloc: Global,
    candidates: &C,
) -> Result<bool, NoMemory>
    requires vector { IsVector (C.space candidates.now) (C.vector candidates.now) }
    requires below { AllBelow (C.space candidates.now).slots (C.last candidates.now) }
    ensures { IfOk result (λ allowed. IsTrue allowed ↔ AllowedAlong (C.space candidates.now) (C.vector candidates.now) [] (C.last candidates.now)) }
{
    let order = candidates.last_order();
    let mut path = Vec::new(alloc);
    for slot in order {
        let index = candidates.index(*slot);
        if !is_allowed(candidates, path.as_slice(), *slot, index) {
            return Ok(false);
        }
        path.push((*slot, index))?;
    }
    Ok(true)
}

/// Whether the current candidate is least: no other names for its objects give a smaller key. It takes one run, and then a look
/// at each choice along the order, and no renaming.
pub fn is_least<C: Candidate, L: Ledger>(
    alloc: Global,
    candidates: &mut C,
    runs: &mut Steps<L>,
) -> Result<bool, NoMemory>
    requires { IsVector (C.space candidates.old) (C.vector candidates.old) }
    ensures space { C.space candidates.new ≡ C.space candidates.old }
    ensures order { C.order candidates.new ≡ C.order candidates.old }
    ensures ending { C.ending candidates.new ≡ C.ending candidates.old }
    ensures vector { C.vector candidates.new ≡ C.vector candidates.old }
    ensures least { IfOk result (λ least. IsTrue least ↔ IsLeast (C.space candidates.old) (C.order candidates.old) (C.vector candidates.old)) }
    ensures runs { runs.new ≡ runs.old + 1 }
{
    candidates.laws();
    choice_law::<Ending>();
    candidates.run(runs)?;
    let allowed = is_allowed_along(alloc, &*candidates)?;
    Ok(allowed)
}
