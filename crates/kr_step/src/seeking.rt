// How a search reaches a cut.
ghost use Rattle.std.specs.Prelude.{◌≡◌, ◌<◌, ◌≤◌, ◌+◌, List, ℕ, [], ◌∷◌, ◌++◌, length, replicate, IfOk};
ghost use Rattle.kr_step.specs.Steps.{IsFront, indices_of};
ghost use Rattle.kr_step.specs.Turns.{Leads};
ghost use Rattle.kr_step.specs.Stages.{StandsAt, ahead_of};

use crate::path::extend;
use crate::stage::Stage;
use crate::{Candidate, Ending};
use kr_base::{NoMemory, Steps};
use kr_iso::next_choice;
use std::sync::ledger::Ledger;

/// The result of following one number of a cut: the path goes on; a candidate past the cut; or nothing.
#[derive(Clone, Copy, PartialEq, Eq)]
pub(crate) enum Lead {
    On,
    Past,
    Stuck,
}

/// Follows one number of a cut, where the vector was run last.
fn follow<C: Candidate>(
    candidates: &mut C,
    path: &mut Vec<(u32, u32)>,
    number: u32,
) -> Result<Lead, NoMemory>
    requires front { IsFront (C.space candidates.old) (C.order candidates.old) (C.vector candidates.old) path.old.items }
    requires last { C.last candidates.old ≡ C.order candidates.old (C.vector candidates.old) }
    ensures space { C.space candidates.new ≡ C.space candidates.old }
    ensures order { C.order candidates.new ≡ C.order candidates.old }
    ensures ending { C.ending candidates.new ≡ C.ending candidates.old }
    ensures leads { IfOk result (λ lead. (c tail : List ℕ) → c ≡ indices_of path.old.items ++ number ∷ tail →
        Leads (C.space candidates.old) (C.order candidates.old) c number lead (C.vector candidates.new) path.old.items path.new.items) }
{
    candidates.laws();
    let depth = path.as_slice().len();
    let order = candidates.last_order();
    if depth >= order.len() {
        return Ok(Lead::Stuck);
    }
    let slot = order[depth];
    match next_choice(&*candidates, path.as_slice(), slot, number) {
        None => Ok(Lead::Stuck),
        Some(choice) => {
            path.push((slot, choice))?;
            candidates.set(slot, choice);
            if choice == number {
                return Ok(Lead::On);
            }
            Ok(Lead::Past)
        }
    }
}

/// Runs the vector at which a cut's numbers ended, and moves to its candidate, or past the cut.
fn settle<C: Candidate, L: Ledger>(
    candidates: &mut C,
    path: &mut Vec<(u32, u32)>,
    runs: &mut Steps<L>,
) -> Result<Stage, NoMemory>
    requires { IsFront (C.space candidates.old) (C.order candidates.old) (C.vector candidates.old) path.old.items }
    ensures space { C.space candidates.new ≡ C.space candidates.old }
    ensures order { C.order candidates.new ≡ C.order candidates.old }
    ensures ending { C.ending candidates.new ≡ C.ending candidates.old }
    ensures stands { IfOk result (λ stage. StandsAt (C.space candidates.old) (C.order candidates.old) (C.ending candidates.old) stage (indices_of path.old.items) (C.vector candidates.new) path.new.items) }
    ensures ahead { IfOk result (λ stage. path.old.items ≡ [] → ahead_of stage ≡ 1) }
    ensures runs { runs.new ≡ runs.old + 1 }
{
    candidates.laws();
    let ending = candidates.run(runs)?;
    let depth = path.as_slice().len();
    let order = candidates.last_order();
    if depth >= order.len() {
        return Ok(Stage::Behind);
    }
    extend(&*candidates, path)?;
    Ok(Stage::Ahead(ending))
}

/// Leads a path along the numbers of a cut.
pub(crate) fn come_to<C: Candidate, L: Ledger>(
    candidates: &mut C,
    path: &mut Vec<(u32, u32)>,
    after: &[u32],
    runs: &mut Steps<L>,
) -> Result<Stage, NoMemory>
    requires zero { C.vector candidates.old ≡ replicate (C.space candidates.old).slots 0 }
    requires empty { path.old.items ≡ [] }
    ensures space { C.space candidates.new ≡ C.space candidates.old }
    ensures order { C.order candidates.new ≡ C.order candidates.old }
    ensures ending { C.ending candidates.new ≡ C.ending candidates.old }
    ensures stands { IfOk result (λ stage. StandsAt (C.space candidates.old) (C.order candidates.old) (C.ending candidates.old) stage after.now (C.vector candidates.new) path.new.items) }
    ensures first { IfOk result (λ stage. after.now ≡ [] → runs.new ≡ runs.old + ahead_of stage) }
    ensures runs { runs.new ≤ runs.old + length after.now + 1 }
{
    candidates.laws();
    for number in after {
        let _ = candidates.run(runs)?;
        match follow(candidates, path, *number)? {
            Lead::On => {}
            Lead::Past => return Ok(Stage::Moved),
            Lead::Stuck => return Ok(Stage::Behind),
        }
    }
    settle(candidates, path, runs)
}
