// The run of the predicate on a candidate.
ghost use Rattle.std.specs.Prelude.{◌≡◌, ◌<◌, ◌+◌, ◌^◌, IfOk, length};
ghost use Rattle.kr_judge.specs.Vocabulary.{bare, IsVector, IsWellFormed, Numbering, problem_with, Program, slots, space_of};
ghost use Rattle.kr_judge.specs.Predicates.{IsPredicateOf};
ghost use Rattle.kr_judge.specs.Runs.{IsRunOf};

use crate::conditions::hold_all;
use crate::predicate::Predicate;
use crate::start::world_of;
use kr_base::{NoMemory, Steps};
use kr_mean::Stop;
use kr_run_state::{Reads, ended};
use kr_space_layout::Layout;
use kr_vector::Vector;
use std::alloc::Global;
use std::sync::ledger::Ledger;

/// How a run has ended, and the places that it has read: whether all conditions hold, where one that is false is the last
/// that is looked at; or the run has trapped, is spent, or stuck, and is not accepted.
#[derive(Drop)]
pub struct Ran {
    pub end: Result<bool, Stop>,
    pub reads: Reads,
}

/// Runs the predicate on a candidate. The run is counted, also where memory is wanting.
pub fn run_predicate<L: Ledger>(
    alloc: Global,
    layout: &Layout,
    predicate: &Predicate,
    vector: &Vector,
    runs: &mut Steps<L>,
) -> Result<Ran, NoMemory>
    requires well { IsWellFormed (bare layout.now) }
    requires vector { IsVector (space_of (bare layout.now)) vector.now }
    requires small { length (slots (bare layout.now)) < 2 ^ 31 }
    ensures run { IfOk result (λ run. (program : Program) (n : Numbering) → IsPredicateOf (problem_with program layout.now) predicate.now n → IsRunOf (problem_with program layout.now) vector.now run) }
    ensures runs { runs.new ≡ runs.old + 1 }
{
    let permit = runs.tick();
    let mut world = world_of(alloc, layout, vector, false)?;
    let answer = hold_all(
        alloc,
        &predicate.code,
        &mut world,
        predicate.conditions.as_slice(),
        permit,
    );
    let end = ended(answer)?;
    Ok(Ran {
        end,
        reads: world.reads,
    })
}
