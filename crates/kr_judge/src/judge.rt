// Judging a candidate: how its run ends, and the slots that decide it.
ghost use Rattle.std.specs.Prelude.{◌≡◌, ◌<◌, ◌+◌, ◌^◌, [], IfOk, OnOk, flat_map, if◌then◌else◌, length};
ghost use Rattle.kr_judge.specs.Vocabulary.{bare, end_on, is_accepted, IsVector, IsWellFormed, Numbering, order_of, problem_with, Program, slots, slots_for, space_of, walk};
ghost use Rattle.kr_judge.specs.Orders.{with_slots};
ghost use Rattle.kr_judge.specs.Predicates.{IsPredicateOf};
ghost use Rattle.kr_judge.specs.Runs.{end_said};

use crate::accesses::Accesses;
use crate::predicate::Predicate;
use crate::run::run_predicate;
use kr_base::{NoMemory, Steps};
use kr_mean::Stop;
use kr_run_state::Reads;
use kr_space_layout::Layout;
use kr_vector::Vector;
use std::alloc::Global;
use std::marker::Model;
use std::sync::ledger::Ledger;

/// The order of slots of the candidate that was judged last, and room for the next one. Contracts see the order.
#[derive(Drop)]
pub struct Judge {
    alloc: Global,
    accesses: Accesses,
}

impl Model for Judge {
    ghost use Rattle.std.specs.Prelude.{List, ℕ};

    ghost Value = { List ℕ };

    ghost view = { λ j. j.accesses.order };
}

impl Judge {
    /// Nothing is judged yet. It takes no memory.
    pub fn new(alloc: Global) -> Judge
        ensures { result ≡ [] }
    {
        Judge {
            alloc,
            accesses: Accesses::new(alloc),
        }
    }

    /// The order of a candidate whose run has ended so and has read these places.
    pub(crate) fn take_order(
        &mut self,
        layout: &Layout,
        vector: &Vector,
        end: Result<bool, Stop>,
        reads: &Reads,
    ) -> Result<(), NoMemory>
        requires well { IsWellFormed (bare layout.now) }
        requires vector { IsVector (space_of (bare layout.now)) vector.now }
        requires small { length (slots (bare layout.now)) < 2 ^ 31 }
        ensures { OnOk result (self.new ≡ with_slots (with_slots [] (flat_map (slots_for (bare layout.now)) reads.now)) (if is_accepted (end_said end) then walk (bare layout.now) vector.now else [])) }
    {
        self.accesses.forget();
        self.accesses.take(layout, vector, end, reads, 0)
    }

    /// Runs the predicate on a candidate: how the run ends, and the order of the slots that decide it, those that it has read
    /// and, where it accepts, the reachable ones after them (Korat's order of first accesses). The run is counted.
    pub fn judge<L: Ledger>(
        &mut self,
        layout: &Layout,
        predicate: &Predicate,
        vector: &Vector,
        runs: &mut Steps<L>,
    ) -> Result<Result<bool, Stop>, NoMemory>
        requires well { IsWellFormed (bare layout.now) }
        requires vector { IsVector (space_of (bare layout.now)) vector.now }
        requires small { length (slots (bare layout.now)) < 2 ^ 31 }
        ensures ends { IfOk result (λ end. (program : Program) (n : Numbering) → IsPredicateOf (problem_with program layout.now) predicate.now n → end_said end ≡ end_on (problem_with program layout.now) vector.now) }
        ensures order { OnOk result ((program : Program) (n : Numbering) → IsPredicateOf (problem_with program layout.now) predicate.now n → self.new ≡ order_of (problem_with program layout.now) vector.now) }
        ensures runs { runs.new ≡ runs.old + 1 }
    {
        let ran = run_predicate(self.alloc, layout, predicate, vector, runs)?;
        self.take_order(layout, vector, ran.end, &ran.reads)?;
        Ok(ran.end)
    }

    /// The order of the last candidate.
    pub fn order(&self) -> &[u32]
        ensures { result.now ≡ self.now }
    {
        self.accesses.order.as_slice()
    }
}
