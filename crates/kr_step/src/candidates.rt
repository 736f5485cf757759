// Candidates that can be run, one after another.
ghost use Rattle.std.specs.Prelude.{◌≡◌, ◌<◌, ◌+◌, List, ℕ, length, slice_index, slice_set, IfOk, OnOk};
ghost use Rattle.kr_mean.specs.Space.{IsVector};
ghost use Rattle.kr_mean.specs.Blocks.{IsSpace};
ghost use Rattle.kr_mean.specs.Readings.{IsReading};

use kr_base::{NoMemory, Steps};
use kr_iso::Slots;
use kr_vector::Vector;
use std::sync::ledger::Ledger;

/// How the predicate's run ends: it holds; it is false or traps; or it needs more than the fuel.
#[derive(Clone, Copy, PartialEq, Eq)]
pub enum Ending {
    Valid,
    Invalid,
    Spent,
}

/// One candidate of a problem, whose slots can be set and on which the predicate is run. The next run goes on from what wasn't
/// set since.
pub trait Candidate: Slots {
    ghost use Rattle.kr_step.specs.declared.candidates.Ending.{Ending};

    /// The order of a vector's slots: those that its run reads, and where it accepts those that it left unread.
    ghost order: { Self → List ℕ → List ℕ };

    /// How the run on a vector ends.
    ghost ending: { Self → List ℕ → Ending };

    /// The current vector.
    ghost vector: { Self → List ℕ };

    /// The order of the vector that was run last.
    ghost last: { Self → List ℕ };

    /// Gives a slot of the vector another index.
    fn set(&mut self, slot: u32, index: u32)
        requires slot { slot < (Self.space self.old).slots }
        requires index { index < (Self.space self.old).size slot }
        requires long { length (vector self.old) ≡ (Self.space self.old).slots }
        ensures space { Self.space self.new ≡ Self.space self.old }
        ensures order { order self.new ≡ order self.old }
        ensures ending { ending self.new ≡ ending self.old }
        ensures vector { vector self.new ≡ slice_set (vector self.old) slot index };

    /// Runs the predicate on the vector, once, and counts that run, also on out-of-memory.
    fn run<L: Ledger>(&mut self, runs: &mut Steps<L>) -> Result<Ending, NoMemory>
        requires { IsVector (Self.space self.old) (vector self.old) }
        ensures space { Self.space self.new ≡ Self.space self.old }
        ensures order { order self.new ≡ order self.old }
        ensures ending { ending self.new ≡ ending self.old }
        ensures vector { vector self.new ≡ vector self.old }
        ensures ends { IfOk result (λ end. end ≡ ending self.old (vector self.old)) }
        ensures last { OnOk result (last self.new ≡ order self.old (vector self.old)) }
        ensures runs { runs.new ≡ runs.old + 1 };

    /// The slots in the order of the last run.
    fn last_order(&self) -> &[u32]
        ensures { result.now ≡ last self.now };

    /// The vector.
    fn current(&self) -> &Vector
        ensures { result.now ≡ vector self.now };

    /// The index of a slot.
    fn index(&self, slot: u32) -> u32
        requires { slot < length (vector self.now) }
        ensures { result ≡ slice_index (vector self.now) slot };

    /// Laws of every problem: slots and domains go by whole class domains, orders fork, are never empty, and renamed vectors
    /// are read alike.
    fn laws(&self)
        ensures space { IsSpace (Self.space self.now) }
        ensures reading { IsReading (Self.space self.now) (order self.now) (ending self.now) }
        ensures some { (v : List ℕ) → IsVector (Self.space self.now) v → 0 < length (order self.now v) };
}
