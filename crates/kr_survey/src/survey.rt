// What is scanned.
ghost use Rattle.std.specs.Prelude.{◌<◌, ◌≤◌, ◌+◌, IfOk, List, length};
ghost use Rattle.kr_base.specs.declared.entry.Entry.{Entry};
ghost use Rattle.kr_base.specs.Entries.{Ascends};
ghost use Rattle.kr_survey.specs.Scans.{IsScan};

use crate::Part;
use kr_base::{Bound, Cut, NoMemory, Steps};
use std::sync::ledger::Ledger;

/// Entries in order. A survey never changes, so that workers may share it.
pub trait Survey {
    /// What is listed of a valid entry.
    type Row;

    /// What one scan leaves for the next, which needn't begin anew then. It borrows nothing of the survey.
    type Scratch: Drop + Send;

    /// All entries.
    ghost all: { Self → List (Entry Self.Row) };

    /// That a scratch is one of this survey's.
    ghost made: { Self → Self.Scratch → Type 0 };

    /// A scratch, as no scan has left it yet.
    fn scratch(&self) -> Result<Self::Scratch, NoMemory>
        ensures { IfOk result (λ scratch. made self.now scratch) };

    /// What `scan` gives, whatever was scanned with the scratch before, and also where that was refused memory. A scan that
    /// begins where the last one stopped goes on from there.
    fn scan_with<L: Ledger>(
        &self,
        scratch: &mut Self::Scratch,
        after: &Cut,
        upto: &Bound,
        most: u32,
        runs: &mut Steps<L>,
    ) -> Result<Part<Self::Row>, NoMemory>
        requires some { 0 < most }
        requires made { made self.now scratch.old }
        ensures part { IfOk result (IsScan (all self.now) after.now upto.now most) }
        ensures made { made self.now scratch.new }
        ensures runs { IfOk result (λ part. runs.new ≤ runs.old + part.tried + length after.now + 3) };

    /// Walks the entries above `after` and not above `upto`, and stops after a spent one or after `most` entries. Each run
    /// of a predicate ticks once: there is one for each entry, one for each number of `after`, and at most three more.
    fn scan<L: Ledger>(
        &self,
        after: &Cut,
        upto: &Bound,
        most: u32,
        runs: &mut Steps<L>,
    ) -> Result<Part<Self::Row>, NoMemory>
        requires { 0 < most }
        ensures part { IfOk result (IsScan (all self.now) after.now upto.now most) }
        ensures runs { IfOk result (λ part. runs.new ≤ runs.old + part.tried + length after.now + 3) };

    /// The entries ascend. It does nothing.
    fn ascends(&self)
        ensures { Ascends (all self.now) };
}
