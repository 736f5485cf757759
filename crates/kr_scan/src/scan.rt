// The survey of a prepared problem.
ghost use Rattle.std.specs.Prelude.{◌≡◌, ◌<◌, ◌≤◌, ◌+◌, ◌↔◌, IfOk, IfSome, IsTrue, length};
ghost use Rattle.kr_mean.specs.Entries.{all_entries};
ghost use Rattle.kr_step.specs.Scans.{RunsOn};
ghost use Rattle.kr_space_problem.specs.Posed.{posed};
ghost use Rattle.kr_survey.specs.Scans.{IsScan};

use crate::batch::collect;
use crate::maker::RowMaker;
use kr_base::{Bound, Cut, NoMemory, Steps};
use kr_iso::Slots;
use kr_judge_prepared::Prepared;
use kr_judge_replay::Runner;
use kr_laws_pruning::plain_law;
use kr_mean::Row;
use kr_space_problem::Problem;
use kr_step::{Candidate, Search, SpanSearch};
use kr_survey::{Part, Survey};
use std::alloc::Global;
use std::marker::Model;
use std::mem;
use std::sync::ledger::Ledger;

/// A prepared problem as a survey of its entries, with verdicts where a method is tested. Contracts see the problem.
#[derive(Drop)]
pub struct Scan<'p> {
    pub(crate) alloc: Global,
    pub(crate) prepared: &'p Prepared,
}

impl<'p> Model for Scan<'p> {
    ghost use Rattle.kr_space_problem.specs.declared.problem.Problem.{Problem as ProblemOf};

    ghost Value = { ProblemOf };

    ghost view = { λ s. s.prepared.now.problem };
}

/// Where a scan stopped: the search, its candidate and all that is kept of its runs; or nothing yet. And what makes rows.
/// It borrows the prepared problem, and nothing of its survey.
pub struct Stopped<'p> {
    pub(crate) search: Option<Search<Runner<'p>>>,
    pub(crate) maker: RowMaker<'p>,
}

// Written out, and not derived, so that crates above don't check again how all that it holds is dropped.
impl<'p> Drop for Stopped<'p> {
    fn drop(self) {
        let Stopped {
            search: _,
            maker: _,
        } = self;
    }
}

/// Whether a search looks above a cut.
fn looks_above(cut: &[u32], after: &Cut) -> bool
    ensures { IsTrue result ↔ (cut.now ≡ after.now) }
{
    cut == after.numbers()
}

impl<'p> Scan<'p> {
    /// The survey of a problem's entries. It takes no memory before it is scanned.
    pub fn new(alloc: Global, prepared: &'p Prepared) -> Scan<'p>
        ensures { result ≡ prepared.now.problem }
    {
        Scan { alloc, prepared }
    }

    /// The problem whose entries are scanned.
    pub fn problem(&self) -> &'p Problem
        ensures { result.now ≡ self.now }
    {
        self.prepared.problem()
    }

    /// A search above a cut, from its beginning.
    pub(crate) fn seek<L: Ledger>(
        &self,
        after: &Cut,
        runs: &mut Steps<L>,
    ) -> Result<Search<Runner<'p>>, NoMemory>
        ensures cut { IfOk result (λ search. search.cut ≡ after.now) }
        ensures runs_on { IfOk result (λ search. RunsOn (posed self.now) (⟦<Runner<'p> as Slots>⟧.space search.candidates) (⟦<Runner<'p> as Candidate>⟧.order search.candidates) (⟦<Runner<'p> as Candidate>⟧.ending search.candidates)) }
        ensures runs { runs.new ≤ runs.old + length after.now + 1 }
    {
        match Runner::new(self.alloc, self.prepared) {
            Ok(runner) => Search::seek(self.alloc, runner, after.numbers(), runs),
            Err(why) => Err(why),
        }
    }

    /// A search above a cut: the one that is kept, if it stopped there.
    fn search_above<L: Ledger>(
        &self,
        kept: Option<Search<Runner<'p>>>,
        after: &Cut,
        runs: &mut Steps<L>,
    ) -> Result<Search<Runner<'p>>, NoMemory>
        requires { IfSome kept (λ search. RunsOn (posed self.now) (⟦<Runner<'p> as Slots>⟧.space search.candidates) (⟦<Runner<'p> as Candidate>⟧.order search.candidates) (⟦<Runner<'p> as Candidate>⟧.ending search.candidates)) }
        ensures cut { IfOk result (λ search. search.cut ≡ after.now) }
        ensures runs_on { IfOk result (λ search. RunsOn (posed self.now) (⟦<Runner<'p> as Slots>⟧.space search.candidates) (⟦<Runner<'p> as Candidate>⟧.order search.candidates) (⟦<Runner<'p> as Candidate>⟧.ending search.candidates)) }
        ensures runs { runs.new ≤ runs.old + length after.now + 1 }
    {
        match kept {
            Some(search) => {
                if looks_above(search.cut(), after) {
                    return Ok(search);
                }
                self.seek(after, runs)
            }
            None => self.seek(after, runs),
        }
    }
}

impl<'p> Survey for Scan<'p> {
    ghost use Rattle.std.specs.Prelude.{◌≡◌, IfSome};
    ghost use Rattle.kr_mean.specs.Entries.{all_entries};
    ghost use Rattle.kr_step.specs.Scans.{RunsOn};
    ghost use Rattle.kr_space_problem.specs.Posed.{posed};

    type Row = Row;

    type Scratch = Stopped<'p>;

    ghost all = { λ s. all_entries (posed s) };

    ghost made = { λ s stopped. (stopped.maker.problem ≡ s) × IfSome stopped.search (λ search. RunsOn (posed s) (⟦<Runner<'p> as Slots>⟧.space search.candidates) (⟦<Runner<'p> as Candidate>⟧.order search.candidates) (⟦<Runner<'p> as Candidate>⟧.ending search.candidates)) };

    fn scratch(&self) -> Result<Stopped<'p>, NoMemory> {
        Ok(Stopped {
            search: None,
            maker: RowMaker::new(self.alloc, self.prepared)?,
        })
    }

    fn scan_with<L: Ledger>(
        &self,
        scratch: &mut Stopped<'p>,
        after: &Cut,
        upto: &Bound,
        most: u32,
        runs: &mut Steps<L>,
    ) -> Result<Part<Row>, NoMemory>
        requires some { 0 < most }
        requires made { (scratch.old.maker.problem ≡ self.now) × IfSome scratch.old.search (λ search. RunsOn (posed self.now) (⟦<Runner<'p> as Slots>⟧.space search.candidates) (⟦<Runner<'p> as Candidate>⟧.order search.candidates) (⟦<Runner<'p> as Candidate>⟧.ending search.candidates)) }
        ensures part { IfOk result (IsScan (all_entries (posed self.now)) after.now upto.now most) }
        ensures made { (scratch.new.maker.problem ≡ self.now) × IfSome scratch.new.search (λ search. RunsOn (posed self.now) (⟦<Runner<'p> as Slots>⟧.space search.candidates) (⟦<Runner<'p> as Candidate>⟧.order search.candidates) (⟦<Runner<'p> as Candidate>⟧.ending search.candidates)) }
        ensures runs { IfOk result (λ part. runs.new ≤ runs.old + part.tried + length after.now + 3) }
    {
        let end = match upto.try_clone() {
            Ok(end) => end,
            Err(why) => return Err(why),
        };
        let kept = mem::replace(&mut scratch.search, None);
        let search = match self.search_above(kept, after, runs) {
            Ok(search) => search,
            Err(why) => return Err(why),
        };
        let mut span = SpanSearch::of(search, end);
        match collect(self.alloc, &mut span, &mut scratch.maker, upto, most, runs) {
            Ok(part) => {
                scratch.search = Some(span.into_search());
                Ok(part)
            }
            Err(why) => Err(why),
        }
    }

    fn scan<L: Ledger>(
        &self,
        after: &Cut,
        upto: &Bound,
        most: u32,
        runs: &mut Steps<L>,
    ) -> Result<Part<Row>, NoMemory>
        requires { 0 < most }
        ensures part { IfOk result (IsScan (all_entries (posed self.now)) after.now upto.now most) }
        ensures runs { IfOk result (λ part. runs.new ≤ runs.old + part.tried + length after.now + 3) }
    {
        let mut scratch = self.scratch()?;
        self.scan_with(&mut scratch, after, upto, most, runs)
    }

    fn ascends(&self) {
        self.prepared.laws();
        plain_law();
    }
}
