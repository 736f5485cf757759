// A span of entries, walked by the search.
ghost use Rattle.std.specs.Prelude.{◌≡◌, ◌≤◌, ◌+◌, length, replicate, IfOk, OnErr};
ghost use Rattle.kr_mean.specs.Problem.{Problem};
ghost use Rattle.kr_step.specs.Scans.{RunsOn, Scans};

use crate::stage::Upto;
use crate::{Candidate, Next, Search, first_law};
use kr_base::{Bound, NoMemory, Steps};
use kr_laws_pruning::plain_law;
use kr_mean::Row;
use std::alloc::Global;
use std::marker::Model;
use std::sync::ledger::Ledger;

/// The entries of candidates that a span still has: those above the cut of the search, up to its end. It keeps whether the cut
/// is before the end, so that a key is compared with the end once.
#[derive(Drop)]
pub struct SpanSearch<C: Candidate> {
    search: Search<C>,
    upto: Bound,
    is_within: bool,
}

impl<C: Candidate> Model for SpanSearch<C> {
    ghost use Rattle.std.specs.Prelude.{◌≡◌};
    ghost use Rattle.kr_base.specs.Bounds.{less};
    ghost use Rattle.kr_base.specs.declared.span.Bound.TheVariants.{At};
    ghost use Rattle.kr_step.specs.Scans.{Shown};

    ghost Value = { Shown C };

    ghost view = { λ s. record { candidates = s.search.candidates; cut = s.search.cut; upto = s.upto } };

    ghost invariant = { λ s. s.is_within ≡ less (At s.search.cut) s.upto };
}

impl<C: Candidate + Drop> SpanSearch<C> {
    /// A search of the keys above `after` and not above `upto`. The candidate has index 0 in every slot.
    pub fn new<L: Ledger>(
        alloc: Global,
        candidates: C,
        after: &[u32],
        upto: Bound,
        runs: &mut Steps<L>,
    ) -> Result<SpanSearch<C>, NoMemory>
        requires { C.vector candidates ≡ replicate (C.space candidates).slots 0 }
        ensures space { IfOk result (λ scan. C.space scan.candidates ≡ C.space candidates) }
        ensures order { IfOk result (λ scan. C.order scan.candidates ≡ C.order candidates) }
        ensures ending { IfOk result (λ scan. C.ending scan.candidates ≡ C.ending candidates) }
        ensures cut { IfOk result (λ scan. scan.cut ≡ after.now) }
        ensures upto { IfOk result (λ scan. scan.upto ≡ upto) }
        ensures runs { runs.new ≤ runs.old + length after.now + 1 }
    {
        let search = Search::seek(alloc, candidates, after, runs)?;
        Ok(SpanSearch::of(search, upto))
    }

    /// The result of a search, up to the end.
    pub fn of(search: Search<C>, upto: Bound) -> SpanSearch<C>
        ensures candidates { result.candidates ≡ search.candidates }
        ensures cut { result.cut ≡ search.cut }
        ensures upto { result.upto ≡ upto }
    {
        let is_within = upto.is_above_key(search.cut());
        SpanSearch {
            search,
            upto,
            is_within,
        }
    }

    /// The search.
    pub fn into_search(self) -> Search<C>
        ensures candidates { result.candidates ≡ self.candidates }
        ensures cut { result.cut ≡ self.cut }
    {
        self.search
    }

    /// The next entry of the span: it is the candidate then, and its key is the cut. A call makes at most one run.
    pub fn next<L: Ledger>(&mut self, runs: &mut Steps<L>) -> Result<Next, NoMemory>
        ensures space { C.space self.new.candidates ≡ C.space self.old.candidates }
        ensures order { C.order self.new.candidates ≡ C.order self.old.candidates }
        ensures ending { C.ending self.new.candidates ≡ C.ending self.old.candidates }
        ensures upto { self.new.upto ≡ self.old.upto }
        ensures found { IfOk result (λ next. (problem : Problem) → RunsOn problem (C.space self.old.candidates) (C.order self.old.candidates) (C.ending self.old.candidates) →
            Scans problem self.old.upto self.old.cut (C.vector self.new.candidates) self.new.cut next) }
        ensures runs { IfOk result (λ next. runs.new ≤ runs.old + 1) }
        ensures err { OnErr result (self.new.cut ≡ self.old.cut) }
    {
        plain_law();
        first_law::<Row>();
        if !self.is_within {
            return Ok(Next::End);
        }
        match self.search.next_upto(&self.upto, runs)? {
            Upto::Inside(ending) => Ok(Next::Found(ending)),
            Upto::Last(ending) => {
                self.is_within = false;
                Ok(Next::Found(ending))
            }
            Upto::Past => {
                self.is_within = self.upto.is_above_key(self.search.cut());
                Ok(Next::End)
            }
        }
    }

    /// The key of the last entry found, once there is one.
    pub fn cut(&self) -> &[u32]
        ensures { result.now ≡ self.now.cut }
    {
        self.search.cut()
    }

    /// The candidates.
    pub fn candidates(&self) -> &C
        ensures { result.now ≡ self.now.candidates }
    {
        self.search.candidates()
    }
}
