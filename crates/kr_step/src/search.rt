// The search, one entry at a time.
ghost use Rattle.std.specs.Prelude.{◌≡◌, ◌<◌, ◌≤◌, ◌+◌, List, ℕ, [], length, replicate, IfOk, OnOk, OnErr, true};
ghost use Rattle.kr_step.specs.Steps.{IsMoved, path_of};
ghost use Rattle.kr_step.specs.Stages.{StandsAt, ahead_of};
ghost use Rattle.kr_step.specs.Found.{Finds, Counts};
ghost use Rattle.kr_step.specs.Keeps.{Keeps};
ghost use Rattle.kr_step.specs.Limits.{Opens};
ghost use Rattle.kr_step.specs.Upto.{ComesUpto, Compares, is_past};
ghost use Rattle.kr_base.specs.Bounds.{less};
ghost use Rattle.kr_base.specs.declared.span.Bound.TheVariants.{At};

use crate::path::{extend, rise, write_key};
use crate::seeking::come_to;
use crate::stage::{Stage, Upto};
use crate::turning::advance;
use crate::{Candidate, Ending, Next};
use kr_base::{Bound, NoMemory, Steps};
use std::alloc::Global;
use std::marker::Model;
use std::sync::ledger::Ledger;

/// A search: the candidate, the cut above which it looks, the path to its position, and up to which index the last slot of the
/// path is known to be allowed to go.
#[derive(Drop)]
pub struct Search<C: Candidate> {
    candidates: C,
    after: Vec<u32>,
    path: Vec<(u32, u32)>,
    limit: u32,
    stage: Stage,
}

impl<C: Candidate> Model for Search<C> {
    ghost use Rattle.kr_step.specs.Limits.{Opens};
    ghost use Rattle.kr_step.specs.Stages.{Seen, StandsAt, ahead_of};

    ghost Value = { Seen C };

    ghost view = { λ s. record { candidates = s.candidates; cut = s.after.items; ahead = ahead_of s.stage } };

    ghost invariant = { λ s. StandsAt (C.space s.candidates) (C.order s.candidates) (C.ending s.candidates) s.stage s.after.items (C.vector s.candidates) s.path.items
        × Opens (C.space s.candidates) s.path.items s.limit };
}

/// The limit of the last slot of a path that has this length now, where the limit was that of the path at an earlier length.
#[inline(always)]
fn limit_at(limit: u32, depth: usize, length: usize) -> u32
    ensures same { length ≡ depth → result ≡ limit }
    ensures grown { (length ≡ depth → ⊥) → result ≡ 0 }
{
    if length == depth { limit } else { 0 }
}

/// Runs the candidate at a search's position, and writes its path down in full: nothing is known of the last slot of a longer
/// path.
#[inline(always)]
fn arrive<C: Candidate, L: Ledger>(
    candidates: &mut C,
    path: &mut Vec<(u32, u32)>,
    limit: &mut u32,
    runs: &mut Steps<L>,
) -> Result<Ending, NoMemory>
    requires opens { Opens (C.space candidates.old) path.old.items limit.old }
    requires moved { (c : List ℕ) × IsMoved (C.space candidates.old) (C.order candidates.old) c (C.vector candidates.old) path.old.items }
    ensures space { C.space candidates.new ≡ C.space candidates.old }
    ensures order { C.order candidates.new ≡ C.order candidates.old }
    ensures ending { C.ending candidates.new ≡ C.ending candidates.old }
    ensures vector { C.vector candidates.new ≡ C.vector candidates.old }
    ensures ends { IfOk result (λ end. end ≡ C.ending candidates.old (C.vector candidates.old)) }
    ensures path { OnOk result (path.new.items ≡ path_of (C.vector candidates.old) (C.order candidates.old (C.vector candidates.old))) }
    ensures err { OnErr result (path.new.items ≡ path.old.items) }
    ensures opens { Opens (C.space candidates.old) path.new.items limit.new }
    ensures runs { runs.new ≡ runs.old + 1 }
{
    candidates.laws();
    let depth = path.as_slice().len();
    let ending = candidates.run(runs)?;
    extend(&*candidates, path)?;
    *limit = limit_at(*limit, depth, path.as_slice().len());
    Ok(ending)
}

/// Advances to the next candidate and runs it. On out-of-memory the position is the old one, or the new one not yet run.
/// Returns how many numbers of the cut are still on the path.
fn find<C: Candidate, L: Ledger>(
    candidates: &mut C,
    path: &mut Vec<(u32, u32)>,
    limit: &mut u32,
    stage: &mut Stage,
    kept: &mut usize,
    runs: &mut Steps<L>,
) -> Result<Option<Ending>, NoMemory>
    requires none { kept.old ≡ 0 }
    requires opens { Opens (C.space candidates.old) path.old.items limit.old }
    requires stands { (c : List ℕ) × StandsAt (C.space candidates.old) (C.order candidates.old) (C.ending candidates.old) stage.old c (C.vector candidates.old) path.old.items }
    ensures space { C.space candidates.new ≡ C.space candidates.old }
    ensures order { C.order candidates.new ≡ C.order candidates.old }
    ensures ending { C.ending candidates.new ≡ C.ending candidates.old }
    ensures stands { (c : List ℕ) → StandsAt (C.space candidates.old) (C.order candidates.old) (C.ending candidates.old) stage.old c (C.vector candidates.old) path.old.items →
        StandsAt (C.space candidates.old) (C.order candidates.old) (C.ending candidates.old) stage.new c (C.vector candidates.new) path.new.items }
    ensures opens { Opens (C.space candidates.old) path.new.items limit.new }
    ensures found { IfOk result (λ found. (c : List ℕ) → StandsAt (C.space candidates.old) (C.order candidates.old) (C.ending candidates.old) stage.old c (C.vector candidates.old) path.old.items →
        Finds (C.space candidates.old) (C.order candidates.old) (C.ending candidates.old) c found (C.vector candidates.new) path.new.items) }
    ensures kept { IfOk result (λ found. (c : List ℕ) → StandsAt (C.space candidates.old) (C.order candidates.old) (C.ending candidates.old) stage.old c (C.vector candidates.old) path.old.items →
        Keeps c path.new.items kept.new) }
    ensures runs { IfOk result (λ found. runs.new + ahead_of stage.old ≡ runs.old + ahead_of stage.new) }
    ensures ahead { IfOk result (λ found. Counts found (ahead_of stage.new)) }
{
    match *stage {
        Stage::Ahead(ending) => Ok(Some(ending)),
        Stage::Moved => {
            let ending = arrive(candidates, path, limit, runs)?;
            *stage = Stage::Ahead(ending);
            Ok(Some(ending))
        }
        Stage::Behind => {
            if !advance(candidates, path, limit) {
                return Ok(None);
            }
            *kept = path.as_slice().len() - 1;
            *stage = Stage::Moved;
            let ending = arrive(candidates, path, limit, runs)?;
            *stage = Stage::Ahead(ending);
            Ok(Some(ending))
        }
    }
}

/// An entry with this key, compared with a bound.
#[inline(always)]
fn compared(ending: Ending, key: &[u32], upto: &Bound) -> Upto
    ensures { Compares upto.now key.now ending result }
{
    if upto.is_above_key(key) {
        return Upto::Inside(ending);
    }
    if upto.is_below_key(key) {
        return Upto::Past;
    }
    Upto::Last(ending)
}

#[inline(always)]
fn is_past(found: Upto) -> bool
    ensures { result ≡ is_past found }
{
    match found {
        Upto::Inside(_) => false,
        Upto::Last(_) => false,
        Upto::Past => true,
    }
}

impl<C: Candidate + Drop> Search<C> {
    ghost use Rattle.kr_step.specs.Stages.{Answers, count_of};

    /// A search at a cut. The candidate has index 0 in every slot.
    #[tactic(auto, using(crate::proofs::Limits::opens_none))]
    pub fn seek<L: Ledger>(
        alloc: Global,
        candidates: C,
        after: &[u32],
        runs: &mut Steps<L>,
    ) -> Result<Search<C>, NoMemory>
        requires { C.vector candidates ≡ replicate (C.space candidates).slots 0 }
        ensures space { IfOk result (λ search. C.space search.candidates ≡ C.space candidates) }
        ensures order { IfOk result (λ search. C.order search.candidates ≡ C.order candidates) }
        ensures ending { IfOk result (λ search. C.ending search.candidates ≡ C.ending candidates) }
        ensures cut { IfOk result (λ search. search.cut ≡ after.now) }
        ensures first { IfOk result (λ search. after.now ≡ [] → runs.new ≡ runs.old + search.ahead) }
        ensures runs { runs.new ≤ runs.old + length after.now + 1 }
    {
        let mut candidates = candidates;
        let cut = after.to_vec(alloc)?;
        let mut path = Vec::new(alloc);
        let stage = come_to(&mut candidates, &mut path, after, runs)?;
        Ok(Search {
            candidates,
            after: cut,
            path,
            limit: 0,
            stage,
        })
    }

    /// The next entry above the cut: it is the candidate then, and its key is the cut.
    pub fn next<L: Ledger>(&mut self, runs: &mut Steps<L>) -> Result<Next, NoMemory>
        ensures space { C.space self.new.candidates ≡ C.space self.old.candidates }
        ensures order { C.order self.new.candidates ≡ C.order self.old.candidates }
        ensures ending { C.ending self.new.candidates ≡ C.ending self.old.candidates }
        ensures found { IfOk result (λ next. Answers (C.space self.old.candidates) (C.order self.old.candidates) (C.ending self.old.candidates)
            self.old.cut (C.vector self.new.candidates) self.new.cut next) }
        ensures runs { IfOk result (λ next. runs.new + self.old.ahead ≡ runs.old + count_of next + self.new.ahead) }
        ensures ahead { IfOk result (λ next. self.new.ahead ≡ 0) }
        ensures err { OnErr result (self.new.cut ≡ self.old.cut) }
    {
        self.candidates.laws();
        let mut kept = 0;
        match find(
            &mut self.candidates,
            &mut self.path,
            &mut self.limit,
            &mut self.stage,
            &mut kept,
            runs,
        )? {
            None => Ok(Next::End),
            Some(ending) => {
                write_key(&mut self.after, self.path.as_slice(), kept)?;
                self.stage = Stage::Behind;
                Ok(Next::Found(ending))
            }
        }
    }

    /// The next entry above the cut that isn't above a bound: it is the candidate then, and its key is the cut. Where there is
    /// none, the bound becomes the cut, if it is one and memory isn't refused: from there the search goes on with what it ran.
    pub(crate) fn next_upto<L: Ledger>(
        &mut self,
        upto: &Bound,
        runs: &mut Steps<L>,
    ) -> Result<Upto, NoMemory>
        requires { less (At self.old.cut) upto.now ≡ true }
        ensures space { C.space self.new.candidates ≡ C.space self.old.candidates }
        ensures order { C.order self.new.candidates ≡ C.order self.old.candidates }
        ensures ending { C.ending self.new.candidates ≡ C.ending self.old.candidates }
        ensures found { IfOk result (λ found. ComesUpto (C.space self.old.candidates) (C.order self.old.candidates) (C.ending self.old.candidates)
            upto.now self.old.cut (C.vector self.new.candidates) self.new.cut found) }
        ensures runs { IfOk result (λ found. runs.new ≤ runs.old + 1) }
        ensures err { OnErr result (self.new.cut ≡ self.old.cut) }
    {
        self.candidates.laws();
        let mut kept = 0;
        match find(
            &mut self.candidates,
            &mut self.path,
            &mut self.limit,
            &mut self.stage,
            &mut kept,
            runs,
        )? {
            None => {
                if self.path.is_empty() {
                    let _ = rise(&mut self.after, upto);
                }
                Ok(Upto::Past)
            }
            Some(ending) => {
                write_key(&mut self.after, self.path.as_slice(), kept)?;
                let found = compared(ending, self.after.as_slice(), upto);
                if is_past(found) && rise(&mut self.after, upto) {
                    return Ok(Upto::Past);
                }
                self.stage = Stage::Behind;
                Ok(found)
            }
        }
    }

    /// The cut above which the search looks: the key of the last entry found, once there is one.
    pub fn cut(&self) -> &[u32]
        ensures { result.now ≡ self.now.cut }
    {
        self.after.as_slice()
    }

    /// The candidates.
    pub fn candidates(&self) -> &C
        ensures { result.now ≡ self.now.candidates }
    {
        &self.candidates
    }
}
