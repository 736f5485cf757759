// The entries of a span, by trying every candidate.
ghost use Rattle.std.specs.Prelude.{◌≡◌, ◌<◌, ◌^◌, ◌+◌, List, ℕ, length, map, replicate, IfOk, OnOk};
ghost use Rattle.kr_base.specs.declared.span.Bound.TheVariants.{At};
ghost use Rattle.kr_base.specs.Entries.{entries_in};
ghost use Rattle.kr_mean.specs.Entries.{all_entries, row_of, vectors};
ghost use Rattle.kr_mean.specs.Problem.{Problem, slots};
ghost use Rattle.kr_mean.specs.Space.{IsVector, space_of};
ghost use Rattle.kr_mean.specs.WellFormed.{IsWellFormed};
ghost use Rattle.kr_mean.specs.declared.row.Row.{Row};
ghost use Rattle.kr_step.specs.Scans.{RunsOn};
ghost use Rattle.kr_space_layout.specs.Bounds.{bare as unnamed, problem_with};
ghost use Rattle.kr_plain.specs.Plain.{Tries, bare, mark_by, structured, told_entry};

use crate::counting::count_on;
use crate::keeping::{end_at_spent, insert_entry};
use crate::listed::{is_listed, last_key};
use crate::telling::{Nothing, Structures, Telling};
use kr_base::{Entry, Mark, NoMemory, Span, Steps};
use kr_laws_pruning::plain_law;
use kr_mean::Structure;
use kr_space_layout::Layout;
use kr_step::{Candidate, Ending};
use std::alloc::Global;
use std::sync::ledger::Ledger;

/// The report of the current candidate, whose run ends so.
fn mark_for<C: Candidate, T: Telling>(
    alloc: Global,
    ending: Ending,
    telling: &T,
    candidates: &C,
) -> Result<Mark<T::Told>, NoMemory>
    requires fits { T.fits telling.now (C.space candidates.now) }
    requires vector { IsVector (C.space candidates.now) (C.vector candidates.now) }
    ensures { IfOk result (λ mark. mark ≡ Rattle.kr_plain.specs.Plain.mark_for (T.told telling.now (C.vector candidates.now)) ending) }
{
    match ending {
        Ending::Valid => Ok(Mark::Valid(telling.tell(alloc, candidates)?)),
        Ending::Invalid => Ok(Mark::Invalid),
        Ending::Spent => Ok(Mark::Spent),
    }
}

/// Runs the current candidate, and keeps its entry where it is listed and the span has its key.
fn try_one<C: Candidate, T: Telling, L: Ledger>(
    alloc: Global,
    candidates: &mut C,
    telling: &T,
    span: &Span,
    found: &mut Vec<Entry<T::Told>>,
    runs: &mut Steps<L>,
) -> Result<(), NoMemory>
    requires vector { IsVector (C.space candidates.old) (C.vector candidates.old) }
    requires fits { T.fits telling.now (C.space candidates.old) }
    ensures space { C.space candidates.new ≡ C.space candidates.old }
    ensures order { C.order candidates.new ≡ C.order candidates.old }
    ensures ending { C.ending candidates.new ≡ C.ending candidates.old }
    ensures vector { C.vector candidates.new ≡ C.vector candidates.old }
    ensures tries { OnOk result (Tries (C.space candidates.old) (C.order candidates.old) (mark_by (T.told telling.now) (C.ending candidates.old)) (At span.now.after) span.now.upto
        (C.vector candidates.old) found.old.items found.new.items) }
    ensures runs { runs.new ≡ runs.old + 1 }
{
    candidates.laws();
    let ending = candidates.run(runs)?;
    let candidates = &*candidates;
    if !is_listed(alloc, candidates)? {
        return Ok(());
    }
    let key = last_key(alloc, candidates)?;
    if !key.is_within(&span.after, &span.upto) {
        return Ok(());
    }
    let mark = mark_for(alloc, ending, telling, candidates)?;
    insert_entry(found, Entry { key, mark })
}

/// The entries of a span, up to and with the first spent one: their keys, and the reports of valid ones. Every candidate is
/// run, each once.
fn list_told<C: Candidate, T: Telling, L: Ledger>(
    alloc: Global,
    candidates: &mut C,
    telling: &T,
    span: &Span,
    runs: &mut Steps<L>,
) -> Result<Vec<Entry<T::Told>>, NoMemory>
    requires first { C.vector candidates.old ≡ replicate (C.space candidates.old).slots 0 }
    requires fits { T.fits telling.now (C.space candidates.old) }
    ensures runs { OnOk result (runs.new ≡ runs.old + length (vectors (C.space candidates.old))) }
    ensures entries { IfOk result (λ found. (problem : Problem) → RunsOn problem (C.space candidates.old) (C.order candidates.old) (C.ending candidates.old) →
        (told : Row → T.Told) → ((v : List ℕ) → IsVector (C.space candidates.old) v → told (row_of problem v) ≡ T.told telling.now v) →
        found.items ≡ map (told_entry told) (entries_in (At span.now.after) span.now.upto (all_entries problem))) }
{
    candidates.laws();
    plain_law();
    let mut found = Vec::new(alloc);
    let mut more = true;
    while more {
        try_one(alloc, candidates, telling, span, &mut found, runs)?;
        more = count_on(candidates);
    }
    end_at_spent(&mut found);
    Ok(found)
}

/// The entries of a span, up to and with the first spent one: their keys, how their runs end, and the structures of valid ones.
/// Every candidate is run, each once; the candidate has index 0 in every slot.
pub fn list_plain<C: Candidate, L: Ledger>(
    alloc: Global,
    candidates: &mut C,
    layout: &Layout,
    span: &Span,
    runs: &mut Steps<L>,
) -> Result<Vec<Entry<Structure>>, NoMemory>
    requires first { C.vector candidates.old ≡ replicate (C.space candidates.old).slots 0 }
    requires space { C.space candidates.old ≡ space_of (unnamed layout.now) }
    requires well { IsWellFormed (unnamed layout.now) }
    requires small { length (slots (unnamed layout.now)) < 2 ^ 31 }
    ensures runs { OnOk result (runs.new ≡ runs.old + length (vectors (C.space candidates.old))) }
    ensures entries { IfOk result (λ found. (problem : Problem) → problem ≡ problem_with problem.program layout.now → RunsOn problem (C.space candidates.old) (C.order candidates.old) (C.ending candidates.old) →
        found.items ≡ map structured (entries_in (At span.now.after) span.now.upto (all_entries problem))) }
{
    let telling = Structures { layout };
    let found = list_told(alloc, candidates, &telling, span, runs)?;
    Ok(found)
}

/// Likewise without structures: for candidates that aren't laid out.
pub fn list_keys<C: Candidate, L: Ledger>(
    alloc: Global,
    candidates: &mut C,
    span: &Span,
    runs: &mut Steps<L>,
) -> Result<Vec<Entry<()>>, NoMemory>
    requires { C.vector candidates.old ≡ replicate (C.space candidates.old).slots 0 }
    ensures runs { OnOk result (runs.new ≡ runs.old + length (vectors (C.space candidates.old))) }
    ensures entries { IfOk result (λ found. (problem : Problem) → RunsOn problem (C.space candidates.old) (C.order candidates.old) (C.ending candidates.old) →
        found.items ≡ map bare (entries_in (At span.now.after) span.now.upto (all_entries problem))) }
{
    let telling = Nothing { alloc };
    let found = list_told(alloc, candidates, &telling, span, runs)?;
    Ok(found)
}
