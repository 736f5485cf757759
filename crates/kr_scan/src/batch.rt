// What one scan walks: at most so many entries, up to a bound.
ghost use Rattle.std.specs.Prelude.{◌≡◌, ◌<◌, ◌≤◌, ◌+◌, [], IfOk};
ghost use Rattle.kr_mean.specs.Entries.{all_entries};
ghost use Rattle.kr_step.specs.Scans.{RunsOn};
ghost use Rattle.kr_space_problem.specs.Posed.{posed};
ghost use Rattle.kr_survey.specs.Scans.{IsScan};
ghost use Rattle.kr_scan.specs.Stops.{Gathers, IsSpent, reach_at, says_spent};

use crate::maker::{RowMaker, cut_of};
use crate::row::add_row;
use kr_base::{Bound, NoMemory, Steps};
use kr_mean::Row;
use kr_step::{Candidate, Ending, Next, SpanSearch};
use kr_survey::{Part, RowList};
use std::alloc::Global;
use std::sync::ledger::Ledger;

/// Why a walk stopped: no entry is left up to the bound; it walked as many as it may; the last one is spent.
#[derive(Clone, Copy, PartialEq, Eq)]
pub(crate) enum Stop {
    End,
    Full,
    Spent,
}

/// Whether a run needs more than the fuel.
pub(crate) fn is_spent(ending: Ending) -> bool
    ensures { IsSpent ending result }
{
    match ending {
        Ending::Spent => true,
        Ending::Valid => false,
        Ending::Invalid => false,
    }
}

/// How far a walk came that stopped so, at the entry of a key.
fn reach(alloc: Global, stop: Stop, key: &[u32], upto: &Bound) -> Result<Bound, NoMemory>
    ensures { IfOk result (λ reach. reach ≡ reach_at stop key.now upto.now) }
{
    match stop {
        Stop::End => upto.try_clone(),
        Stop::Full => Ok(Bound::At(cut_of(alloc, key)?)),
        Stop::Spent => Ok(Bound::At(cut_of(alloc, key)?)),
    }
}

/// Walks on to the end of a span, through a spent entry, or until so many entries were walked, and keeps the rows of the
/// valid ones.
fn gather<C: Candidate + Drop, L: Ledger>(
    span: &mut SpanSearch<C>,
    most: u32,
    maker: &mut RowMaker<'_>,
    rows: &mut Vec<Row>,
    tried: &mut u32,
    runs: &mut Steps<L>,
) -> Result<Stop, NoMemory>
    requires some { 0 < most }
    requires none { tried.old ≡ 0 }
    requires no_rows { rows.old.items ≡ [] }
    requires runs_on { RunsOn (posed maker.old.problem) (C.space span.old.candidates) (C.order span.old.candidates) (C.ending span.old.candidates) }
    ensures space { C.space span.new.candidates ≡ C.space span.old.candidates }
    ensures order { C.order span.new.candidates ≡ C.order span.old.candidates }
    ensures ending { C.ending span.new.candidates ≡ C.ending span.old.candidates }
    ensures maker { maker.new ≡ maker.old }
    ensures gathered { IfOk result (λ stop. Gathers (all_entries (posed maker.old.problem)) span.old.cut span.old.upto most stop span.new.cut rows.new.items tried.new) }
    ensures runs { IfOk result (λ stop. runs.new ≤ runs.old + tried.new + 1) }
{
    loop {
        let ending = match span.next(runs) {
            Err(why) => return Err(why),
            Ok(Next::End) => return Ok(Stop::End),
            Ok(Next::Found(ending)) => ending,
        };
        add_row(ending, maker, &*span, rows)?;
        *tried += 1;
        if is_spent(ending) {
            return Ok(Stop::Spent);
        }
        if *tried == most {
            return Ok(Stop::Full);
        }
    }
}

/// Whether a walk stopped at a spent entry.
fn is_at_spent(stop: Stop) -> bool
    ensures { result ≡ says_spent stop }
{
    match stop {
        Stop::Spent => true,
        Stop::Full => false,
        Stop::End => false,
    }
}

/// The part that a span gives, whose end is this, of at most so many entries.
pub(crate) fn collect<C: Candidate + Drop, L: Ledger>(
    alloc: Global,
    span: &mut SpanSearch<C>,
    maker: &mut RowMaker<'_>,
    upto: &Bound,
    most: u32,
    runs: &mut Steps<L>,
) -> Result<Part<Row>, NoMemory>
    requires some { 0 < most }
    requires upto { span.old.upto ≡ upto.now }
    requires runs_on { RunsOn (posed maker.old.problem) (C.space span.old.candidates) (C.order span.old.candidates) (C.ending span.old.candidates) }
    ensures space { C.space span.new.candidates ≡ C.space span.old.candidates }
    ensures order { C.order span.new.candidates ≡ C.order span.old.candidates }
    ensures ending { C.ending span.new.candidates ≡ C.ending span.old.candidates }
    ensures maker { maker.new ≡ maker.old }
    ensures part { IfOk result (IsScan (all_entries (posed maker.old.problem)) span.old.cut upto.now most) }
    ensures runs { IfOk result (λ part. runs.new ≤ runs.old + part.tried + 1) }
{
    let mut rows = Vec::new(alloc);
    let mut tried = 0;
    let stop = gather(span, most, maker, &mut rows, &mut tried, runs)?;
    let reach = reach(alloc, stop, span.cut(), upto)?;
    Ok(Part {
        reach,
        rows: RowList::new(rows),
        tried: u64::from(tried),
        spent: is_at_spent(stop),
    })
}
