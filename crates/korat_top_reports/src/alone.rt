// What a search reports by one worker.
ghost use Rattle.std.specs.Prelude.{◌≡◌, ◌<◌, true, IfOk, OnErr};
ghost use Rattle.kr_report.specs.Endings.{EndsListing};
ghost use Rattle.kr_space_problem.specs.Posed.{posed};
ghost use Rattle.korat_top_reports.specs.Reports.{EndsReport, is_alone, listing_of, shard_of};

use crate::asked::span_of;
use crate::building::emit;
use crate::preparing::prepare;
use kr_args::forms::{Ask, Search};
use kr_base::{NoMemory, Sink, Steps};
use kr_judge_prepared::{Accepted, Prepared};
use kr_report_listing::{count_alone, list_alone};
use kr_shard::put_first_line;
use std::alloc::Global;
use std::marker::Brand;
use std::sync::ledger::{Blank, Ledger};

/// Lists the entries that are asked for, with verdicts where a method is tested.
fn list<K: Sink, L: Ledger>(
    alloc: Global,
    prepared: &Prepared,
    ask: &Ask,
    out: &mut K,
    runs: &mut Steps<L>,
) -> Result<u8, NoMemory>
    ensures ends { IfOk result (λ status. EndsListing K.taken K.faults (listing_of ask.now (posed prepared.now.problem)) out.old out.new status) }
    ensures nothing { OnErr result (out.new ≡ out.old) }
{
    match span_of(ask) {
        Ok(span) => Ok(list_alone(alloc, prepared, span, ask.limit, out, runs)),
        Err(why) => Err(why),
    }
}

/// As `list`, after a shard's first line.
fn shard<K: Sink, L: Ledger>(
    alloc: Global,
    prepared: &Prepared,
    ask: &Ask,
    out: &mut K,
    runs: &mut Steps<L>,
) -> Result<u8, NoMemory>
    ensures ends { IfOk result (λ status. EndsListing K.taken K.faults (shard_of ask.now (posed prepared.now.problem)) out.old out.new status) }
    ensures nothing { OnErr result (out.new ≡ out.old) }
{
    let span = match span_of(ask) {
        Ok(span) => span,
        Err(why) => return Err(why),
    };
    match put_first_line(&ask.from, &ask.to, out) {
        Ok(()) => Ok(list_alone(alloc, prepared, span, ask.limit, out, runs)),
        Err(_) => Ok(7),
    }
}

/// Reports of a prepared problem what a search asks.
fn report_prepared<K: Sink, L: Ledger>(
    alloc: Global,
    search: &Search,
    prepared: &Prepared,
    out: &mut K,
    runs: &mut Steps<L>,
) -> Result<u8, NoMemory>
    requires { is_alone search.now ≡ true }
    ensures ends { IfOk result (λ status. EndsReport K.taken K.faults search.now (posed prepared.now.problem) out.old out.new status) }
    ensures nothing { OnErr result (out.new ≡ out.old) }
{
    match search {
        Search::List(ask) => list(alloc, prepared, ask, out, runs),
        Search::Test { ask, .. } => list(alloc, prepared, ask, out, runs),
        Search::Demo { n, .. } => Ok(count_alone(alloc, prepared, *n, out, runs)),
        Search::Shard(ask) => shard(alloc, prepared, ask, out, runs),
        Search::Emit(ask) => emit(alloc, prepared, ask, out),
    }
}

/// Searches a problem.
fn report_found<K: Sink, L: Ledger>(
    alloc: Global,
    search: &Search,
    found: Accepted,
    out: &mut K,
    blank: Blank,
) -> Result<u8, NoMemory>
    requires ledger { blank.name ≡ L.name }
    requires parts { blank.parts ≡ L.parts }
    requires some { 0 < L.parts }
    requires alone { is_alone search.now ≡ true }
    ensures ends { IfOk result (λ status. EndsReport K.taken K.faults search.now (posed found) out.old out.new status) }
    ensures nothing { OnErr result (out.new ≡ out.old) }
{
    let mut runs = Steps::<L>::start(blank);
    let prepared = prepare(alloc, found)?;
    report_prepared(alloc, search, &prepared, out, &mut runs)
}

/// Reports of a search's problem by one worker. It waits for nobody. Where memory is refused before anything is searched, nothing
/// is written.
pub fn report_alone<K: Sink>(
    alloc: Global,
    search: &Search,
    found: Accepted,
    out: &mut K,
) -> Result<u8, NoMemory>
    requires { is_alone search.now ≡ true }
    ensures ends { IfOk result (λ status. EndsReport K.taken K.faults search.now (posed found) out.old out.new status) }
    ensures nothing { OnErr result (out.new ≡ out.old) }
{
    report_found::<K, Brand>(alloc, search, found, out, Blank::new(1))
}
