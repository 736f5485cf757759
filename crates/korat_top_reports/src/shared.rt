// What a search reports by workers.
ghost use Rattle.std.specs.Prelude.{◌≡◌, IfOk, OnErr};
ghost use Rattle.kr_args.specs.Workers.{IsShared, SearchesShared};
ghost use Rattle.kr_report.specs.Endings.{EndsListing};
ghost use Rattle.kr_space_problem.specs.Posed.{posed};
ghost use Rattle.korat_top_reports.specs.Reports.{EndsBy, EndsReport, WithLog, listing_of, shard_of, span_in};

use crate::asked::span_of;
use crate::building::emit;
use crate::preparing::prepare;
use kr_args::forms::{Ask, Pool, Search};
use kr_base::{NoMemory, Sink, Span};
use kr_io::Gate;
use kr_judge_prepared::{Accepted, Prepared};
use kr_report_listing::{count_shared, list_deque, list_shared, list_traced};
use kr_shard::put_first_line;
use std::alloc::Global;
use std::sync::Wait;
use std::thread::Threads;

/// Lists the entries that are asked for, with verdicts where a method is tested, by the pool that is asked for.
fn list_plain<W: Threads + Wait + Sync, K: Sink, G: Gate + Sync>(
    rt: &W,
    alloc: Global,
    prepared: &Prepared,
    ask: &Ask,
    span: Span,
    gate: &G,
    out: &mut K,
) -> u8
    requires shared { IsShared ask.now }
    requires span { span ≡ span_in ask.now }
    ensures { EndsListing K.taken K.faults (listing_of ask.now (posed prepared.now.problem)) out.old out.new result }
{
    let limit = ask.limit;
    let workers = ask.workers;
    match ask.pool {
        Pool::Board => list_shared(
            rt, alloc, prepared, span, limit, workers, ask.window, gate, out,
        ),
        Pool::Deque => list_deque(rt, alloc, prepared, span, limit, workers, gate, out),
    }
}

/// As `list_plain`, and after it the log of the workers, if that is asked for.
fn list<W: Threads + Wait + Sync, K: Sink, G: Gate + Sync>(
    rt: &W,
    alloc: Global,
    prepared: &Prepared,
    ask: &Ask,
    gate: &G,
    out: &mut K,
) -> Result<u8, NoMemory>
    requires shared { IsShared ask.now }
    ensures ends { IfOk result (λ status. EndsBy K.taken K.faults (WithLog ask.now.trace ask.now (posed prepared.now.problem) (listing_of ask.now (posed prepared.now.problem))) (listing_of ask.now (posed prepared.now.problem)) out.old out.new status) }
    ensures nothing { OnErr result (out.new ≡ out.old) }
{
    let span = match span_of(ask) {
        Ok(span) => span,
        Err(why) => return Err(why),
    };
    if ask.trace {
        Ok(list_traced(
            rt,
            alloc,
            prepared,
            span,
            ask.limit,
            ask.workers,
            ask.window,
            gate,
            out,
        ))
    } else {
        Ok(list_plain(rt, alloc, prepared, ask, span, gate, out))
    }
}

/// As `list_plain`, after a shard's first line.
fn shard<W: Threads + Wait + Sync, K: Sink, G: Gate + Sync>(
    rt: &W,
    alloc: Global,
    prepared: &Prepared,
    ask: &Ask,
    gate: &G,
    out: &mut K,
) -> Result<u8, NoMemory>
    requires shared { IsShared ask.now }
    ensures ends { IfOk result (λ status. EndsListing K.taken K.faults (shard_of ask.now (posed prepared.now.problem)) out.old out.new status) }
    ensures nothing { OnErr result (out.new ≡ out.old) }
{
    let span = match span_of(ask) {
        Ok(span) => span,
        Err(why) => return Err(why),
    };
    match put_first_line(&ask.from, &ask.to, out) {
        Ok(()) => Ok(list_plain(rt, alloc, prepared, ask, span, gate, out)),
        Err(_) => Ok(7),
    }
}

/// Reports of a prepared problem what a search asks.
fn report_prepared<W: Threads + Wait + Sync, K: Sink, G: Gate + Sync>(
    rt: &W,
    alloc: Global,
    search: &Search,
    prepared: &Prepared,
    gate: &G,
    out: &mut K,
) -> Result<u8, NoMemory>
    requires { SearchesShared search.now }
    ensures ends { IfOk result (λ status. EndsReport K.taken K.faults search.now (posed prepared.now.problem) out.old out.new status) }
    ensures nothing { OnErr result (out.new ≡ out.old) }
{
    match search {
        Search::List(ask) => list(rt, alloc, prepared, ask, gate, out),
        Search::Test { ask, .. } => list(rt, alloc, prepared, ask, gate, out),
        Search::Demo { n, workers } => {
            Ok(count_shared(rt, alloc, prepared, *n, *workers, gate, out))
        }
        Search::Shard(ask) => shard(rt, alloc, prepared, ask, gate, out),
        Search::Emit(ask) => emit(alloc, prepared, ask, out),
    }
}

/// Reports of a search's problem by its workers. It may wait. Where memory is refused before anything is searched, nothing is written.
pub fn report_shared<W: Threads + Wait + Sync, K: Sink, G: Gate + Sync>(
    rt: &W,
    alloc: Global,
    search: &Search,
    found: Accepted,
    gate: &G,
    out: &mut K,
) -> Result<u8, NoMemory>
    requires { SearchesShared search.now }
    ensures ends { IfOk result (λ status. EndsReport K.taken K.faults search.now (posed found) out.old out.new status) }
    ensures nothing { OnErr result (out.new ≡ out.old) }
{
    let prepared = prepare(alloc, found)?;
    report_prepared(rt, alloc, search, &prepared, gate, out)
}
