// The report by workers in threads of their own. Whatever the schedule, it is what one worker reports.
ghost use Rattle.std.specs.Prelude.{◌≡◌, ◌<◌, ◌≤◌};
ghost use Rattle.kr_report.specs.Endings.{EndsListing};
ghost use Rattle.kr_report_listing.specs.Listed.{listed, tallied};
ghost use Rattle.kr_report_listing.specs.Runs.{IsRunOf};
ghost use Rattle.kr_report_listing.specs.Traced.{EndsLogged, EndsTraced};
ghost use Rattle.kr_space_problem.specs.Posed.{posed};

use crate::surveys::{Lines, lines_of, units_of};
use kr_base::{Bound, Cut, Sink, Span};
use kr_deque::spread;
use kr_io::Gate;
use kr_judge_prepared::Prepared;
use kr_pool::{Log, Run, share, share_run};
use kr_report_streaming::{Counter, LineWriter, RowLine, count_law, lines_law};
use std::alloc::Global;
use std::marker::Brand;
use std::sync::Wait;
use std::sync::ledger::{Blank, Ledger};
use std::thread::Threads;

/// Lists a problem's entries in a span, or tests its method on them, with at most so many rows, by so many workers at a board: rows
/// are put while they work, and beside those being scanned at most as many as the window and one part have are kept. Returns the
/// status. It may wait.
pub fn list_shared<W: Threads + Wait + Sync, K: Sink, G: Gate + Sync>(
    rt: &W,
    alloc: Global,
    prepared: &Prepared,
    span: Span,
    limit: u32,
    workers: u32,
    window: u32,
    gate: &G,
    out: &mut K,
) -> u8
    requires workers { (0 < workers) × (workers ≤ 64) }
    requires window { (0 < window) × (window ≤ 65536) }
    ensures { EndsListing K.taken K.faults (listed (posed prepared.now.problem) limit span) out.old out.new result }
{
    lines_law();
    let lines = lines_of(alloc, prepared);
    let mode = prepared.layout().mode();
    let window = Some(u64::from(window));
    let mut writer = LineWriter::new(alloc, limit);
    match share(
        rt,
        alloc,
        &lines,
        span,
        workers,
        window,
        &mut writer,
        out,
        gate,
    ) {
        Ok((end, _)) => writer.close(mode, Ok(end), &[], out),
        Err(halt) => writer.close(mode, Err(halt), &[], out),
    }
}

/// How a listing with a log after it ended: the status, and the log that was written, unless the rows broke off.
#[derive(Drop)]
pub struct Traced<N> {
    pub status: u8,
    pub log: Option<Log<N>>,
}

/// As `list_shared`, and after the last line the log of the workers, a line an event, for a run that a type names: the log is that of
/// the run whose rows were written. It may wait.
pub fn list_run<
    N: Run<RowLine> + Send + Sync,
    D: Ledger + Send + Sync,
    W: Threads + Wait + Sync,
    K: Sink,
    G: Gate + Sync,
>(
    rt: &W,
    alloc: Global,
    prepared: &Prepared,
    span: Span,
    limit: u32,
    workers: u32,
    window: u32,
    gate: &G,
    out: &mut K,
    calls: Blank,
    tap: Blank,
) -> Traced<N>
    requires ledger { (calls.name ≡ N.name) × (calls.parts ≡ N.parts) }
    requires tap { (tap.name ≡ D.name) × (tap.parts ≡ D.parts) × (tap.parts ≡ 1) }
    requires parts { (N.parts ≡ workers) × (N.workers ≡ workers) }
    requires workers { (0 < workers) × (workers ≤ 64) }
    requires window { (0 < window) × (window ≤ 65536) }
    requires run { IsRunOf (posed prepared.now.problem) span workers window limit N.all N.span N.cuts N.opening N.window N.limit }
    ensures { EndsLogged K.taken K.faults (posed prepared.now.problem) span workers window limit out.old out.new result.status result.log }
{
    lines_law();
    let lines = lines_of(alloc, prepared);
    let mode = prepared.layout().mode();
    let rows = Some(u64::from(window));
    let mut writer = LineWriter::new(alloc, limit);
    match share_run::<RowLine, N, D, Lines<'_>, LineWriter, G, W, K>(
        rt,
        alloc,
        &lines,
        span,
        workers,
        rows,
        &mut writer,
        out,
        gate,
        calls,
        tap,
    ) {
        Ok((end, log)) => Traced {
            status: writer.close(mode, Ok(end), log.events(), out),
            log: Some(log),
        },
        Err(halt) => Traced {
            status: writer.close(mode, Err(halt), &[], out),
            log: None,
        },
    }
}

/// As `list_shared`, and after the last line the log of the workers, a line an event. It may wait.
pub fn list_traced<W: Threads + Wait + Sync, K: Sink, G: Gate + Sync>(
    rt: &W,
    alloc: Global,
    prepared: &Prepared,
    span: Span,
    limit: u32,
    workers: u32,
    window: u32,
    gate: &G,
    out: &mut K,
) -> u8
    requires workers { (0 < workers) × (workers ≤ 64) }
    requires window { (0 < window) × (window ≤ 65536) }
    ensures { EndsTraced K.taken K.faults (posed prepared.now.problem) span workers window limit out.old out.new result }
{
    let traced = list_run::<Brand, Brand, W, K, G>(
        rt,
        alloc,
        prepared,
        span,
        limit,
        workers,
        window,
        gate,
        out,
        Blank::new(u64::from(workers)),
        Blank::new(1),
    );
    traced.status
}

/// As `list_shared`, by workers over deques: what they find is put once all of it is there. It may wait.
pub fn list_deque<W: Threads + Wait + Sync, K: Sink, G: Gate + Sync>(
    rt: &W,
    alloc: Global,
    prepared: &Prepared,
    span: Span,
    limit: u32,
    workers: u32,
    gate: &G,
    out: &mut K,
) -> u8
    requires workers { (0 < workers) × (workers ≤ 64) }
    ensures { EndsListing K.taken K.faults (listed (posed prepared.now.problem) limit span) out.old out.new result }
{
    lines_law();
    let lines = lines_of(alloc, prepared);
    let mode = prepared.layout().mode();
    let mut writer = LineWriter::new(alloc, limit);
    let put = spread(rt, alloc, &lines, span, workers, &mut writer, out, gate);
    writer.close(mode, put, &[], out)
}

/// Counts a problem's valid entries by so many workers at a board, and puts one line: how many, for so many nodes, or the key of the
/// first spent one. Returns the status. It may wait.
pub fn count_shared<W: Threads + Wait + Sync, K: Sink, G: Gate + Sync>(
    rt: &W,
    alloc: Global,
    prepared: &Prepared,
    nodes: u32,
    workers: u32,
    gate: &G,
    out: &mut K,
) -> u8
    requires workers { (0 < workers) × (workers ≤ 64) }
    ensures { EndsListing K.taken K.faults (tallied (posed prepared.now.problem) nodes) out.old out.new result }
{
    count_law();
    let units = units_of(alloc, prepared);
    let mut counter = Counter::new();
    let span = Span {
        after: Cut::empty(alloc),
        upto: Bound::End,
    };
    match share(
        rt,
        alloc,
        &units,
        span,
        workers,
        None,
        &mut counter,
        out,
        gate,
    ) {
        Ok((end, _)) => counter.close(nodes, Ok(end), out),
        Err(halt) => counter.close(nodes, Err(halt), out),
    }
}
