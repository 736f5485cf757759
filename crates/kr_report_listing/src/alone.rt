// The report by one worker, who waits for nobody.
ghost use Rattle.std.specs.Prelude.{◌<◌, ◌≤◌, ◌+◌, [], length};
ghost use Rattle.kr_base.specs.Entries.{entries_in};
ghost use Rattle.kr_base.specs.declared.span.Bound.TheVariants.{At, End};
ghost use Rattle.kr_mean.specs.Entries.{all_entries};
ghost use Rattle.kr_report.specs.Endings.{EndsListing};
ghost use Rattle.kr_report_listing.specs.Listed.{listed, tallied};
ghost use Rattle.kr_report_listing.specs.Searched.{entries_to};
ghost use Rattle.kr_space_problem.specs.Posed.{posed};

use crate::surveys::{lines_of, units_of};
use kr_base::{Bound, Cut, Sink, Span, Steps};
use kr_judge_prepared::Prepared;
use kr_report_streaming::{Counter, LineWriter, count_law, lines_law};
use kr_scan::walk;
use std::alloc::Global;
use std::sync::ledger::Ledger;

/// Lists a problem's entries in a span, or tests its method on them, with at most so many rows: each row is put before the next
/// candidate is run, and none is run after the first row past the limit. Returns the status.
pub fn list_alone<K: Sink, L: Ledger>(
    alloc: Global,
    prepared: &Prepared,
    span: Span,
    limit: u32,
    out: &mut K,
    runs: &mut Steps<L>,
) -> u8
    ensures ends { EndsListing K.taken K.faults (listed (posed prepared.now.problem) limit span) out.old out.new result }
    ensures runs { result < 7 → runs.new ≤ runs.old + entries_to (limit + 1) (entries_in (At span.after) span.upto (all_entries (posed prepared.now.problem))) + length span.after + 2 }
{
    lines_law();
    let lines = lines_of(alloc, prepared);
    let mode = prepared.layout().mode();
    let mut writer = LineWriter::new(alloc, limit);
    let put = walk(&lines, span, &mut writer, out, runs);
    writer.close(mode, put, &[], out)
}

/// Counts a problem's valid entries, and puts one line: how many, for so many nodes, or the key of the first spent one. Returns
/// the status. Each entry is run once.
pub fn count_alone<K: Sink, L: Ledger>(
    alloc: Global,
    prepared: &Prepared,
    nodes: u32,
    out: &mut K,
    runs: &mut Steps<L>,
) -> u8
    ensures ends { EndsListing K.taken K.faults (tallied (posed prepared.now.problem) nodes) out.old out.new result }
    ensures runs { result < 7 → runs.new ≤ runs.old + length (entries_in (At []) End (all_entries (posed prepared.now.problem))) + 2 }
{
    count_law();
    let units = units_of(alloc, prepared);
    let mut counter = Counter::new();
    let span = Span {
        after: Cut::empty(alloc),
        upto: Bound::End,
    };
    let put = walk(&units, span, &mut counter, out, runs);
    counter.close(nodes, put, out)
}
