// Lines, some of them by one put.
ghost use Rattle.kr_base.specs.Told.{Writes};
ghost use Rattle.kr_report.specs.Reports.{lines};
ghost use Rattle.kr_report_streaming.specs.Lines.{texts};

use crate::row_line::RowLine;
use kr_base::{Failed, Sink, put_all};
use kr_text::Line;
use std::alloc::Global;

/// The most lines that one put takes.
const RUN: usize = 128;

/// Writes lines, each by a put of its own.
fn put_each<K: Sink>(rows: &[RowLine], out: &mut K) -> Result<(), Failed>
    ensures { Writes K.taken K.faults out.old out.new (lines (texts rows.now)) result }
{
    for row in rows {
        put_all(out, row.text.as_slice())?;
    }
    Ok(())
}

/// Writes lines by one put, or one by one where there is no memory to join them.
fn put_run<K: Sink>(alloc: Global, run: &[RowLine], out: &mut K) -> Result<(), Failed>
    ensures { Writes K.taken K.faults out.old out.new (lines (texts run.now)) result }
{
    let mut line = Line::new(alloc);
    match put_each(run, &mut line) {
        Ok(()) => put_all(out, line.bytes()),
        Err(Failed) => put_each(run, out),
    }
}

/// Writes lines, some at a time by one put.
pub(crate) fn put_rows<K: Sink>(alloc: Global, rows: &[RowLine], out: &mut K) -> Result<(), Failed>
    ensures { Writes K.taken K.faults out.old out.new (lines (texts rows.now)) result }
{
    for run in rows.chunks(RUN) {
        put_run(alloc, run, out)?;
    }
    Ok(())
}
