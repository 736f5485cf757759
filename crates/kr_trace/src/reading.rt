// The rows of a text, read.
ghost use Rattle.std.specs.Prelude.{◌≡◌, ◌≤◌, ◌<◌, ◌^◌, IfOk, length, take};
ghost use Rattle.kr_text.specs.Splitting.{lines_in};
ghost use Rattle.kr_trace.specs.Checked.{row_after, rows_from};
ghost use Rattle.kr_trace.specs.Words.{row_in};
ghost use Rattle.kr_trace.specs.Stages.{AddsRow, Answers, ReadsRow};

use crate::refusal::{Fault, TraceRefusal, TraceRule};
use crate::row::{Row, row_in};
use crate::rows::Rows;
use kr_base::{Bound, Cut, NoMemory};
use kr_text::first_line;
use std::alloc::Global;

/// The refusal of a line.
pub(crate) fn bad(line: u64, rule: TraceRule) -> TraceRefusal
    ensures { result ≡ TraceRefusal.Bad (record { line = line; rule = rule }) }
{
    TraceRefusal::Bad(Fault { line, rule })
}

/// The row of a line, whose key is above the one before and not above the span's end.
fn next_row(
    alloc: Global,
    tests: bool,
    before: &Cut,
    end: &Bound,
    number: u64,
    line: &[u8],
) -> Result<Row, TraceRefusal>
    ensures { Answers (row_after end.now before.now number (row_in tests line.now)) result }
{
    match row_in(alloc, tests, line)? {
        None => Err(bad(number, TraceRule::NoForm)),
        Some(row) => {
            if row.key.is_within(before, end) {
                Ok(row)
            } else {
                Err(bad(number, TraceRule::KeyOrder))
            }
        }
    }
}

/// Rows that were read, and the last one's key, or the cut that they are above.
#[derive(Drop)]
pub(crate) struct Reading {
    pub(crate) rows: Rows,
    pub(crate) before: Cut,
}

fn add_row(rows: Rows, row: Row) -> Result<Reading, NoMemory>
    ensures { IfOk result (λ reading. AddsRow rows row reading) }
{
    let Row { key, passes } = row;
    let rows = rows.with_row(key.numbers(), passes)?;
    Ok(Reading { rows, before: key })
}

/// Reads one more row.
fn read_row(
    alloc: Global,
    tests: bool,
    reading: Reading,
    end: &Bound,
    number: u64,
    line: &[u8],
) -> Result<Reading, TraceRefusal>
    ensures { ReadsRow (row_after end.now reading.before number (row_in tests line.now)) reading.rows result }
{
    let Reading { rows, before } = reading;
    match next_row(alloc, tests, &before, end, number, line) {
        Ok(row) => Ok(add_row(rows, row)?),
        Err(refusal) => Err(refusal),
    }
}

/// The rows of the first lines of a text.
pub(crate) fn read_rows(
    alloc: Global,
    tests: bool,
    after: &Cut,
    end: &Bound,
    count: usize,
    text: &[u8],
) -> Result<Rows, TraceRefusal>
    requires count { count ≤ length (lines_in text.now) }
    requires small { length text.now < 2 ^ 32 }
    ensures { Answers (rows_from tests end.now after.now 1 (take count (lines_in text.now))) result }
{
    let before = after.try_clone()?;
    let mut reading = Reading {
        rows: Rows::new(alloc),
        before,
    };
    let mut rest = text;
    for at in 0..count {
        let Some((line, later)) = first_line(rest) else {
            unreachable!()
        };
        match read_row(alloc, tests, reading, end, at as u64 + 1, line) {
            Ok(next) => reading = next,
            Err(refusal) => return Err(refusal),
        }
        rest = later;
    }
    let Reading { rows, .. } = reading;
    Ok(rows)
}
