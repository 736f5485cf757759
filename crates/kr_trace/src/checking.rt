// A text, checked.
ghost use Rattle.std.specs.Prelude.{◌≡◌, ◌<◌, ◌+◌, ◌^◌, length};
ghost use Rattle.kr_text.specs.Splitting.{is_empty, lines_in, unended};
ghost use Rattle.kr_core.specs.Cutting.{cuts_for};
ghost use Rattle.kr_core.specs.Openings.{opening};
ghost use Rattle.kr_trace.specs.Checked.{and_then, checked, checked_parts, ended_with, events_from, is_test, parts_of, with_last};
ghost use Rattle.kr_trace.specs.Stages.{Answers, HasParts};
ghost use Rattle.kr_trace.specs.Tables.{Ascend};

use crate::agreeing::end_log;
use crate::ending::Last;
use crate::judging::{Listing, take_lines};
use crate::parts::{Parts, parts_of};
use crate::reading::{bad, read_rows};
use crate::refusal::{TraceRefusal, TraceRule};
use crate::replay::Replay;
use crate::rows::Rows;
use kr_base::Span;
use std::alloc::Global;

/// The most bytes of a text that is checked.
pub const MAX_TRACE_BYTES: usize = 16777216;

fn is_test(last: &Option<Last>) -> bool
    ensures { result ≡ is_test last.now }
{
    match last {
        None => false,
        Some(Last::Tested(_, _, _)) => true,
        Some(Last::Listed(_, _)) => false,
        Some(Last::More(_)) => false,
        Some(Last::Spent(_)) => false,
    }
}

/// Checks the events and the last line, which has a number.
fn check_events(
    alloc: Global,
    span: &Span,
    listing: &Listing,
    core: &mut Replay,
    number: u64,
    text: &[u8],
) -> Result<u64, TraceRefusal>
    requires ascend { Ascend listing.now.rows.keys }
    requires small { number + length text.now < 2 ^ 62 }
    ensures { Answers (and_then (events_from listing.now.workers listing.now.last listing.now.rows.keys core.old (number + 1) (lines_in text.now) (is_empty (unended text.now)))
        (ended_with span.now listing.now.rows listing.now.last number (length (lines_in text.now)))) result }
{
    let count = take_lines(alloc, listing, core, number + 1, text)?;
    end_log(span, listing, core, number, count)
}

/// Checks the last line, after the rows, and the events after it.
fn check_after(
    alloc: Global,
    span: &Span,
    workers: u32,
    rows: Rows,
    last: Option<Last>,
    mut core: Replay,
    text: &[u8],
) -> Result<u64, TraceRefusal>
    requires ascend { Ascend rows.keys }
    requires small { length rows.keys + length text.now < 2 ^ 60 }
    requires opens { core ≡ opening span.now (cuts_for span.now workers) }
    ensures { Answers (with_last span.now workers rows (length rows.keys + 1) last (lines_in text.now) (is_empty (unended text.now))) result }
{
    let number = rows.len() as u64 + 1;
    match last {
        None => Err(bad(number, TraceRule::NoForm)),
        Some(last) => {
            let listing = Listing {
                rows,
                last,
                workers,
            };
            check_events(alloc, span, &listing, &mut core, number, text)
        }
    }
}

/// Checks the parts of a text.
fn check_parts(
    alloc: Global,
    span: &Span,
    workers: u32,
    parts: Parts<'_>,
    text: &[u8],
) -> Result<u64, TraceRefusal>
    requires some { 0 < workers }
    requires small { length text.now < 2 ^ 32 }
    requires parts { HasParts text.now parts.rows parts.last parts.events.now }
    ensures { Answers (checked_parts span.now workers (parts_of (lines_in text.now)) (is_empty (unended text.now))) result }
{
    let Parts {
        rows: count,
        last,
        events,
    } = parts;
    let core = Replay::open(alloc, span, workers)?;
    match read_rows(alloc, is_test(&last), &span.after, core.end(), count, text) {
        Ok(rows) => check_after(alloc, span, workers, rows, last, core, events),
        Err(refusal) => Err(refusal),
    }
}

/// How many events a text has, if it is a listing of the span with the log of so many workers; else the line and the
/// rule that it breaks first.
#[tactic(auto, unfolding(crate::specs::Checked::checked))]
pub fn check_trace(
    alloc: Global,
    text: &[u8],
    span: &Span,
    workers: u32,
) -> Result<u64, TraceRefusal>
    requires { 0 < workers }
    ensures { Answers (checked span.now workers text.now) result }
{
    if text.len() > MAX_TRACE_BYTES {
        return Err(bad(1, TraceRule::TooLong));
    }
    let parts = parts_of(alloc, text)?;
    check_parts(alloc, span, workers, parts, text)
}
