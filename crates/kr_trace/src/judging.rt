// Events, taken one after another.
ghost use Rattle.std.specs.Prelude.{◌≡◌, ◌+◌, ◌<◌, ◌^◌, length, IfOk};
ghost use Rattle.kr_text.specs.Splitting.{is_empty, lines_in, unended};
ghost use Rattle.kr_trace.specs.Checked.{event_after, events_from, has_rows, is_by, is_written};
ghost use Rattle.kr_trace.specs.Stages.{Judges, Reaches};
ghost use Rattle.kr_trace.specs.Tables.{Ascend};
ghost use Rattle.kr_trace.specs.Words.{event_in};

use crate::ending::Last;
use crate::events::event_in;
use crate::reading::bad;
use crate::refusal::{TraceRefusal, TraceRule};
use crate::replay::Replay;
use crate::rows::Rows;
use kr_base::Bound;
use kr_core::{Event, Segment};
use kr_text::first_line;
use std::alloc::Global;

/// What a log is held against: rows, the last line, and the number of workers.
#[derive(Drop)]
pub(crate) struct Listing {
    pub(crate) rows: Rows,
    pub(crate) last: Last,
    pub(crate) workers: u32,
}

fn is_by(workers: u32, event: &Event) -> bool
    ensures { result ≡ is_by workers event.now }
{
    match event {
        Event::Take { seat, .. } => *seat < workers,
        Event::Steal { seat, .. } => *seat < workers,
        Event::Report { seat, .. } => *seat < workers,
        Event::GiveUp { seat, .. } => *seat < workers,
        Event::Drain { .. } => true,
        Event::StopAt { .. } => true,
        Event::Look { seat } => *seat < workers,
    }
}

/// Whether so many rows of a segment were written up to a reach.
fn is_written(listing: &Listing, reach: &Bound, count: u64, segment: &Segment) -> bool
    requires { Ascend listing.now.rows.keys }
    ensures { result ≡ is_written listing.now.last listing.now.rows.keys reach.now count segment.now }
{
    let written = listing.rows.count_between(&segment.mark, reach);
    if listing.last.is_passed(reach) {
        written <= count
    } else {
        written == count
    }
}

/// Whether a report's rows are those that were written.
fn has_rows(listing: &Listing, core: &Replay, event: &Event) -> bool
    requires { Ascend listing.now.rows.keys }
    ensures { result ≡ has_rows listing.now.last listing.now.rows.keys core.now event.now }
{
    match event {
        Event::Report {
            segment,
            reach,
            rows,
            ..
        } => match core.segment_of(*segment) {
            None => false,
            Some(segment) => is_written(listing, reach, *rows, segment),
        },
        Event::Take { .. } => true,
        Event::Steal { .. } => true,
        Event::GiveUp { .. } => true,
        Event::Drain { .. } => true,
        Event::StopAt { .. } => true,
        Event::Look { .. } => true,
    }
}

/// The rule that an event breaks.
fn broken_by(listing: &Listing, core: &Replay, event: &Event) -> Option<TraceRule>
    requires { Ascend listing.now.rows.keys }
    ensures { Judges listing.now core.now event.now result }
{
    if !core.fits(event) || !is_by(listing.workers, event) {
        return Some(TraceRule::NoStep);
    }
    if has_rows(listing, core, event) {
        None
    } else {
        Some(TraceRule::OtherRows)
    }
}

/// Takes the event on a line.
fn take_line(
    alloc: Global,
    listing: &Listing,
    core: &mut Replay,
    number: u64,
    line: &[u8],
) -> Result<(), TraceRefusal>
    requires { Ascend listing.now.rows.keys }
    ensures { Reaches (event_after listing.now.workers listing.now.last listing.now.rows.keys core.old number (event_in line.now)) core.new result }
{
    let Some(event) = event_in(alloc, line)? else {
        return Err(bad(number, TraceRule::NoForm));
    };
    match broken_by(listing, core, &event) {
        Some(rule) => Err(bad(number, rule)),
        None => Ok(core.apply(event)?),
    }
}

/// Takes the events on the lines of a text, the first of which has a number. Reports how many there are.
pub(crate) fn take_lines(
    alloc: Global,
    listing: &Listing,
    core: &mut Replay,
    first: u64,
    text: &[u8],
) -> Result<u64, TraceRefusal>
    requires ascend { Ascend listing.now.rows.keys }
    requires small { first + length text.now < 2 ^ 63 }
    ensures reaches { Reaches (events_from listing.now.workers listing.now.last listing.now.rows.keys core.old first (lines_in text.now) (is_empty (unended text.now))) core.new result }
    ensures count { IfOk result (λ n. n ≡ length (lines_in text.now)) }
{
    let mut rest = text;
    let mut count = 0;
    while let Some((line, later)) = first_line(rest) {
        match take_line(alloc, listing, core, first + count, line) {
            Ok(()) => count += 1,
            Err(refusal) => return Err(refusal),
        }
        rest = later;
    }
    if rest.is_empty() {
        Ok(count)
    } else {
        Err(bad(first + count, TraceRule::NoForm))
    }
}
