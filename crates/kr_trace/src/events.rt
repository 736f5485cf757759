// Events read from their lines.
ghost use Rattle.std.specs.Prelude.{◌≡◌, IfOk, MatchOption, Some};
ghost use Rattle.std.specs.Option.{option_map};
ghost use Rattle.kr_trace.specs.Words.{counts_in, drained_in, event_by, event_in, held_in, looked_in, reported_in, spent_in, stolen_in, stopped_in};
ghost use Rattle.kr_trace.specs.Reading.{words_left};

use crate::words::{Held, held_in, next_word, seat_of};
use kr_base::{Cut, NoMemory};
use kr_core::Event;
use kr_text::{bound_of, cut_of, number_of};
use std::alloc::Global;

fn taken_in(left: Option<&[u8]>) -> Option<Event>
    ensures { result ≡ option_map (λ h. Event.Take h.seat h.segment) (held_in (words_left left.entry)) }
{
    let Held { seat, segment } = held_in(left)?;
    Some(Event::Take { seat, segment })
}

fn given_up_in(left: Option<&[u8]>) -> Option<Event>
    ensures { result ≡ option_map (λ h. Event.GiveUp h.seat h.segment) (held_in (words_left left.entry)) }
{
    let Held { seat, segment } = held_in(left)?;
    Some(Event::GiveUp { seat, segment })
}

/// `SEAT VICTIM CUT SEGMENT`
fn stolen_in(alloc: Global, left: Option<&[u8]>) -> Result<Option<Event>, NoMemory>
    ensures { IfOk result (λ event. event ≡ stolen_in (words_left left.entry)) }
{
    let Some((seat, left)) = next_word(left) else {
        return Ok(None)
    };
    let Some((victim, left)) = next_word(left) else {
        return Ok(None)
    };
    let Some((cut, left)) = next_word(left) else {
        return Ok(None)
    };
    let Some((segment, left)) = next_word(left) else {
        return Ok(None)
    };
    let None = next_word(left) else {
        return Ok(None)
    };
    let Some(seat) = seat_of(seat) else {
        return Ok(None)
    };
    let Some(victim) = number_of(victim) else {
        return Ok(None)
    };
    let Some(segment) = number_of(segment) else {
        return Ok(None)
    };
    match cut_of(alloc, cut)? {
        Some(cut) => Ok(Some(Event::Steal {
            seat,
            victim,
            cut,
            segment,
        })),
        None => Ok(None),
    }
}

/// Nothing, or `spent`.
fn spent_in(left: Option<&[u8]>) -> Option<bool>
    ensures { result ≡ spent_in (words_left left.entry) }
{
    let Some((word, left)) = next_word(left) else {
        return Some(false)
    };
    let None = next_word(left) else { return None };
    if word == b"spent".as_slice() {
        Some(true)
    } else {
        None
    }
}

/// A report's numbers, and whether a candidate was spent.
#[derive(Clone, Copy)]
pub struct Counts {
    pub seat: u32,
    pub segment: u64,
    pub rows: u64,
    pub tried: u64,
    pub spent: bool,
}

fn counts_in(
    seat: &[u8],
    segment: &[u8],
    rows: &[u8],
    tried: &[u8],
    left: Option<&[u8]>,
) -> Option<Counts>
    ensures { result ≡ counts_in seat.now segment.now rows.now tried.now (words_left left.entry) }
{
    let seat = seat_of(seat)?;
    let segment = number_of(segment)?;
    let rows = number_of(rows)?;
    let tried = number_of(tried)?;
    let spent = spent_in(left)?;
    Some(Counts {
        seat,
        segment,
        rows,
        tried,
        spent,
    })
}

/// `SEAT SEGMENT REACH ROWS TRIED`, and ` spent` where it is.
fn reported_in(alloc: Global, left: Option<&[u8]>) -> Result<Option<Event>, NoMemory>
    ensures { IfOk result (λ event. event ≡ reported_in (words_left left.entry)) }
{
    let Some((seat, left)) = next_word(left) else {
        return Ok(None)
    };
    let Some((segment, left)) = next_word(left) else {
        return Ok(None)
    };
    let Some((reach, left)) = next_word(left) else {
        return Ok(None)
    };
    let Some((rows, left)) = next_word(left) else {
        return Ok(None)
    };
    let Some((tried, left)) = next_word(left) else {
        return Ok(None)
    };
    let Some(counts) = counts_in(seat, segment, rows, tried, left) else {
        return Ok(None)
    };
    let Counts {
        seat,
        segment,
        rows,
        tried,
        spent,
    } = counts;
    match bound_of(alloc, reach)? {
        Some(reach) => Ok(Some(Event::Report {
            seat,
            segment,
            reach,
            rows,
            tried,
            spent,
        })),
        None => Ok(None),
    }
}

fn drained_in(left: Option<&[u8]>) -> Option<Event>
    ensures { result ≡ drained_in (words_left left.entry) }
{
    let (rows, left) = next_word(left)?;
    let None = next_word(left) else { return None };
    let rows = number_of(rows)?;
    Some(Event::Drain { rows })
}

/// A mark, which isn't written where it is empty.
fn stopped_in(alloc: Global, left: Option<&[u8]>) -> Result<Option<Event>, NoMemory>
    ensures { IfOk result (λ event. event ≡ stopped_in (words_left left.entry)) }
{
    let Some((mark, left)) = next_word(left) else {
        return Ok(Some(Event::StopAt {
            mark: Cut::empty(alloc),
        }));
    };
    let None = next_word(left) else {
        return Ok(None)
    };
    match cut_of(alloc, mark)? {
        Some(mark) => Ok(Some(Event::StopAt { mark })),
        None => Ok(None),
    }
}

fn looked_in(left: Option<&[u8]>) -> Option<Event>
    ensures { result ≡ looked_in (words_left left.entry) }
{
    let (seat, left) = next_word(left)?;
    let None = next_word(left) else { return None };
    let seat = seat_of(seat)?;
    Some(Event::Look { seat })
}

/// The event of this word and those that are left.
fn event_by(alloc: Global, word: &[u8], left: Option<&[u8]>) -> Result<Option<Event>, NoMemory>
    ensures { IfOk result (λ event. event ≡ event_by word.now (words_left left.entry)) }
{
    if word == b"take".as_slice() {
        return Ok(taken_in(left));
    }
    if word == b"steal".as_slice() {
        return stolen_in(alloc, left);
    }
    if word == b"report".as_slice() {
        return reported_in(alloc, left);
    }
    if word == b"giveup".as_slice() {
        return Ok(given_up_in(left));
    }
    if word == b"drain".as_slice() {
        return Ok(drained_in(left));
    }
    if word == b"stop".as_slice() {
        return stopped_in(alloc, left);
    }
    if word == b"look".as_slice() {
        return Ok(looked_in(left));
    }
    Ok(None)
}

/// The event whose line this is.
pub(crate) fn event_in(alloc: Global, line: &[u8]) -> Result<Option<Event>, NoMemory>
    ensures { IfOk result (λ event. event ≡ event_in line.now) }
{
    match next_word(Some(line)) {
        Some((word, left)) => event_by(alloc, word, left),
        None => Ok(None),
    }
}
