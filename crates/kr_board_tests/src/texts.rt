// Values against their texts in a table, word by word. Numbers of a cut are joined by dots, `.` is the empty cut. It takes
// no memory. Each `after_` answers what is left of a text whose front is a value.

use kr_base::{Bound, Cut};
use kr_core::{Lease, Segment};

/// The text up to a separator, and what is after it.
fn parted(text: &str, separator: char) -> (&str, &str) {
    match text.split_once(separator) {
        Some((first, rest)) => (first, rest),
        None => (text, ""),
    }
}

/// Whether nothing is left.
pub(crate) fn ends(rest: Option<&str>) -> bool {
    match rest {
        Some(text) => text.is_empty(),
        None => false,
    }
}

pub(crate) fn after_word<'a>(text: &'a str, wanted: &str) -> Option<&'a str> {
    let (word, rest) = parted(text, ' ');
    if word == wanted { Some(rest) } else { None }
}

fn is_number(word: &str, number: u64) -> bool {
    match word.parse::<u64>() {
        Ok(told) => told == number,
        Err(_) => false,
    }
}

pub(crate) fn after_number(text: &str, number: u64) -> Option<&str> {
    let (word, rest) = parted(text, ' ');
    if is_number(word, number) {
        Some(rest)
    } else {
        None
    }
}

/// Whether a text is that of a cut.
pub(crate) fn is_cut(cut: &Cut, text: &str) -> bool {
    if text == "." {
        return cut.numbers().is_empty();
    }
    let mut text = text;
    for number in cut.numbers() {
        let (word, rest) = parted(text, '.');
        if !is_number(word, u64::from(*number)) {
            return false;
        }
        text = rest;
    }
    text.is_empty()
}

pub(crate) fn after_cut<'a>(text: &'a str, cut: &Cut) -> Option<&'a str> {
    let (word, rest) = parted(text, ' ');
    if is_cut(cut, word) { Some(rest) } else { None }
}

/// A bound is the text of its cut, or `end`.
pub(crate) fn after_bound<'a>(text: &'a str, bound: &Bound) -> Option<&'a str> {
    match bound {
        Bound::At(cut) => after_cut(text, cut),
        Bound::End => after_word(text, "end"),
    }
}

/// An owner is the text of its seat, or `-`.
fn after_owner(text: &str, owner: Option<u32>) -> Option<&str> {
    match owner {
        None => after_word(text, "-"),
        Some(seat) => after_number(text, u64::from(seat)),
    }
}

/// `SEAT SEGMENT MARK UPTO`
fn after_lease<'a>(text: &'a str, lease: &Lease) -> Option<&'a str> {
    let text = after_number(text, u64::from(lease.seat))?;
    let text = after_number(text, lease.segment)?;
    let text = after_cut(text, &lease.mark)?;
    after_bound(text, &lease.upto)
}

/// Whether a text is that of a lease of a kind.
pub(crate) fn is_lease(lease: &Lease, kind: &str, text: &str) -> bool {
    match after_word(text, kind) {
        Some(text) => ends(after_lease(text, lease)),
        None => false,
    }
}

/// `; NUMBER OWNER AFTER MARK UPTO ROWS TRIED`
fn after_segment<'a>(text: &'a str, segment: &Segment) -> Option<&'a str> {
    let text = after_word(text, ";")?;
    let text = after_number(text, segment.number)?;
    let text = after_owner(text, segment.owner)?;
    let text = after_bound(text, &segment.after)?;
    let text = after_bound(text, &segment.mark)?;
    let text = after_bound(text, &segment.upto)?;
    let text = after_number(text, segment.rows)?;
    after_number(text, segment.tried)
}

/// Whether a text is that of segments, one after another.
pub(crate) fn are_segments(segments: &[Segment], text: &str) -> bool {
    let mut text = text;
    for segment in segments {
        match after_segment(text, segment) {
            Some(rest) => text = rest,
            None => return false,
        }
    }
    text.is_empty()
}
