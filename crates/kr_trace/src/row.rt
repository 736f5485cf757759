// A row of a listing, read from its line.
ghost use Rattle.std.specs.Prelude.{◌≡◌, IfOk};
ghost use Rattle.kr_trace.specs.Words.{are_more, is_failure, is_kind, is_numbered, rest_passes, row_in, verdict_by};
ghost use Rattle.kr_trace.specs.Reading.{words_left};

use crate::words::{next_word, seat_of};
use kr_base::{Cut, NoMemory};
use kr_text::{cut_of, part_at};
use std::alloc::Global;

/// A row's key, and whether its verdict is a pass. A row without a verdict passes.
#[derive(Drop)]
pub struct Row {
    pub key: Cut,
    pub passes: bool,
}

fn are_more(left: Option<&[u8]>) -> bool
    ensures { result ≡ are_more (words_left left.entry) }
{
    match next_word(left) {
        None => false,
        Some(_) => true,
    }
}

/// A number from 1 on, and another word.
fn is_numbered(left: Option<&[u8]>) -> bool
    ensures { result ≡ is_numbered (words_left left.entry) }
{
    let Some((number, left)) = next_word(left) else {
        return false
    };
    seat_of(number).is_some() && number != b"0".as_slice() && are_more(left)
}

/// A kind's name, and another word.
fn is_kind(left: Option<&[u8]>) -> bool
    ensures { result ≡ is_kind (words_left left.entry) }
{
    let Some((kind, left)) = next_word(left) else {
        return false
    };
    !kind.is_empty() && are_more(left)
}

fn is_failure(word: &[u8], left: Option<&[u8]>) -> bool
    ensures { result ≡ is_failure word.now (words_left left.entry) }
{
    if word == b"repOk".as_slice() || word == b"spent".as_slice() {
        return are_more(left);
    }
    if word == b"ensures".as_slice() || word == b"signals".as_slice() {
        return is_numbered(left);
    }
    if word == b"trap".as_slice() || word == b"check-trap".as_slice() {
        return is_kind(left);
    }
    false
}

fn verdict_by(word: &[u8], left: Option<&[u8]>) -> Option<bool>
    ensures { result ≡ verdict_by word.now (words_left left.entry) }
{
    if word == b"pass".as_slice() {
        return if are_more(left) { Some(true) } else { None };
    }
    if is_failure(word, left) {
        Some(false)
    } else {
        None
    }
}

/// Of a test, whether its verdict is a pass; none where there is no verdict.
fn rest_passes(tests: bool, rest: &[u8]) -> Option<bool>
    ensures { result ≡ rest_passes tests rest.now }
{
    if !tests {
        return Some(true);
    }
    let (word, left) = next_word(Some(rest))?;
    verdict_by(word, left)
}

/// `KEY REST`, the rest not empty.
pub(crate) fn row_in(alloc: Global, tests: bool, line: &[u8]) -> Result<Option<Row>, NoMemory>
    ensures { IfOk result (λ row. row ≡ row_in tests line.now) }
{
    let (word, rest) = part_at(b' ', line);
    if rest.is_empty() {
        return Ok(None);
    }
    let Some(passes) = rest_passes(tests, rest) else {
        return Ok(None)
    };
    match cut_of(alloc, word)? {
        Some(key) => Ok(Some(Row { key, passes })),
        None => Ok(None),
    }
}
