// What the words of a line say.
ghost use Rattle.std.specs.Prelude.{◌≡◌, Some, None, IfOk};
ghost use Rattle.std.specs.List.{after_first, before_first};
ghost use Rattle.kr_shard.specs.Shards.{ending_of, from_of, key_in, row_key, span_in, span_of, tried_of, whole_ending};

use itoa::Buffer;
use kr_base::{Bound, Cut, NoMemory, Span};
use kr_text::{after_front, bound_of, cut_of, number_of, part_at};
use std::alloc::Global;

/// The number of entries tried, or the key of a spent one.
#[derive(Drop)]
pub(crate) struct Ending {
    pub(crate) tried: u64,
    pub(crate) spent: Option<Cut>,
}

fn from_of(alloc: Global, word: &[u8]) -> Result<Option<Cut>, NoMemory>
    ensures { IfOk result (λ cut. cut ≡ from_of word.now) }
{
    if word == b"start".as_slice() {
        return Ok(Some(Cut::empty(alloc)));
    }
    cut_of(alloc, word)
}

fn span_in(alloc: Global, words: &[u8]) -> Result<Option<Span>, NoMemory>
    ensures { IfOk result (λ span. span ≡ span_in words.now) }
{
    let (from, to) = part_at(b' ', words);
    let Some(after) = from_of(alloc, from)? else {
        return Ok(None);
    };
    let Some(upto) = bound_of(alloc, to)? else {
        return Ok(None);
    };
    if !upto.is_above_cut(&after) {
        return Ok(None);
    }
    Ok(Some(Span { after, upto }))
}

/// The span of a first line.
pub(crate) fn span_of(alloc: Global, line: &[u8]) -> Result<Option<Span>, NoMemory>
    ensures { IfOk result (λ span. span ≡ span_of line.now) }
{
    match after_front(b"shard ", line) {
        Some(words) => span_in(alloc, words),
        None => Ok(None),
    }
}

/// The key above a cut and not above a bound that a text is.
fn key_in(alloc: Global, upto: &Bound, last: &Cut, text: &[u8]) -> Result<Option<Cut>, NoMemory>
    ensures { IfOk result (λ key. key ≡ key_in upto.now last.now text.now) }
{
    let Some(key) = cut_of(alloc, text)? else {
        return Ok(None);
    };
    if key.is_within(last, upto) {
        Ok(Some(key))
    } else {
        Ok(None)
    }
}

/// The key of a row.
pub(crate) fn row_key(
    alloc: Global,
    upto: &Bound,
    last: &Cut,
    line: &[u8],
) -> Result<Option<Cut>, NoMemory>
    ensures { IfOk result (λ key. key ≡ row_key upto.now last.now line.now) }
{
    let (word, rest) = part_at(b' ', line);
    if rest.is_empty() {
        return Ok(None);
    }
    key_in(alloc, upto, last, word)
}

fn tried_of(count: u64, text: &[u8]) -> Option<Ending>
    ensures { result ≡ tried_of count text.now }
{
    let Some(tried) = number_of(text) else {
        return None;
    };
    if count <= tried {
        Some(Ending { tried, spent: None })
    } else {
        None
    }
}

fn whole_ending(count: u64, line: &[u8]) -> Option<Ending>
    ensures { result ≡ whole_ending count line.now }
{
    let mut buffer = Buffer::new();
    let number = buffer.format(count).as_bytes();
    let rest = after_front(b"valid ", line)?;
    let rest = after_front(number, rest)?;
    let rest = after_front(b" tried ", rest)?;
    tried_of(count, rest)
}

/// What a last line says, after so many rows and the last one's key.
pub(crate) fn ending_of(
    alloc: Global,
    upto: &Bound,
    last: &Cut,
    count: u64,
    line: &[u8],
) -> Result<Option<Ending>, NoMemory>
    ensures { IfOk result (λ ending. ending ≡ ending_of upto.now last.now count line.now) }
{
    let Some(text) = after_front(b"spent ", line) else {
        return Ok(whole_ending(count, line));
    };
    match key_in(alloc, upto, last, text)? {
        Some(key) => Ok(Some(Ending {
            tried: 0,
            spent: Some(key),
        })),
        None => Ok(None),
    }
}
