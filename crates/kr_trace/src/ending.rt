// The last line of a listing.
ghost use Rattle.std.specs.Prelude.{◌≡◌, ◌∷◌, [], IfOk};
ghost use Rattle.kr_base.specs.Bounds.{less};
ghost use Rattle.kr_trace.specs.Words.{counted_in, key_in, last_by, last_in};
ghost use Rattle.kr_trace.specs.Reading.{words_left};

use crate::words::next_word;
use kr_base::{Bound, Cut, NoMemory};
use kr_text::{cut_of, number_of};
use std::alloc::Global;

/// What the last line of a listing says.
#[derive(Drop)]
pub enum Last {
    /// `valid V tried T`
    Listed(u64, u64),
    /// `valid V failing B tried T`
    Tested(u64, u64, u64),
    /// `more KEY`
    More(Cut),
    /// `spent KEY`
    Spent(Cut),
}

/// `V tried T`
fn listed_in(valid: &[u8], word: &[u8], tried: &[u8]) -> Option<Last>
    ensures { result ≡ counted_in (valid.now ∷ word.now ∷ tried.now ∷ []) }
{
    if word != b"tried".as_slice() {
        return None;
    }
    let valid = number_of(valid)?;
    let tried = number_of(tried)?;
    Some(Last::Listed(valid, tried))
}

/// `V failing B tried T`, the last two words being left.
fn tested_in(
    valid: &[u8],
    word: &[u8],
    failing: &[u8],
    other: &[u8],
    left: Option<&[u8]>,
) -> Option<Last>
    ensures { result ≡ counted_in (valid.now ∷ word.now ∷ failing.now ∷ other.now ∷ words_left left.entry) }
{
    let (tried, left) = next_word(left)?;
    let None = next_word(left) else { return None };
    if word != b"failing".as_slice() || other != b"tried".as_slice() {
        return None;
    }
    let valid = number_of(valid)?;
    let failing = number_of(failing)?;
    let tried = number_of(tried)?;
    Some(Last::Tested(valid, failing, tried))
}

/// `V tried T` or `V failing B tried T`
fn counted_in(left: Option<&[u8]>) -> Option<Last>
    ensures { result ≡ counted_in (words_left left.entry) }
{
    let (valid, left) = next_word(left)?;
    let (word, left) = next_word(left)?;
    let (count, left) = next_word(left)?;
    match next_word(left) {
        None => listed_in(valid, word, count),
        Some((other, left)) => tested_in(valid, word, count, other, left),
    }
}

/// `KEY`
fn key_in(alloc: Global, left: Option<&[u8]>) -> Result<Option<Cut>, NoMemory>
    ensures { IfOk result (λ key. key ≡ key_in (words_left left.entry)) }
{
    let Some((key, left)) = next_word(left) else {
        return Ok(None)
    };
    let None = next_word(left) else {
        return Ok(None)
    };
    cut_of(alloc, key)
}

/// The last line of this word and those that are left.
fn last_by(alloc: Global, word: &[u8], left: Option<&[u8]>) -> Result<Option<Last>, NoMemory>
    ensures { IfOk result (λ last. last ≡ last_by (word.now ∷ words_left left.entry)) }
{
    if word == b"valid".as_slice() {
        return Ok(counted_in(left));
    }
    if word == b"more".as_slice() {
        return match key_in(alloc, left)? {
            Some(key) => Ok(Some(Last::More(key))),
            None => Ok(None),
        };
    }
    if word == b"spent".as_slice() {
        return match key_in(alloc, left)? {
            Some(key) => Ok(Some(Last::Spent(key))),
            None => Ok(None),
        };
    }
    Ok(None)
}

/// The last line that this is.
pub(crate) fn last_in(alloc: Global, line: &[u8]) -> Result<Option<Last>, NoMemory>
    ensures { IfOk result (λ last. last ≡ last_in line.now) }
{
    match next_word(Some(line)) {
        Some((word, left)) => last_by(alloc, word, left),
        None => Ok(None),
    }
}

impl Last {
    ghost use Rattle.kr_trace.specs.Checked.{horizon};

    /// Whether a bound is above the horizon: there may be rows up to it that weren't written.
    #[tactic(auto, unfolding(kr_base::specs::Bounds::less))]
    pub(crate) fn is_passed(&self, reach: &Bound) -> bool
        ensures { result ≡ less (horizon self.now) reach.now }
    {
        match self {
            Last::Listed(_, _) => false,
            Last::Tested(_, _, _) => false,
            Last::More(key) => reach.is_above_cut(key),
            Last::Spent(key) => reach.is_above_cut(key),
        }
    }
}
