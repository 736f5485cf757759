// The words of a line.
ghost use Rattle.std.specs.Prelude.{◌≡◌, ◌∷◌, [], MatchOption};
ghost use Rattle.kr_trace.specs.Words.{held_in, seat_of};
ghost use Rattle.kr_trace.specs.Reading.{words_left};

use kr_text::number_of;

/// The first of the words that are left, and the others. Where some are left, they are parted by one space each.
pub(crate) fn next_word<'a>(left: Option<&'a [u8]>) -> Option<(&'a [u8], Option<&'a [u8]>)>
    ensures { MatchOption result (words_left left.entry ≡ []) (λ p. words_left left.entry ≡ p.0.now ∷ words_left p.1) }
{
    let text = left?;
    for at in 0..text.len() {
        if text[at] == b' ' {
            return Some((&text[..at], Some(&text[at + 1..])));
        }
    }
    Some((text, None))
}

/// The seat whose number a word is.
pub(crate) fn seat_of(word: &[u8]) -> Option<u32>
    ensures { result ≡ seat_of word.now }
{
    let number = number_of(word)?;
    if number < 4294967296 {
        Some(number as u32)
    } else {
        None
    }
}

/// A seat and a segment.
#[derive(Clone, Copy)]
pub struct Held {
    pub seat: u32,
    pub segment: u64,
}

/// `SEAT SEGMENT`
pub(crate) fn held_in(left: Option<&[u8]>) -> Option<Held>
    ensures { result ≡ held_in (words_left left.entry) }
{
    let (seat, left) = next_word(left)?;
    let (segment, left) = next_word(left)?;
    let None = next_word(left) else { return None };
    let seat = seat_of(seat)?;
    let segment = number_of(segment)?;
    Some(Held { seat, segment })
}
