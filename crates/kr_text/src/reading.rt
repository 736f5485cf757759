// Cuts and numbers read from their texts.
ghost use Rattle.std.specs.Prelude.{◌≡◌, IfOk};
ghost use Rattle.kr_base.specs.Parsing.{cut_of};
ghost use Rattle.kr_text.specs.Splitting.{bound_of, number_of};

use itoa::Buffer;
use kr_base::{Bound, Cut, CutRefusal, NoMemory};
use std::alloc::Global;
use std::str;

/// The cut that a text is.
pub fn cut_of(alloc: Global, text: &[u8]) -> Result<Option<Cut>, NoMemory>
    ensures { IfOk result (λ cut. cut ≡ cut_of text.now) }
{
    let Ok(text) = str::from_utf8(text) else {
        return Ok(None);
    };
    match Cut::parse(alloc, text) {
        Ok(cut) => Ok(Some(cut)),
        Err(CutRefusal::NoMemory(why)) => Err(why),
        Err(CutRefusal::Malformed(_)) => Ok(None),
        Err(CutRefusal::TooLong(_)) => Ok(None),
    }
}

/// The bound that a text is: `end`, or a cut.
pub fn bound_of(alloc: Global, text: &[u8]) -> Result<Option<Bound>, NoMemory>
    ensures { IfOk result (λ bound. bound ≡ bound_of text.now) }
{
    if text == b"end".as_slice() {
        return Ok(Some(Bound::End));
    }
    match cut_of(alloc, text)? {
        Some(cut) => Ok(Some(Bound::At(cut))),
        None => Ok(None),
    }
}

/// The number that a text is.
pub fn number_of(text: &[u8]) -> Option<u64>
    ensures { result ≡ number_of text.now }
{
    let Ok(text) = str::from_utf8(text) else {
        return None;
    };
    let Ok(number) = text.parse::<u64>() else {
        return None;
    };
    let mut buffer = Buffer::new();
    if buffer.format(number) == text {
        Some(number)
    } else {
        None
    }
}
