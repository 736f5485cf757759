// Names and numbers at the front of a text.
ghost use Rattle.std.specs.Prelude.{◌≡◌, ◌≤◌, ◌<◌, ◌↔◌, IsTrue, length};
ghost use Rattle.kr_lex.specs.Lexemes.{number_value, long_number_value};
ghost use Rattle.kr_lex.specs.Words.{IsNumber, IsNumberTo, IsLongNumber, IsSuffix};
ghost use Rattle.kr_lex.specs.Pieces.{IsPartLength, IsWordLength};

use crate::characters::is_part;

/// The length of the character at the front if a name may continue with it, else 0.
pub(crate) fn part_len(text: &[u8]) -> usize
    ensures { IsPartLength text.now result }
{
    if text.is_empty() {
        return 0;
    }
    let first = text[0];
    if first < 128 {
        return if is_part(first as char) { 1 } else { 0 };
    }
    match bstr::decode_utf8(text) {
        (Some(c), size) => { if is_part(c) { size } else { 0 } }
        (None, _) => 0,
    }
}

/// The length of the longest run of characters at the front that can continue a name.
pub(crate) fn word_len(text: &[u8]) -> usize
    ensures { IsWordLength text.now result }
{
    let mut len = 0;
    while len < text.len() {
        let more = part_len(&text[len..]);
        if more == 0 {
            return len;
        }
        len += more;
    }
    len
}

/// Whether the bytes are a number.
pub(crate) fn is_number(word: &[u8]) -> bool
    ensures { IsTrue result ↔ IsNumber word.now }
{
    is_number_to(word, 2147483648)
}

/// Whether the bytes are a number with the suffix of `long`.
pub(crate) fn is_long_number(word: &[u8]) -> bool
    ensures { IsTrue result ↔ IsLongNumber word.now }
{
    if word.is_empty() {
        return false;
    }
    let last = word.len() - 1;
    if !is_suffix(word[last]) {
        return false;
    }
    is_number_to(&word[..last], 9223372036854775808)
}

/// Whether the byte is `L` or `l`.
fn is_suffix(b: u8) -> bool
    ensures { IsTrue result ↔ IsSuffix b }
{
    b == b'L' || b == b'l'
}

/// Whether the bytes are a number up to a limit.
fn is_number_to(word: &[u8], limit: u64) -> bool
    requires { limit ≤ 9223372036854775808 }
    ensures { IsTrue result ↔ IsNumberTo limit word.now }
{
    if word.is_empty() || (word[0] == b'0' && word.len() > 1) {
        return false;
    }
    let mut value: u64 = 0;
    for b in word {
        if !b.is_ascii_digit() {
            return false;
        }
        if value > 922337203685477580 {
            return false;
        }
        value = 10 * value + (*b - b'0') as u64;
        if value > limit {
            return false;
        }
    }
    true
}

/// The value of a number.
pub(crate) fn number_value(word: &[u8]) -> u32
    requires { IsNumber word.now }
    ensures { result ≡ number_value word.now }
{
    digits_value(word) as u32
}

/// The value of a number with a suffix.
pub(crate) fn long_number_value(word: &[u8]) -> u64
    requires { IsLongNumber word.now }
    ensures value { result ≡ long_number_value word.now }
    ensures small { result ≤ 9223372036854775808 }
{
    digits_value(&word[..word.len() - 1])
}

/// The value of digits.
fn digits_value(word: &[u8]) -> u64
    requires { IsNumberTo 9223372036854775808 word.now }
    ensures { result ≡ number_value word.now }
{
    let mut value = 0;
    for b in word {
        value = 10 * value + (*b - b'0') as u64;
    }
    value
}
