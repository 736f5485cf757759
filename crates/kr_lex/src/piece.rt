// The piece at the front of a text: a gap, a token, or the rule that it breaks.
ghost use Rattle.std.specs.Prelude.{◌≡◌, ◌<◌, ◌↔◌, IsTrue, true, false, length, slice_index};
ghost use Rattle.std.specs.Char.{is_ascii_digit};
ghost use Rattle.kr_lex.specs.Broken.{BeginsEscape};
ghost use Rattle.kr_lex.specs.ContractLines.{BeginsContract};
ghost use Rattle.kr_lex.specs.Pieces.{IsPiece, BeginsCharacter, StartsName, IsSymbolic};

use crate::characters::{is_start, is_white};
use crate::contract::{contract_spelling, contract_token};
use crate::fixed::{fixed_word, longest_fixed};
use crate::gaps::{body_len, line_len};
use crate::table::spelling;
use crate::words::{is_long_number, is_number, word_len};
use crate::{Kind, LexRule};

/// The piece at the front of a text.
#[derive(Clone, Copy)]
pub(crate) enum Piece {
    /// White space or a comment of this length.
    Gap(usize),
    /// A token of this length.
    Token(Kind, usize),
    Broken(LexRule),
}

/// Whether the text begins with `//@`.
pub(crate) fn begins_contract(text: &[u8]) -> bool
    ensures { IsTrue result ↔ BeginsContract text.now }
{
    text.starts_with(b"//@")
}

/// The piece at the front, inside or outside a contract line, if no contract line begins there.
pub(crate) fn first_piece(text: &[u8], inside: bool) -> Piece
    requires character { BeginsCharacter text.now }
    requires no_contract { BeginsContract text.now → ⊥ }
    ensures { IsPiece inside text.now result }
{
    match contract_token(text, inside) {
        Some(kind) => Piece::Token(kind, contract_spelling(kind).len()),
        None => plain_piece(text),
    }
}

/// The piece at the front outside contract lines, if none begins there.
fn plain_piece(text: &[u8]) -> Piece
    requires character { BeginsCharacter text.now }
    requires no_contract { BeginsContract text.now → ⊥ }
    ensures { IsPiece false text.now result }
{
    let first = text[0];
    if is_white(first) {
        Piece::Gap(1)
    } else if first == b'/' {
        slash(text)
    } else if first.is_ascii_digit() {
        number(text)
    } else if starts_name(text) {
        name(text)
    } else {
        symbol(text)
    }
}

/// The comment or operator at a slash.
fn slash(text: &[u8]) -> Piece
    requires some { 0 < length text.now }
    requires slash { slice_index text.now 0 ≡ 47 }
    requires no_contract { BeginsContract text.now → ⊥ }
    ensures { IsPiece false text.now result }
{
    if text.starts_with(b"//") {
        line_comment(text)
    } else if text.starts_with(b"/*") {
        block_comment(text)
    } else {
        symbol(text)
    }
}

/// A comment up to the line's end.
fn line_comment(text: &[u8]) -> Piece
    requires some { 1 < length text.now }
    requires first { slice_index text.now 0 ≡ 47 }
    requires second { slice_index text.now 1 ≡ 47 }
    requires no_contract { BeginsContract text.now → ⊥ }
    ensures { IsPiece false text.now result }
{
    Piece::Gap(2 + line_len(&text[2..]))
}

/// A comment up to the first `*/`.
fn block_comment(text: &[u8]) -> Piece
    requires some { 1 < length text.now }
    requires first { slice_index text.now 0 ≡ 47 }
    requires second { slice_index text.now 1 ≡ 42 }
    ensures { IsPiece false text.now result }
{
    match body_len(&text[2..]) {
        Some(len) => Piece::Gap(len + 4),
        None => Piece::Broken(LexRule::UnclosedComment),
    }
}

/// The number at a digit, extended as far as a name would be.
fn number(text: &[u8]) -> Piece
    requires { is_ascii_digit (slice_index text.now 0) ≡ true }
    ensures { IsPiece false text.now result }
{
    let len = word_len(text);
    if is_number(&text[..len]) {
        Piece::Token(Kind::Number, len)
    } else if is_long_number(&text[..len]) {
        Piece::Token(Kind::LongNumber, len)
    } else {
        Piece::Broken(LexRule::BadNumber)
    }
}

/// Whether the first character starts a name.
fn starts_name(text: &[u8]) -> bool
    requires { BeginsCharacter text.now }
    ensures { IsTrue result ↔ StartsName text.now }
{
    let first = text[0];
    if first < 128 {
        return is_start(first as char);
    }
    match bstr::decode_utf8(text) {
        (Some(c), _) => is_start(c),
        (None, _) => false,
    }
}

/// The name or the word of the language at a character that starts names.
fn name(text: &[u8]) -> Piece
    requires { StartsName text.now }
    ensures { IsPiece false text.now result }
{
    let len = word_len(text);
    match fixed_word(&text[..len]) {
        Some(kind) => Piece::Token(kind, len),
        None => Piece::Token(Kind::Identifier, len),
    }
}

/// The separator or operator at a character that begins no gap, number or name, or the rule that it breaks.
fn symbol(text: &[u8]) -> Piece
    requires { IsSymbolic text.now }
    ensures { IsPiece false text.now result }
{
    match longest_fixed(text) {
        Some(kind) => Piece::Token(kind, spelling(kind).len()),
        None => {
            if begins_escape(text) {
                Piece::Broken(LexRule::UnicodeEscape)
            } else {
                Piece::Broken(LexRule::StrayCharacter)
            }
        }
    }
}

/// Whether the text begins with a backslash and `u`.
fn begins_escape(text: &[u8]) -> bool
    ensures { IsTrue result ↔ BeginsEscape text.now }
{
    text.starts_with(b"\\u")
}
