// Contract lines: the word they begin with, and whether they are well formed.
ghost use Rattle.std.specs.Prelude.{◌≡◌, ◌↔◌, ◌≤◌, IsTrue, IfNone, IfSome, true, false, length};
ghost use Rattle.kr_lex.specs.ContractLines.{contract_spelling, code_of, last_solid, has_block, BeginsContract};
ghost use Rattle.kr_lex.specs.Pieces.{IsBlankLength, IsWordOf, IsWordAt, BeginsNoWord, IsClear, IsHead, IsNoContract, IsContractTokenAt};
ghost use Rattle.kr_lex.specs.Broken.{BeginsNoContractToken};

use crate::Kind;
use crate::characters::{is_line_end, is_white};
use crate::words::part_len;

/// The start of a contract line: its word, and where the word begins and ends.
#[derive(Clone, Copy)]
pub(crate) struct Head {
    pub(crate) kind: Kind,
    pub(crate) word: usize,
    pub(crate) end: usize,
}

/// A well-formed contract line: its start, and the index up to which the source has no `/*` within a line.
#[derive(Clone, Copy)]
pub(crate) struct Line {
    pub(crate) head: Head,
    pub(crate) clear: usize,
}

/// The spelling of a kind that occurs only in contract lines; empty for all others.
#[tactic(auto, unfolding(crate::specs::ContractLines::contract_spelling))]
pub(crate) fn contract_spelling(kind: Kind) -> &'static [u8]
    ensures { result.now ≡ contract_spelling kind }
{
    match kind {
        Kind::Contract => b"//@",
        Kind::Requires => b"requires",
        Kind::Ensures => b"ensures",
        Kind::Signals => b"signals",
        Kind::Result => b"\\result",
        Kind::Old => b"\\old",
        _ => b"",
    }
}

/// The contract line at `//@`, if it is well formed and has no `/*`.
pub(crate) fn contract_head(text: &[u8]) -> Option<Head>
    requires begins { BeginsContract text.now }
    requires clear { has_block text.now ≡ false }
    ensures found { IfSome result (IsHead text.now) }
    ensures none { IfNone result (IsNoContract text.now) }
{
    let word = 3 + blank_len(&text[3..]);
    match contract_word(&text[word..]) {
        Some(kind) => {
            let end = word + contract_spelling(kind).len();
            if is_closed(&text[end..]) {
                Some(Head { kind, word, end })
            } else {
                None
            }
        }
        None => None,
    }
}

/// The length of the white space within the line.
fn blank_len(text: &[u8]) -> usize
    ensures { IsBlankLength text.now result }
{
    let mut len = 0;
    for b in text {
        if !is_white(*b) || is_line_end(*b) {
            return len;
        }
        len += 1;
    }
    len
}

/// The contract word at the front.
fn contract_word(text: &[u8]) -> Option<Kind>
    ensures found { IfSome result (IsWordAt text.now) }
    ensures none { IfNone result (BeginsNoWord text.now) }
{
    if is_word(text, Kind::Requires) {
        Some(Kind::Requires)
    } else if is_word(text, Kind::Ensures) {
        Some(Kind::Ensures)
    } else if is_word(text, Kind::Signals) {
        Some(Kind::Signals)
    } else {
        None
    }
}

/// Whether the text begins with this word, as a whole word.
fn is_word(text: &[u8], kind: Kind) -> bool
    ensures { IsTrue result ↔ IsWordOf text.now kind }
{
    let word = contract_spelling(kind);
    if !text.starts_with(word) {
        return false;
    }
    part_len(&text[word.len()..]) == 0
}

/// Whether the line's last character before its end or `//` is a semicolon.
fn is_closed(text: &[u8]) -> bool
    ensures { IsTrue result ↔ last_solid 0 (code_of text.now) ≡ 59 }
{
    let mut last = 0;
    for (at, b) in text.iter().enumerate() {
        if is_line_end(*b) || text[at..].starts_with(b"//") {
            return last == b';';
        }
        if !is_white(*b) {
            last = *b;
        }
    }
    last == b';'
}

/// The length of the text up to the line's end, unless a `/*` comes before it.
pub(crate) fn clear_len(text: &[u8]) -> Option<usize>
    ensures within { IfSome result (λ len. len ≤ length text.now) }
    ensures found { IfSome result (IsClear text.now) }
    ensures none { IfNone result (has_block text.now ≡ true) }
{
    for (at, b) in text.iter().enumerate() {
        if is_line_end(*b) {
            return Some(at);
        }
        if text[at..].starts_with(b"/*") {
            return None;
        }
    }
    Some(text.len())
}

/// The token at the front, if it is one that only contract lines have, and this is one.
pub(crate) fn contract_token(text: &[u8], inside: bool) -> Option<Kind>
    ensures inside { IfSome result (λ kind. inside ≡ true) }
    ensures found { IfSome result (IsContractTokenAt text.now) }
    ensures none { IfNone result (BeginsNoContractToken inside text.now) }
{
    if !inside {
        None
    } else if text.starts_with(contract_spelling(Kind::Result)) {
        Some(Kind::Result)
    } else if text.starts_with(contract_spelling(Kind::Old)) {
        Some(Kind::Old)
    } else {
        None
    }
}
