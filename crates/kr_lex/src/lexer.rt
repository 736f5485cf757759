// The lexer: reads a source once, piece by piece.
ghost use Rattle.std.specs.Prelude.{◌≡◌, ◌+◌, ◌<◌, ◌≤◌, ◌^◌, ◌∷◌, ◌++◌, true, [], length, drop, IfErr, IfOk, IfNone, IfSome};
ghost use Rattle.kr_lex.specs.Spells.{AreTokens};
ghost use Rattle.kr_lex.specs.Broken.{IsCause};
ghost use Rattle.kr_lex.specs.ContractLines.{has_block, BeginsContract};
ghost use Rattle.kr_lex.specs.Cursors.{Stands};
ghost use Rattle.kr_lex.specs.Pieces.{IsHead, IsNoContract};
ghost use Rattle.kr_lex.specs.Reading.{IsValidLength, IsClearBetween, IsReading, IsPassed, IsPast, ArePushed};

use crate::contract::{Head, Line, clear_len, contract_head};
use crate::cursor::Cursor;
use crate::piece::{Piece, begins_contract, first_piece};
use crate::progress::Progress;
use crate::token::{Token, Tokens};
use crate::{Kind, LexRefusal, LexRule};
use kr_base::NoMemory;
use std::alloc::Global;
use std::str;

/// Splits a source, the bytes of the file of that number, into tokens.
///
/// Needs at most 21 bytes of memory for each byte of the source.
pub fn lex(alloc: Global, file: u32, bytes: &[u8]) -> Result<Tokens, LexRefusal>
    requires file { file < 64 }
    requires room { length bytes.now < 2 ^ 30 }
    ensures tokens { IfOk result (AreTokens file bytes.now) }
    ensures refused { IfErr result (IsCause file bytes.now) }
{
    let valid = valid_len(bytes);
    let mut items = room_for(alloc, bytes)?;
    let progress = read_all(&mut items, file, bytes, valid)?;
    let source = copy_of(alloc, bytes)?;
    Ok(Tokens::new(source, items, progress.cursor.place(file)))
}

/// An empty list with room for one entry a byte.
fn room_for(alloc: Global, bytes: &[u8]) -> Result<Vec<Token>, NoMemory>
    ensures { IfOk result (λ items. items.items ≡ []) }
{
    Ok(Vec::with_capacity(alloc, bytes.len())?)
}

fn copy_of(alloc: Global, bytes: &[u8]) -> Result<Vec<u8>, NoMemory>
    ensures { IfOk result (λ source. source.items ≡ bytes.now) }
{
    Ok(Vec::from_slice(alloc, bytes)?)
}

fn add(items: &mut Vec<Token>, token: Token) -> Result<(), NoMemory>
    ensures { IfOk result (λ _. items.new.items ≡ items.old.items ++ token ∷ []) }
{
    items.push(token)?;
    Ok(())
}

/// The length of the longest prefix that is UTF-8.
fn valid_len(bytes: &[u8]) -> usize
    ensures { IsValidLength bytes.now result }
{
    match str::from_utf8(bytes) {
        Ok(_) => bytes.len(),
        Err(error) => error.valid_up_to(),
    }
}

/// Reads all pieces of the UTF-8 prefix.
fn read_all(
    items: &mut Vec<Token>,
    file: u32,
    bytes: &[u8],
    valid: usize,
) -> Result<Progress, LexRefusal>
    requires room { length bytes.now < 2 ^ 30 }
    requires valid { IsValidLength bytes.now valid }
    requires empty { items.old.items ≡ [] }
    ensures read { IfOk result (IsReading file bytes.now valid items.new.items) }
    ensures whole { IfOk result (λ progress. progress.cursor.at ≡ length bytes.now) }
    ensures refused { IfErr result (IsCause file bytes.now) }
{
    let mut progress = Progress::start();
    while progress.cursor.at < valid {
        progress = read_piece(items, file, bytes, valid, progress)?;
    }
    if valid < bytes.len() {
        return Err(LexRefusal::Broken {
            place: progress.cursor.place(file),
            rule: LexRule::NotUtf8,
        });
    }
    Ok(progress)
}

/// Reads one piece, or the start of a contract line.
fn read_piece(
    items: &mut Vec<Token>,
    file: u32,
    bytes: &[u8],
    valid: usize,
    progress: Progress,
) -> Result<Progress, LexRefusal>
    requires room { length bytes.now < 2 ^ 30 }
    requires valid { IsValidLength bytes.now valid }
    requires reading { IsReading file bytes.now valid items.old.items progress }
    requires more { progress.cursor.at < valid }
    ensures read { IfOk result (IsReading file bytes.now valid items.new.items) }
    ensures onward { IfOk result (λ next. progress.cursor.at < next.cursor.at) }
    ensures refused { IfErr result (IsCause file bytes.now) }
{
    if begins_contract(&bytes[progress.cursor.at..]) {
        read_contract(items, file, bytes, valid, progress)
    } else {
        read_plain(items, file, bytes, valid, progress)
    }
}

/// Reads a gap or a token.
fn read_plain(
    items: &mut Vec<Token>,
    file: u32,
    bytes: &[u8],
    valid: usize,
    progress: Progress,
) -> Result<Progress, LexRefusal>
    requires room { length bytes.now < 2 ^ 30 }
    requires valid { IsValidLength bytes.now valid }
    requires reading { IsReading file bytes.now valid items.old.items progress }
    requires more { progress.cursor.at < valid }
    requires no_contract { BeginsContract (drop progress.cursor.at bytes.now) → ⊥ }
    ensures read { IfOk result (IsReading file bytes.now valid items.new.items) }
    ensures onward { IfOk result (λ next. progress.cursor.at < next.cursor.at) }
    ensures refused { IfErr result (IsCause file bytes.now) }
{
    let cursor = progress.cursor;
    match first_piece(&bytes[cursor.at..], progress.inside) {
        Piece::Broken(rule) => Err(LexRefusal::Broken {
            place: cursor.place(file),
            rule,
        }),
        Piece::Gap(len) => {
            let behind = progress.behind_gap(bytes[cursor.at]);
            pass(file, bytes, valid, behind, len)
        }
        Piece::Token(kind, len) => {
            add(items, Token::new(cursor, kind, len))?;
            pass(file, bytes, valid, progress, len)
        }
    }
}

/// Reads the mark and the word of a contract line.
fn read_contract(
    items: &mut Vec<Token>,
    file: u32,
    bytes: &[u8],
    valid: usize,
    progress: Progress,
) -> Result<Progress, LexRefusal>
    requires room { length bytes.now < 2 ^ 30 }
    requires valid { IsValidLength bytes.now valid }
    requires reading { IsReading file bytes.now valid items.old.items progress }
    requires more { progress.cursor.at < valid }
    requires contract { BeginsContract (drop progress.cursor.at bytes.now) }
    ensures read { IfOk result (IsReading file bytes.now valid items.new.items) }
    ensures onward { IfOk result (λ next. progress.cursor.at < next.cursor.at) }
    ensures refused { IfErr result (IsCause file bytes.now) }
{
    match well_formed(bytes, progress) {
        Some(line) => {
            push_head(items, bytes, progress.cursor, line.head)?;
            let behind = Progress {
                cursor: progress.cursor,
                inside: true,
                clear: line.clear,
            };
            pass(file, bytes, valid, behind, line.head.end)
        }
        None => {
            let at_mark = progress.cursor;
            Err(LexRefusal::Broken {
                place: at_mark.place(file),
                rule: LexRule::ContractLine,
            })
        }
    }
}

/// The contract line at `//@`, if it is well formed.
fn well_formed(bytes: &[u8], progress: Progress) -> Option<Line>
    requires stands { progress.cursor.at ≤ length bytes.now }
    requires room { length bytes.now < 2 ^ 30 }
    requires clear { IsClearBetween bytes.now progress.cursor.at progress.clear }
    requires contract { BeginsContract (drop progress.cursor.at bytes.now) }
    ensures found { IfSome result (λ line. IsHead (drop progress.cursor.at bytes.now) line.head) }
    ensures clear { IfSome result (λ line. IsClearBetween bytes.now progress.cursor.at line.clear) }
    ensures none { IfNone result (IsNoContract (drop progress.cursor.at bytes.now)) }
{
    match clear_from(bytes, progress) {
        Some(clear) => match contract_head(&bytes[progress.cursor.at..]) {
            Some(head) => Some(Line { head, clear }),
            None => None,
        },
        None => None,
    }
}

/// The index up to which the source has no `/*` within a line, unless this line has one.
fn clear_from(bytes: &[u8], progress: Progress) -> Option<usize>
    requires stands { progress.cursor.at ≤ length bytes.now }
    requires room { length bytes.now < 2 ^ 30 }
    requires clear { IsClearBetween bytes.now progress.cursor.at progress.clear }
    ensures onward { IfSome result (λ clear. progress.cursor.at < clear) }
    ensures clear { IfSome result (IsClearBetween bytes.now progress.cursor.at) }
    ensures none { IfNone result (has_block (drop progress.cursor.at bytes.now) ≡ true) }
{
    let at = progress.cursor.at;
    if at < progress.clear {
        return Some(progress.clear);
    }
    match clear_len(&bytes[at..]) {
        Some(len) => Some(at + len + 1),
        None => None,
    }
}

/// Adds the mark and the word of a contract line.
fn push_head(
    items: &mut Vec<Token>,
    bytes: &[u8],
    cursor: Cursor,
    head: Head,
) -> Result<(), NoMemory>
    requires room { length bytes.now < 2 ^ 30 }
    requires stands { Stands bytes.now cursor }
    requires head { IsHead (drop cursor.at bytes.now) head }
    ensures pushed { IfOk result (λ _. ArePushed bytes.now cursor head items.old.items items.new.items) }
{
    items.push(Token::new(cursor, Kind::Contract, 3))?;
    let word = cursor.advance(bytes, cursor.at + head.word);
    items.push(Token::new(word, head.kind, head.end - head.word))?;
    Ok(())
}

/// Steps over a piece, unless it extends past the UTF-8 prefix.
fn pass(
    file: u32,
    bytes: &[u8],
    valid: usize,
    progress: Progress,
    len: usize,
) -> Result<Progress, LexRefusal>
    requires room { length bytes.now < 2 ^ 30 }
    requires valid { valid ≤ length bytes.now }
    requires stands { Stands bytes.now progress.cursor }
    requires before { progress.cursor.at ≤ valid }
    ensures passed { IfOk result (IsPassed bytes.now valid progress len) }
    ensures past { IfErr result (IsPast file bytes.now valid (progress.cursor.at + len)) }
{
    let cursor = progress.cursor;
    if len > valid - cursor.at {
        let end = cursor.advance(bytes, valid);
        return Err(LexRefusal::Broken {
            place: end.place(file),
            rule: LexRule::NotUtf8,
        });
    }
    Ok(Progress {
        cursor: cursor.advance(bytes, cursor.at + len),
        inside: progress.inside,
        clear: progress.clear,
    })
}
