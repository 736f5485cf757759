// The tokens of a source, as a list with one small entry for each.
ghost use Rattle.std.specs.Prelude.{◌≡◌, ◌+◌, ◌<◌, ◌≤◌, ◌^◌, length};
ghost use Rattle.kr_lex.specs.declared.kind.Kind.TheVariants.{Number, LongNumber};
ghost use Rattle.kr_lex.specs.Lexemes.{lexeme_at, number_value, long_number_value};
ghost use Rattle.kr_lex.specs.Entries.{shown, AreEntries};

use crate::cursor::Cursor;
use crate::{Kind, words};
use kr_base::Place;
use std::marker::Model;

/// A token: its kind, its line and column, and the bytes of the source that spell it.
#[derive(Clone, Copy)]
pub struct Token {
    pub kind: Kind,
    pub line: u32,
    pub col: u32,
    pub start: u32,
    pub end: u32,
}

impl Token {
    pub fn new(cursor: Cursor, kind: Kind, len: usize) -> Token
        requires column { cursor.origin ≤ cursor.at }
        requires room { cursor.at + len < 2 ^ 30 }
        ensures kind { result.kind ≡ kind }
        ensures line { result.line ≡ cursor.line }
        ensures col { result.col + cursor.origin ≡ cursor.at + 1 }
        ensures start { result.start ≡ cursor.at }
        ensures end { result.end ≡ cursor.at + len }
    {
        Token {
            kind,
            line: cursor.line,
            col: (cursor.at + 1 - cursor.origin) as u32,
            start: cursor.at as u32,
            end: (cursor.at + len) as u32,
        }
    }
}

/// The tokens of a source. Contracts see the list of them, each with spelling and place, and the place after the last
/// character.
#[derive(Drop)]
pub struct Tokens {
    source: Vec<u8>,
    items: Vec<Token>,
    end: Place,
}

impl Model for Tokens {
    ghost use Rattle.kr_lex.specs.Lexemes.{Lexemes};

    ghost Value = { Lexemes };

    ghost use Rattle.kr_lex.specs.Entries.{shown, AreEntries};

    ghost view = { λ t. shown t.end t.source.items t.items.items };

    ghost invariant = { λ t. AreEntries t.source.items t.items.items };
}

impl Tokens {
    pub(crate) fn new(source: Vec<u8>, items: Vec<Token>, end: Place) -> Tokens
        requires { AreEntries source.items items.items }
        ensures { result ≡ shown end source.items items.items }
    {
        Tokens { source, items, end }
    }

    pub fn len(&self) -> usize
        ensures { result ≡ length self.now.list }
    {
        self.items.len()
    }

    pub fn kind(&self, at: usize) -> Kind
        requires { at < length self.now.list }
        ensures { result ≡ (lexeme_at self.now at).kind }
    {
        self.items[at].kind
    }

    /// The spelling, in UTF-8.
    pub fn text(&self, at: usize) -> &[u8]
        requires { at < length self.now.list }
        ensures { result.now ≡ (lexeme_at self.now at).text }
    {
        let token = self.items[at];
        &self.source[token.start as usize..token.end as usize]
    }

    /// The value of a number, at most 2147483648.
    pub fn value(&self, at: usize) -> u32
        requires within { at < length self.now.list }
        requires number { (lexeme_at self.now at).kind ≡ Number }
        ensures value { result ≡ number_value (lexeme_at self.now at).text }
        ensures small { result ≤ 2147483648 }
    {
        let token = self.items[at];
        let text = &self.source[token.start as usize..token.end as usize];
        words::number_value(text)
    }

    /// The value of a number with a suffix, at most 9223372036854775808.
    pub fn long_value(&self, at: usize) -> u64
        requires within { at < length self.now.list }
        requires number { (lexeme_at self.now at).kind ≡ LongNumber }
        ensures value { result ≡ long_number_value (lexeme_at self.now at).text }
        ensures small { result ≤ 9223372036854775808 }
    {
        let token = self.items[at];
        let text = &self.source[token.start as usize..token.end as usize];
        words::long_number_value(text)
    }

    pub fn place(&self, at: usize) -> Place
        requires { at < length self.now.list }
        ensures { result ≡ (lexeme_at self.now at).place }
    {
        let token = self.items[at];
        Place {
            file: self.end.file,
            line: token.line,
            col: token.col,
        }
    }

    /// The place after the source's last character.
    pub fn end(&self) -> Place
        ensures { result ≡ self.now.end }
    {
        self.end
    }
}
