// A position in a source during the scan, with its line and column.
ghost use Rattle.std.specs.Prelude.{◌≡◌, ◌+◌, ◌-◌, ◌<◌, ◌≤◌, ◌^◌, length, slice_index};
ghost use Rattle.kr_lex.specs.Places.{ends_line};
ghost use Rattle.kr_lex.specs.Cursors.{Stands, byte_before, one_if};

use crate::characters::{begins_character, is_line_end};
use kr_base::Place;

/// `origin` gives the column by subtraction from `at`: the bytes before the line, and those in it that continue a
/// character.
#[derive(Clone, Copy)]
pub struct Cursor {
    pub at: usize,
    pub line: u32,
    pub origin: usize,
}

impl Cursor {
    pub fn start() -> Cursor
        ensures { result ≡ record { at = 0; line = 1; origin = 0 } }
    {
        Cursor {
            at: 0,
            line: 1,
            origin: 0,
        }
    }

    pub fn step(self, bytes: &[u8]) -> Cursor
        requires room { length bytes.now < 2 ^ 30 }
        requires stands { Stands bytes.now self }
        requires more { self.at < length bytes.now }
        ensures at { result.at ≡ self.at + 1 }
        ensures stands { Stands bytes.now result }
    {
        let b = bytes[self.at];
        let at = self.at + 1;
        if is_line_end(b) {
            let line = self.line + ended_lines(bytes, self.at);
            Cursor {
                at,
                line,
                origin: at,
            }
        } else if begins_character(b) {
            Cursor {
                at,
                line: self.line,
                origin: self.origin,
            }
        } else {
            Cursor {
                at,
                line: self.line,
                origin: self.origin + 1,
            }
        }
    }

    pub(crate) fn advance(self, bytes: &[u8], to: usize) -> Cursor
        requires room { length bytes.now < 2 ^ 30 }
        requires stands { Stands bytes.now self }
        requires onward { self.at ≤ to }
        requires within { to ≤ length bytes.now }
        ensures at { result.at ≡ to }
        ensures stands { Stands bytes.now result }
    {
        let mut cursor = self;
        while cursor.at < to {
            cursor = cursor.step(bytes);
        }
        cursor
    }

    pub fn place(self, file: u32) -> Place
        requires column { self.origin ≤ self.at }
        requires room { self.at < 2 ^ 30 }
        ensures { result ≡ record { file = file; line = self.line; col = self.at + 1 - self.origin } }
    {
        Place {
            file,
            line: self.line,
            col: (self.at + 1 - self.origin) as u32,
        }
    }
}

/// The number of lines that end at a byte, 0 or 1: a line feed after a carriage return ends none.
fn ended_lines(bytes: &[u8], at: usize) -> u32
    requires { at < length bytes.now }
    ensures { result ≡ one_if (ends_line (byte_before bytes.now at) (slice_index bytes.now at)) }
{
    let b = bytes[at];
    if b == b'\r' {
        1
    } else if b != b'\n' {
        0
    } else if at == 0 {
        1
    } else if bytes[at - 1] == b'\r' {
        0
    } else {
        1
    }
}
