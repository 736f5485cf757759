// The state of the scan.
ghost use Rattle.std.specs.Prelude.{◌≡◌, ◌&&◌, not, false};
ghost use Rattle.kr_lex.specs.Characters.{is_line_end};

use crate::characters::is_line_end;
use crate::cursor::Cursor;

/// The cursor, whether it is in a contract line, and the index up to which the source has no `/*` within a line.
#[derive(Clone, Copy)]
pub(crate) struct Progress {
    pub(crate) cursor: Cursor,
    pub(crate) inside: bool,
    pub(crate) clear: usize,
}

impl Progress {
    pub(crate) fn start() -> Progress
        ensures { result ≡ record { cursor = record { at = 0; line = 1; origin = 0 }; inside = false; clear = 0 } }
    {
        Progress {
            cursor: Cursor::start(),
            inside: false,
            clear: 0,
        }
    }

    /// The state after a gap that begins with this byte, apart from the cursor: a line's end leaves a contract line.
    pub(crate) fn behind_gap(self, first: u8) -> Progress
        ensures cursor { result.cursor ≡ self.cursor }
        ensures inside { result.inside ≡ (self.inside && not (is_line_end first)) }
        ensures clear { result.clear ≡ self.clear }
    {
        Progress {
            cursor: self.cursor,
            inside: self.inside && !is_line_end(first),
            clear: self.clear,
        }
    }
}
