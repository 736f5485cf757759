// Classes of characters: what names are made of, white space, and what ends a line.
ghost use Rattle.std.specs.Prelude.{◌≡◌};
ghost use Rattle.kr_lex.specs.Characters.{is_start, is_part, is_white, is_line_end, begins_character};

use unicode_ident::{is_xid_continue, is_xid_start};

/// Whether a name may start with the character.
pub(crate) fn is_start(c: char) -> bool
    ensures { result ≡ is_start c }
{
    is_xid_start(c) || c == '_' || c == '$'
}

/// Whether a name may go on with the character.
pub(crate) fn is_part(c: char) -> bool
    ensures { result ≡ is_part c }
{
    is_xid_continue(c) || c == '$'
}

pub(crate) fn is_line_end(b: u8) -> bool
    ensures { result ≡ is_line_end b }
{
    b == b'\n' || b == b'\r'
}

/// Whether the byte is white space between tokens: space, tab, form feed, or a line's end.
pub(crate) fn is_white(b: u8) -> bool
    ensures { result ≡ is_white b }
{
    b == b' ' || b == b'\t' || b == b'\x0c' || is_line_end(b)
}

/// Whether the byte begins a character in UTF-8.
pub(crate) fn begins_character(b: u8) -> bool
    ensures { result ≡ begins_character b }
{
    b < 128 || b >= 192
}
