// Comments at the front of a text.
ghost use Rattle.std.specs.Prelude.{◌≡◌, IfNone, IfSome};
ghost use Rattle.kr_lex.specs.Pieces.{IsLineLength, IsBodyLength, IsNeverClosed};

use crate::characters::is_line_end;

/// The length up to the line's end.
pub(crate) fn line_len(text: &[u8]) -> usize
    ensures { IsLineLength text.now result }
{
    let mut len = 0;
    for b in text {
        if is_line_end(*b) {
            return len;
        }
        len += 1;
    }
    len
}

/// The length up to the first `*/`.
pub(crate) fn body_len(text: &[u8]) -> Option<usize>
    ensures found { IfSome result (IsBodyLength text.now) }
    ensures none { IfNone result (IsNeverClosed text.now) }
{
    let mut len = 0;
    while len + 1 < text.len() {
        if text[len] == b'*' && text[len + 1] == b'/' {
            return Some(len);
        }
        len += 1;
    }
    None
}
