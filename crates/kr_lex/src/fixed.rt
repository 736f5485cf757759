// Tokens with one spelling, looked up in a table.
ghost use Rattle.std.specs.Prelude.{◌≡◌, ◌<◌, IfNone, IfSome, length};
ghost use Rattle.kr_lex.specs.Pieces.{IsLongestFixed, BeginsNoFixed, IsNoFixed};
ghost use Rattle.kr_lex.specs.Spelling.{spelling};

use crate::Kind;
use crate::table::{beginning_with, spelling};

/// The kind with exactly this spelling.
pub(crate) fn fixed_word(word: &[u8]) -> Option<Kind>
    requires { 0 < length word.now }
    ensures found { IfSome result (λ kind. word.now ≡ spelling kind) }
    ensures none { IfNone result (IsNoFixed word.now) }
{
    let table = beginning_with(word[0]);
    for kind in table {
        if word == spelling(*kind) {
            return Some(*kind);
        }
    }
    None
}

/// The longest token with a fixed spelling at the front.
pub(crate) fn longest_fixed(text: &[u8]) -> Option<Kind>
    requires { 0 < length text.now }
    ensures found { IfSome result (IsLongestFixed text.now) }
    ensures none { IfNone result (BeginsNoFixed text.now) }
{
    let table = beginning_with(text[0]);
    for kind in table {
        if text.starts_with(spelling(*kind)) {
            return Some(*kind);
        }
    }
    None
}
