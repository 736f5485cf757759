// The parts of a type's text.
ghost use Rattle.std.specs.Prelude.{◌≡◌, ◌≤◌, ◌+◌, IsTrue, MatchOption, length};
ghost use Rattle.kr_space_meaning.specs.Names as names;
ghost use Rattle.kr_space_names.specs.Texts.{peeled};

use crate::wrapping::Wrapping;

/// The text without so many bytes at its front and at its end.
fn inside(text: &[u8], front: usize, end: usize) -> &[u8]
    requires front { front ≤ length text.now }
    requires end { front + end ≤ 12 }
    ensures { result.now ≡ names.inside front end text.now }
{
    let rest = &text[front..];
    let kept = text.len().saturating_sub(front + end);
    &rest[..kept]
}

/// Whether a text begins with a collection's name and its bracket, and ends with a bracket.
fn is_of(text: &[u8], collection: &[u8]) -> bool
    ensures is { result ≡ names.is_of collection.now text.now }
    ensures long { IsTrue result → length collection.now ≤ length text.now }
{
    text.starts_with(collection) && text.ends_with(b">".as_slice())
}

/// The text in an array type's or in a collection's; none where the text is a word.
pub(crate) fn peel(text: &[u8]) -> Option<(Wrapping, &[u8])>
    ensures written { MatchOption result (names.written text.now ≡ names.Word text.now) (λ p. names.written text.now ≡ peeled p.0 p.1.now) }
    ensures shorter { MatchOption result (Unit {0}) (λ p. length p.1.now + 2 ≤ length text.now) }
{
    if text.ends_with(b"[]".as_slice()) {
        Some((Wrapping::Array, inside(text, 0, 2)))
    } else if is_of(text, b"HashSet<".as_slice()) {
        Some((Wrapping::Set, inside(text, 8, 1)))
    } else if is_of(text, b"LinkedList<".as_slice()) {
        Some((Wrapping::List, inside(text, 11, 1)))
    } else {
        None
    }
}
