// Identifiers.
ghost use Rattle.std.specs.Prelude.{◌≡◌, if◌then◌else◌};
ghost use Rattle.kr_lex.specs.Characters.{is_start, is_part};
ghost use Rattle.kr_fin.specs.Identifiers as spec;

use unicode_ident::{is_xid_continue, is_xid_start};

fn is_start(c: char) -> bool
    ensures { result ≡ is_start c }
{
    is_xid_start(c) || c == '_' || c == '$'
}

fn is_part(c: char) -> bool
    ensures { result ≡ is_part c }
{
    is_xid_continue(c) || c == '$'
}

// Whether the character may be the first of a name, or a further one.
fn is_next(is_first: bool, c: char) -> bool
    ensures { result ≡ (if is_first then is_start c else is_part c) }
{
    if is_first { is_start(c) } else { is_part(c) }
}

/// Whether the text is an identifier; it may be a keyword.
#[tactic(auto, unfolding(crate::specs::Identifiers::is_identifier))]
pub(crate) fn is_identifier(text: &str) -> bool
    ensures { result ≡ spec.is_identifier text.now }
{
    let mut is_first = true;
    let mut is_name = true;
    for c in text.chars() {
        is_name = is_name && is_next(is_first, c);
        is_first = false;
    }
    is_name && !is_first
}
