// Lines of a text, and parts of a line.
ghost use Rattle.std.specs.Prelude.{◌≡◌, ◌<◌, ◌==◌, ◌++◌, ◌∷◌, [], length, Some, None, MatchOption};
ghost use Rattle.std.specs.List.{after_first, before_first, position_or_len};
ghost use Rattle.kr_text.specs.Splitting.{after_front, ended, lines_in};

/// The place of the first such byte, or the text's length.
fn place_of(byte: u8, text: &[u8]) -> usize
    ensures { result ≡ position_or_len (λ b. b == byte) text.now }
{
    for at in 0..text.len() {
        if text[at] == byte {
            return at;
        }
    }
    text.len()
}

/// The parts before and after the first such byte.
pub fn part_at<'a>(byte: u8, text: &'a [u8]) -> (&'a [u8], &'a [u8])
    ensures before { result.0.now ≡ before_first (λ b. b == byte) text.now }
    ensures after { result.1.now ≡ after_first (λ b. b == byte) text.now }
{
    let at = place_of(byte, text);
    if at < text.len() {
        (&text[..at], &text[at + 1..])
    } else {
        (text, b"".as_slice())
    }
}

/// The first line, and the rest.
pub fn first_line<'a>(text: &'a [u8]) -> Option<(&'a [u8], &'a [u8])>
    ensures { MatchOption result (lines_in text.now ≡ [])
        (λ p. (lines_in text.now ≡ p.0.now ∷ lines_in p.1.now) × (text.now ≡ ended p.0.now ++ p.1.now)) }
{
    let at = place_of(b'\n', text);
    if at < text.len() {
        Some((&text[..at], &text[at + 1..]))
    } else {
        None
    }
}

/// What a text goes on with after another, where it begins with that.
pub fn after_front<'a>(front: &[u8], text: &'a [u8]) -> Option<&'a [u8]>
    ensures { MatchOption result (after_front front.now text.now ≡ None) (λ rest. after_front front.now text.now ≡ Some rest.now) }
{
    text.strip_prefix(front)
}
