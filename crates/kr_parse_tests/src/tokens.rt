// The lexer's result: the tokens, or the place and the rule.

use kr_lex::{Kind, LexRefusal, Token, Tokens, lex, one_list_law, spelling, unbroken_law};
use std::alloc::{AllocError, Global};
use std::mem;

/// How many bytes a source may have.
const LONGEST: usize = (1 << 30) - 1;

/// The tokens of a source, up to where it is too long.
pub(crate) fn tokens_of(alloc: Global, source: &[u8]) -> Result<Tokens, LexRefusal> {
    let length = source.len().min(LONGEST);
    lex(alloc, 7, &source[..length])
}

/// Appends the spellings of the tokens, separated by spaces.
fn push_spellings(text: &mut Vec<u8>, tokens: &Tokens) -> Result<(), AllocError> {
    for at in 0..tokens.len() {
        if at > 0 {
            text.push(b' ')?;
        }
        text.extend_from_slice(tokens.text(at))?;
    }
    Ok(())
}

fn spelled(alloc: Global, tokens: &Tokens) -> Result<String, AllocError> {
    let mut text = Vec::new(alloc);
    push_spellings(&mut text, tokens)?;
    String::from_utf8_lossy(alloc, text.as_slice())
}

/// The place and the rule that is broken.
pub(crate) fn refused(alloc: Global, refusal: LexRefusal) -> Result<String, AllocError> {
    match refusal {
        LexRefusal::Broken { place, rule } => {
            let line = place.line;
            let col = place.col;
            let code = rule.code();
            format!(in alloc; "{line}:{col}: {code}")
        }
        LexRefusal::NoMemory(_) => String::from_str(alloc, "no memory"),
    }
}

/// The lexer's result for a source.
pub(crate) fn spellings(alloc: Global, source: &[u8]) -> Result<String, AllocError> {
    match tokens_of(alloc, source) {
        Ok(tokens) => spelled(alloc, &tokens),
        Err(refusal) => refused(alloc, refusal),
    }
}

/// How a kind is called: the one spelling that it has, or else a word for it.
fn kind_name(kind: Kind) -> &'static [u8] {
    match kind {
        Kind::Identifier => b"identifier",
        Kind::Number => b"number",
        Kind::LongNumber => b"long number",
        _ => spelling(kind),
    }
}

/// A token's text, kind, value and place.
fn shown(alloc: Global, tokens: &Tokens, at: usize) -> Result<String, AllocError> {
    if at >= tokens.len() {
        return String::from_str(alloc, "");
    }
    let text = String::from_utf8_lossy(alloc, tokens.text(at))?;
    let kind = String::from_utf8_lossy(alloc, kind_name(tokens.kind(at)))?;
    let value = if tokens.kind(at) == Kind::Number {
        tokens.value(at) as u64
    } else if tokens.kind(at) == Kind::LongNumber {
        tokens.long_value(at)
    } else {
        0
    };
    let place = tokens.place(at);
    format!(in alloc;
        "{text} {kind} {value} {}:{}:{}; ",
        place.file, place.line, place.col
    )
}

fn push_tokens(alloc: Global, text: &mut String, tokens: &Tokens) -> Result<(), AllocError> {
    for at in 0..tokens.len() {
        let token = shown(alloc, tokens, at)?;
        text.push_str(token.as_str())?;
    }
    let end = tokens.end();
    let size = mem::size_of::<Token>();
    let behind = format!(in alloc;
        "end {}:{}:{}, {size} bytes a token",
        end.file, end.line, end.col
    )?;
    text.push_str(behind.as_str())
}

/// Each token of a source, and the place after it.
pub(crate) fn of_tokens(alloc: Global, source: &[u8]) -> Result<String, AllocError> {
    one_list_law();
    unbroken_law();
    let mut text = String::new(alloc);
    if let Ok(tokens) = tokens_of(alloc, source) {
        push_tokens(alloc, &mut text, &tokens)?;
    }
    Ok(text)
}

/// How many tokens are keywords that the language doesn't use.
fn count_outside(tokens: &Tokens) -> usize {
    let mut count: usize = 0;
    for at in 0..tokens.len() {
        if tokens.kind(at).is_outside_profile() {
            count = count.saturating_add(1);
        }
    }
    count
}

/// How many tokens a source has, and how many of them are keywords that the language doesn't use.
pub(crate) fn of_keywords(alloc: Global, source: &[u8]) -> Result<String, AllocError> {
    match tokens_of(alloc, source) {
        Ok(tokens) => format!(in alloc; "{}, outside {}", tokens.len(), count_outside(&tokens)),
        Err(refusal) => refused(alloc, refusal),
    }
}
