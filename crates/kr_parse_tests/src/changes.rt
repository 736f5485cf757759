// A source cut to each length; a source with one token dropped, doubled or swapped with the next.

use crate::rows::Frame;
use crate::tokens::{refused, tokens_of};
use crate::verdicts::{is_within, of_source};
use kr_lex::Tokens;
use std::alloc::{AllocError, Global};

const NONE: Frame = Frame { front: "", end: "" };

/// The parser's result for each prefix of a source, and for the whole.
pub(crate) fn of_fronts(alloc: Global, source: &[u8]) -> Result<String, AllocError> {
    let mut text = String::new(alloc);
    push_fronts(alloc, &mut text, source)?;
    Ok(text)
}

fn push_fronts(alloc: Global, text: &mut String, source: &[u8]) -> Result<(), AllocError> {
    for length in 0..source.len() {
        let verdict = of_source(alloc, NONE, &source[..length])?;
        text.push_str(verdict.as_str())?;
        text.push_str(", ")?;
    }
    let whole = of_source(alloc, NONE, source)?;
    text.push_str(whole.as_str())
}

/// How one token is changed.
#[derive(Clone, Copy)]
enum Change {
    Dropped,
    Doubled,
    Swapped,
}

/// The token at an index when one token is swapped with the next.
fn swapped(changed: usize, at: usize) -> usize {
    if at == changed {
        at.saturating_add(1)
    } else if at > 0 && at - 1 == changed {
        changed
    } else {
        at
    }
}

fn push_token(text: &mut Vec<u8>, tokens: &Tokens, at: usize) -> Result<(), AllocError> {
    if at < tokens.len() {
        text.extend_from_slice(tokens.text(at))?;
        text.push(b' ')?;
    }
    Ok(())
}

/// Appends the place of a token.
fn push_place(
    text: &mut Vec<u8>,
    tokens: &Tokens,
    changed: usize,
    change: Change,
    at: usize,
) -> Result<(), AllocError> {
    match change {
        Change::Swapped => push_token(text, tokens, swapped(changed, at)),
        Change::Dropped => {
            if at == changed {
                return Ok(());
            }
            push_token(text, tokens, at)
        }
        Change::Doubled => {
            push_token(text, tokens, at)?;
            if at != changed {
                return Ok(());
            }
            push_token(text, tokens, at)
        }
    }
}

fn push_changed(
    text: &mut Vec<u8>,
    tokens: &Tokens,
    changed: usize,
    change: Change,
) -> Result<(), AllocError> {
    for at in 0..tokens.len() {
        push_place(text, tokens, changed, change, at)?;
    }
    Ok(())
}

/// Whether a text has a tree, or is refused by the grammar within it or right after it.
fn is_text_within(alloc: Global, text: &[u8]) -> bool {
    match tokens_of(alloc, text) {
        Ok(tokens) => is_within(alloc, &tokens, text.len()),
        Err(_) => false,
    }
}

/// Whether the tokens with a change have a tree, or are refused within the text or right after it.
fn is_changed_within(
    alloc: Global,
    tokens: &Tokens,
    changed: usize,
    change: Change,
) -> Result<bool, AllocError> {
    let mut text = Vec::new(alloc);
    push_changed(&mut text, tokens, changed, change)?;
    Ok(is_text_within(alloc, text.as_slice()))
}

/// How many texts with one token changed are so.
fn count_within(alloc: Global, tokens: &Tokens) -> Result<usize, AllocError> {
    let mut count: usize = 0;
    for changed in 0..tokens.len() {
        for change in [Change::Dropped, Change::Doubled, Change::Swapped] {
            let within = is_changed_within(alloc, tokens, changed, change)?;
            count = count.saturating_add(usize::from(within));
        }
    }
    Ok(count)
}

fn counted(alloc: Global, tokens: &Tokens) -> Result<String, AllocError> {
    let count = count_within(alloc, tokens)?;
    format!(in alloc;
        "{} tokens, {count} changes that are refused within the text or have a tree",
        tokens.len()
    )
}

/// How many changes of one token give a tree, or are refused within the text or right after it.
pub(crate) fn of_changes(alloc: Global, source: &[u8]) -> Result<String, AllocError> {
    match tokens_of(alloc, source) {
        Ok(tokens) => counted(alloc, &tokens),
        Err(refusal) => refused(alloc, refusal),
    }
}
