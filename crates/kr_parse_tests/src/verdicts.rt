// Whether tokens have a tree, or which rule is broken and at which column, counted from the text's own first one.

use crate::rows::Frame;
use crate::tokens::{refused, tokens_of};
use kr_lex::Tokens;
use kr_parse::{ParseRefusal, ParseRule, parse};
use std::alloc::{AllocError, Global};

fn code_of(rule: ParseRule) -> &'static str {
    match rule {
        ParseRule::Syntax => "P1",
        ParseRule::Unsupported => "P2",
        ParseRule::TooNested => "P3",
    }
}

/// The parser's result for tokens.
pub(crate) fn verdict(alloc: Global, tokens: &Tokens, origin: u32) -> Result<String, AllocError> {
    match parse(alloc, tokens) {
        Ok(_) => String::from_str(alloc, "tree"),
        Err(ParseRefusal::Broken { place, rule }) => {
            let code = code_of(rule);
            let col = place.col.wrapping_sub(origin);
            format!(in alloc; "{code} {col}")
        }
        Err(ParseRefusal::NoMemory(_)) => String::from_str(alloc, "no memory"),
    }
}

/// The parser's result for a source.
pub(crate) fn of_source(alloc: Global, frame: Frame, source: &[u8]) -> Result<String, AllocError> {
    match tokens_of(alloc, source) {
        Ok(tokens) => verdict(alloc, &tokens, frame.origin()),
        Err(refusal) => refused(alloc, refusal),
    }
}

/// Whether the tokens have a tree, or are refused by the grammar within these columns or right after them.
pub(crate) fn is_within(alloc: Global, tokens: &Tokens, length: usize) -> bool {
    match parse(alloc, tokens) {
        Ok(_) => true,
        Err(ParseRefusal::Broken { place, rule }) => {
            matches!(&rule, ParseRule::Syntax)
                && place.col >= 1
                && (place.col - 1) as usize <= length
        }
        Err(ParseRefusal::NoMemory(_)) => false,
    }
}
