// A line: the question and the text.

use crate::changes::{of_changes, of_fronts};
use crate::forest::of_sum;
use crate::tokens::{of_keywords, of_tokens, spellings};
use crate::trees::of_tree;
use crate::verdicts::of_source;
use std::alloc::{AllocError, Global};

/// The text around a text.
#[derive(Clone, Copy)]
pub(crate) struct Frame {
    pub(crate) front: &'static str,
    pub(crate) end: &'static str,
}

impl Frame {
    const fn new(front: &'static str, end: &'static str) -> Frame {
        Frame { front, end }
    }

    /// The number of columns before the text.
    pub(crate) fn origin(self) -> u32 {
        u32::try_from(self.front.len()).unwrap_or(u32::MAX)
    }
}

fn frame_of(form: &str) -> Frame {
    if form == "statement" {
        Frame::new("class A { void m() { ", " } }")
    } else if form == "expression" {
        Frame::new("class A { void m() { x = ", "; } }")
    } else if form == "member" {
        Frame::new("class A { ", " }")
    } else if form == "initial" {
        Frame::new("class A { int v = ", "; }")
    } else {
        Frame::new("", "")
    }
}

fn digit(byte: u8) -> u8 {
    match byte {
        b'0'..=b'9' => byte - b'0',
        b'a'..=b'f' => byte - b'a' + 10,
        _ => 0,
    }
}

/// Appends the part after a back quote: the byte of two digits, and the rest.
fn push_piece(bytes: &mut Vec<u8>, piece: &[u8]) -> Result<(), AllocError> {
    if piece.len() >= 2 {
        bytes.push((digit(piece[0]) << 4) | digit(piece[1]))?;
        bytes.extend_from_slice(&piece[2..])?;
    }
    Ok(())
}

/// Appends a text without its back quotes.
fn push_text(bytes: &mut Vec<u8>, text: &str) -> Result<(), AllocError> {
    let mut is_first = true;
    for piece in text.split('`') {
        if is_first {
            bytes.extend_from_slice(piece.as_bytes())?;
        } else {
            push_piece(bytes, piece.as_bytes())?;
        }
        is_first = false;
    }
    Ok(())
}

/// Appends a text in its frame.
fn push_framed(bytes: &mut Vec<u8>, frame: Frame, text: &str) -> Result<(), AllocError> {
    bytes.extend_from_slice(frame.front.as_bytes())?;
    push_text(bytes, text)?;
    bytes.extend_from_slice(frame.end.as_bytes())
}

fn framed(alloc: Global, frame: Frame, text: &str) -> Result<Vec<u8>, AllocError> {
    let mut bytes = Vec::new(alloc);
    push_framed(&mut bytes, frame, text)?;
    Ok(bytes)
}

/// Appends a front, a piece a thousand times, and an end.
fn push_many(bytes: &mut Vec<u8>, front: &str, piece: &str, end: &str) -> Result<(), AllocError> {
    bytes.extend_from_slice(front.as_bytes())?;
    for _ in 0..1000 {
        bytes.extend_from_slice(piece.as_bytes())?;
    }
    bytes.extend_from_slice(end.as_bytes())
}

/// Decodes a text whose parts are between strokes.
fn many(alloc: Global, text: &str) -> Result<Vec<u8>, AllocError> {
    let mut bytes = Vec::new(alloc);
    if let Some((front, rest)) = text.split_once('|') {
        if let Some((piece, end)) = rest.split_once('|') {
            push_many(&mut bytes, front, piece, end)?;
        }
    }
    Ok(bytes)
}

/// The answer for a text in its frame.
fn told(
    alloc: Global,
    asked: &str,
    form: &str,
    frame: Frame,
    source: &[u8],
) -> Result<String, AllocError> {
    if asked == "lex" {
        spellings(alloc, source)
    } else if asked == "tokens" {
        of_tokens(alloc, source)
    } else if asked == "keywords" {
        of_keywords(alloc, source)
    } else if asked == "tree" {
        of_tree(alloc, form, frame, source)
    } else if asked == "fronts" {
        of_fronts(alloc, source)
    } else if asked == "changes" {
        of_changes(alloc, source)
    } else if asked == "sum" {
        of_sum(alloc)
    } else {
        of_source(alloc, frame, source)
    }
}

/// The question, the form of the text, and the text.
fn split(line: &str) -> (&str, &str, &str) {
    match line.split_once(' ') {
        None => (line, "", ""),
        Some((asked, rest)) => {
            if asked == "parse" || asked == "tree" {
                match rest.split_once(' ') {
                    None => (asked, rest, ""),
                    Some((form, text)) => (asked, form, text),
                }
            } else {
                (asked, "", rest)
            }
        }
    }
}

/// The answer to a line.
pub(crate) fn answer(alloc: Global, line: &str) -> Result<String, AllocError> {
    let (asked, form, text) = split(line);
    let frame = frame_of(form);
    let source = if form == "thousand" {
        many(alloc, text)?
    } else {
        framed(alloc, frame, text)?
    };
    told(alloc, asked, form, frame, source.as_slice())
}
