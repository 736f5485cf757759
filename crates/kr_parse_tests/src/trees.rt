// Trees as text: each node's kind with its operator, its column, its names and its parts.
ghost use Rattle.kr_ast.specs.Arena.{AreNamesIn};

use crate::kinds::kind;
use crate::rows::Frame;
use crate::tokens::tokens_of;
use kr_ast::{Name, Node, Tree};
use kr_lex::Tokens;
use kr_parse::parse;
use std::alloc::{AllocError, Global};

/// Appends a space and a name.
fn push_name(text: &mut String, name: &[u8]) -> Result<(), AllocError> {
    text.push(' ')?;
    for byte in name {
        text.push(*byte as char)?;
    }
    Ok(())
}

/// Appends names.
fn push_names(text: &mut String, tree: &Tree, names: &[Name]) -> Result<(), AllocError>
    requires { AreNamesIn tree.now.text names.now }
{
    for at in 0..names.len() {
        push_name(text, tree.name(names[at]))?;
    }
    Ok(())
}

/// Appends `(`, a node's kind, its column and its names.
fn push_head(
    alloc: Global,
    text: &mut String,
    tree: &Tree,
    at: u32,
    origin: u32,
) -> Result<(), AllocError> {
    if at >= tree.nodes() {
        return Ok(());
    }
    let entry = tree.entry(at);
    let kind = kind(alloc, entry.node)?;
    let head = format!(in alloc; "({kind} {}", entry.place.col.wrapping_sub(origin))?;
    text.push_str(head.as_str())?;
    let names = entry.node.names();
    push_names(text, tree, names.as_slice())
}

/// Appends the texts of a node's parts, separated by spaces.
fn push_parts(text: &mut String, texts: &[String], parts: &[u32]) -> Result<(), AllocError> {
    for part in parts {
        if text.len() > 0 {
            text.push(' ')?;
        }
        if let Some(inner) = texts.get(*part as usize) {
            text.push_str(inner.as_str())?;
        }
    }
    Ok(())
}

/// Appends `(KIND COLUMN NAME .. PART ..)`; the items of a list in order, and `.` at its end.
fn push_node(
    alloc: Global,
    text: &mut String,
    tree: &Tree,
    at: u32,
    texts: &[String],
    origin: u32,
) -> Result<(), AllocError> {
    if at >= tree.nodes() {
        return Ok(());
    }
    let node = tree.entry(at).node;
    match node {
        Node::Nil => text.push('.'),
        Node::Cons { .. } => push_parts(text, texts, node.parts().as_slice()),
        _ => {
            push_head(alloc, text, tree, at, origin)?;
            push_parts(text, texts, node.parts().as_slice())?;
            text.push(')')
        }
    }
}

/// The text of a node.
fn printed(
    alloc: Global,
    tree: &Tree,
    at: u32,
    texts: &[String],
    origin: u32,
) -> Result<String, AllocError> {
    let mut text = String::new(alloc);
    push_node(alloc, &mut text, tree, at, texts, origin)?;
    Ok(text)
}

/// The text of each node, in the tree's order.
fn all_printed(alloc: Global, tree: &Tree, origin: u32) -> Result<Vec<String>, AllocError> {
    let mut texts: Vec<String> = Vec::new(alloc);
    for at in 0..tree.nodes() {
        let text = printed(alloc, tree, at, texts.as_slice(), origin)?;
        texts.push(text)?;
    }
    Ok(texts)
}

/// The node that is shown: the statements of a method, the initial value of a declarator, or all.
fn shown_at(tree: &Tree, form: &str) -> u32 {
    let last = tree.nodes().saturating_sub(1);
    for at in 0..tree.nodes() {
        match tree.entry(at).node {
            Node::Declarator { initial, .. } => {
                if form == "initial" {
                    return initial;
                }
            }
            Node::Method { body, .. } => {
                if form == "statement" {
                    return body;
                }
            }
            _ => (),
        }
    }
    last
}

fn tree_text(alloc: Global, tree: &Tree, form: &str, origin: u32) -> Result<String, AllocError> {
    let texts = all_printed(alloc, tree, origin)?;
    match texts.get(shown_at(tree, form) as usize) {
        Some(found) => String::from_str(alloc, found.as_str()),
        None => String::from_str(alloc, "no nodes"),
    }
}

fn parsed(alloc: Global, tokens: &Tokens, form: &str, origin: u32) -> Result<String, AllocError> {
    match parse(alloc, tokens) {
        Ok(tree) => tree_text(alloc, &tree, form, origin),
        Err(_) => String::from_str(alloc, "no tree"),
    }
}

/// The tree of a source, if it has one. Columns are counted from the text's own first one.
pub(crate) fn of_tree(
    alloc: Global,
    form: &str,
    frame: Frame,
    source: &[u8],
) -> Result<String, AllocError> {
    match tokens_of(alloc, source) {
        Ok(tokens) => parsed(alloc, &tokens, form, frame.origin()),
        Err(_) => String::from_str(alloc, "no tokens"),
    }
}
