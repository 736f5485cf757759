// An entry in few bytes: its node in two words, or in a second list.
ghost use Rattle.std.specs.Prelude.{◌≡◌, ◌++◌, ℕ, List, IfOk, length};
ghost use Rattle.kr_ast.specs.declared.short_entry.LongNode.{LongNode as LongMeant};
ghost use Rattle.kr_ast.specs.Entries.{IsKept, entry_shown};

use crate::shapes::{Shape, Words, is_long, node_of, words_of};
use crate::{Entry, Node};
use kr_base::{NoMemory, Place};

/// An entry whose node fits into two words; or one whose node is in the second list, at the index `first`.
#[derive(Clone, Copy)]
pub(crate) struct ShortEntry {
    line: u32,
    col: u32,
    pub(crate) parent: u32,
    first: u32,
    second: u32,
    shape: Shape,
    pub(crate) position: u8,
}

const _: () = prove!(size_of::<ShortEntry>() == 24);

/// A node of the second list, and its file.
#[derive(Clone, Copy)]
pub(crate) struct LongNode {
    file: u32,
    node: Node,
}

/// An entry with its node in words.
#[inline(always)]
fn short_entry(entry: Entry, words: Words) -> ShortEntry
    ensures { result ≡ record { line = entry.place.line; col = entry.place.col; parent = entry.parent; first = words.first; second = words.second; shape = words.shape; position = entry.position } }
{
    ShortEntry {
        line: entry.place.line,
        col: entry.place.col,
        parent: entry.parent,
        first: words.first,
        second: words.second,
        shape: words.shape,
        position: entry.position,
    }
}

/// Puts a node into the second list. It is inlined so that the others aren't made in memory.
#[inline(always)]
fn put_long(long: &mut Vec<LongNode>, entry: Entry) -> Result<ShortEntry, NoMemory>
    ensures grown { (more : List LongMeant) × (long.new.items ≡ long.old.items ++ more) }
    ensures kept { IfOk result (λ s. IsKept (length long.new.items) s) }
    ensures shown { IfOk result (λ s. (file : ℕ) → entry_shown file long.new.items s ≡ entry) }
{
    let at = long.len();
    if at > 0xffff_ffff {
        return Err(NoMemory::at_limit(long.as_slice()));
    }
    long.push(LongNode {
        file: entry.place.file,
        node: entry.node,
    })?;
    let words = Words {
        shape: Shape::Long,
        first: at as u32,
        second: 0,
    };
    Ok(short_entry(entry, words))
}

/// The entry in few bytes, with its node in the second list if it doesn't fit or is of another file.
#[inline(always)]
pub(crate) fn shorten(
    file: u32,
    long: &mut Vec<LongNode>,
    entry: Entry,
) -> Result<ShortEntry, NoMemory>
    ensures grown { (more : List LongMeant) × (long.new.items ≡ long.old.items ++ more) }
    ensures kept { IfOk result (λ s. IsKept (length long.new.items) s) }
    ensures shown { IfOk result (λ s. entry_shown file long.new.items s ≡ entry) }
{
    if entry.place.file != file {
        return put_long(long, entry);
    }
    match words_of(entry.node) {
        Some(words) => Ok(short_entry(entry, words)),
        None => put_long(long, entry),
    }
}

/// An entry with this file and node.
#[inline(always)]
fn entry_with(file: u32, node: Node, short: ShortEntry) -> Entry
    ensures { result ≡ record { place = record { file = file; line = short.line; col = short.col }; node = node; parent = short.parent; position = short.position } }
{
    Entry {
        place: Place {
            file,
            line: short.line,
            col: short.col,
        },
        node,
        parent: short.parent,
        position: short.position,
    }
}

/// The entry that is kept in few bytes.
#[inline(always)]
pub(crate) fn lengthen(file: u32, long: &[LongNode], short: ShortEntry) -> Entry
    requires { IsKept (length long.now) short }
    ensures { result ≡ entry_shown file long.now short }
{
    if is_long(short.shape) {
        let kept = long[short.first as usize];
        return entry_with(kept.file, kept.node, short);
    }
    entry_with(file, node_of(short.shape, short.first, short.second), short)
}
