// A whole tree, as a list of nodes, each after its parts.
ghost use Rattle.std.specs.Prelude.{◌≡◌, ◌+◌, ◌<◌, ◌^◌, ◌∷◌, [], length, slice_get, Some};
ghost use Rattle.kr_ast.specs.Arena.{IsArena, AreNamesIn, ArePartsFrom, IsPartOfParent, name_in, names, parts, tree_in, tree_of};

use crate::entry_list::EntryList;
use crate::{Entry, Name};
use std::marker::Model;

/// A syntax tree. Contracts see the list of its nodes and the text of its names; `root` is the tree of the last node.
#[derive(Drop)]
pub struct Tree {
    text: Vec<u8>,
    entries: EntryList,
}

impl Model for Tree {
    ghost use Rattle.std.specs.Prelude.{length, ◌<◌, ◌^◌};
    ghost use Rattle.kr_ast.specs.Arena.{Arena, IsArena};

    ghost Value = { Arena };

    ghost view = { λ t. record { text = t.text.items; entries = t.entries.items } };

    ghost invariant = { λ t. IsArena t.text.items t.entries.items × (length t.entries.items < 2 ^ 32) };
}

impl Tree {
    /// Allocates nothing.
    pub(crate) fn new(text: Vec<u8>, entries: EntryList) -> Self
        requires arena { IsArena text.items entries.items }
        requires room { length entries.items < 2 ^ 32 }
        ensures { result ≡ record { text = text.items; entries = entries.items } }
    {
        Tree { text, entries }
    }

    /// The number of nodes.
    pub fn nodes(&self) -> u32
        ensures count { result ≡ length self.now.entries }
        ensures arena { IsArena self.now.text self.now.entries }
    {
        self.entries.len() as u32
    }

    /// A node with its place and its parent, if it has one. It is inlined: what a caller doesn't read isn't made.
    #[inline(always)]
    pub fn entry(&self, at: u32) -> Entry
        requires { at < length self.now.entries }
        ensures here { slice_get self.now.entries at ≡ Some result }
        ensures tree { tree_in self.now at ≡ tree_of self.now.text (tree_in self.now) result.place result.node }
        ensures parts { ArePartsFrom self.now.entries at 0 (parts result.node) }
        ensures held { at + 1 < length self.now.entries → IsPartOfParent self.now.entries at result }
        ensures names { AreNamesIn self.now.text (names result.node) }
    {
        self.entries.at(at as usize)
    }

    /// The bytes of a name.
    pub fn name(&self, name: Name) -> &[u8]
        requires { AreNamesIn self.now.text (name ∷ []) }
        ensures { result.now ≡ name_in self.now.text name }
    {
        &self.text[name.start as usize..name.end as usize]
    }
}
