// Nodes during parsing: a forest of trees, some of which become parts of others.
ghost use Rattle.std.specs.Prelude.{◌≡◌, ◌+◌, ◌<◌, ◌++◌, ◌∷◌, [], List, ℕ, length, IfOk, OnErr};
ghost use Rattle.kr_ast.specs.Arena.{trees, tree_at, tree_of, parts, names, name_in, AreNamesIn};
ghost use Rattle.kr_ast.specs.Forest.{AreFree, AreRoots, IsOneRoot, adopted};

use crate::entry_list::EntryList;
use crate::parts::parts_of;
use crate::{Entry, Name, Node, Tree};
use kr_base::{NoMemory, Place};
use std::alloc::Global;
use std::marker::Model;

/// Nodes, each after its parts. A node that is no part of another is a root.
#[derive(Drop)]
pub struct Forest {
    text: Vec<u8>,
    entries: EntryList,
}

impl Model for Forest {
    ghost use Rattle.std.specs.Prelude.{length, ◌<◌, ◌^◌};
    ghost use Rattle.kr_ast.specs.Arena.{Arena, IsForest};

    ghost Value = { Arena };

    ghost view = { λ f. record { text = f.text.items; entries = f.entries.items } };

    ghost invariant = { λ f. IsForest f.text.items f.entries.items × (length f.entries.items < 2 ^ 32) × (length f.text.items < 2 ^ 32) };
}

/// Gives the parts of a node their parent.
#[inline(always)]
fn adopt_parts(entries: &mut EntryList, node: Node, parent: u32)
    requires free { AreFree entries.old.items (parts node) }
    ensures now { (d : Entry) → entries.new.items ≡ adopted d entries.old.items parent 0 (parts node) }
    ensures long { length entries.new.items ≡ length entries.old.items }
{
    let listed = parts_of(&node);
    let parts = listed.as_slice();
    let mut position = 0;
    while position < parts.len() {
        entries.set_parent(parts[position] as usize, parent, position as u8);
        position += 1;
    }
}

impl Forest {
    /// Allocates nothing.
    pub fn new(alloc: Global) -> Self
        ensures text { result.text ≡ [] }
        ensures entries { result.entries ≡ [] }
    {
        Forest {
            text: Vec::new(alloc),
            entries: EntryList::new(alloc),
        }
    }

    /// Adds a name to the text. Fails when out of memory, or when the text would reach 4 GiB.
    pub fn add_name(&mut self, bytes: &[u8]) -> Result<Name, NoMemory>
        ensures shown { IfOk result (λ name. name_in self.new.text name ≡ bytes.now) }
        ensures within { IfOk result (λ name. AreNamesIn self.new.text (name ∷ [])) }
        ensures text { IfOk result (λ name. self.new.text ≡ self.old.text ++ bytes.now) }
        ensures trees { trees self.new.text self.new.entries ≡ trees self.old.text self.old.entries }
        ensures entries { self.new.entries ≡ self.old.entries }
        ensures unchanged { OnErr result (self.new ≡ self.old) }
    {
        let start = self.text.len();
        let end = start.saturating_add(bytes.len());
        if end >= 0xffff_ffff {
            return Err(NoMemory::at_common_limit(self.text.as_slice(), bytes));
        }
        self.text.extend_from_slice(bytes)?;
        Ok(Name {
            start: start as u32,
            end: self.text.len() as u32,
        })
    }

    /// Adds a node above its parts, which must be roots, and returns its index. Fails when out of memory, or at 2^32 -
    /// 1 nodes.
    #[inline(always)]
    pub fn put(&mut self, place: Place, node: Node) -> Result<u32, NoMemory>
        requires free { AreFree self.old.entries (parts node) }
        requires named { AreNamesIn self.old.text (names node) }
        ensures at { IfOk result (λ at. at ≡ length self.old.entries) }
        ensures count { IfOk result (λ at. length self.new.entries ≡ length self.old.entries + 1) }
        ensures text { self.new.text ≡ self.old.text }
        ensures trees { IfOk result (λ at. trees self.new.text self.new.entries ≡ trees self.old.text self.old.entries ++ tree_of self.old.text (tree_at self.old.text self.old.entries) place node ∷ []) }
        ensures roots { IfOk result (λ at. (rest : List ℕ) → AreRoots self.old.entries (parts node ++ rest) → AreRoots self.new.entries (at ∷ rest)) }
        ensures unchanged { OnErr result (self.new ≡ self.old) }
    {
        let at = self.entries.len();
        if at >= 0xffff_ffff {
            return Err(self.entries.at_limit());
        }
        self.entries.push(Entry {
            place,
            node,
            parent: at as u32,
            position: 0,
        })?;
        adopt_parts(&mut self.entries, node, at as u32);
        Ok(at as u32)
    }

    /// The bytes of a name.
    pub fn name(&self, name: Name) -> &[u8]
        requires { AreNamesIn self.now.text (name ∷ []) }
        ensures { result.now ≡ name_in self.now.text name }
    {
        &self.text[name.start as usize..name.end as usize]
    }

    /// The tree of the last node, which must be the only root. Allocates nothing.
    pub fn finish(self) -> Tree
        requires { IsOneRoot self.entries }
        ensures { result ≡ self }
    {
        Tree::new(self.text, self.entries)
    }
}
