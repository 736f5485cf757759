// The entries of a forest: most of them take 24 bytes.
ghost use Rattle.std.specs.Prelude.{◌≡◌, ◌<◌, ◌≤◌, ◌++◌, ◌∷◌, [], List, Some, IfOk, OnErr, length, slice_get, slice_set, slice_index_or};
ghost use Rattle.kr_ast.specs.declared.node.Entry.{Entry as EntryMeant};
ghost use Rattle.kr_ast.specs.declared.short_entry.LongNode.{LongNode as LongMeant};
ghost use Rattle.kr_ast.specs.Entries.{entries_shown};
ghost use Rattle.kr_ast.specs.Forest.{owned};

use crate::Entry;
use crate::short_entry::{LongNode, ShortEntry, lengthen, shorten};
use kr_base::NoMemory;
use std::alloc::Global;
use std::marker::Model;

/// Entries, most of them of one file. Contracts see the list of the entries.
#[derive(Drop)]
pub(crate) struct EntryList {
    file: u32,
    short: Vec<ShortEntry>,
    long: Vec<LongNode>,
}

impl Model for EntryList {
    ghost use Rattle.std.specs.Prelude.{All, length};
    ghost use Rattle.kr_ast.specs.Entries.{Entries, IsKept, entries_shown};

    ghost Value = { Entries };

    ghost view = { λ l. record { items = entries_shown l.file l.long.items l.short.items } };

    ghost invariant = { λ l. All (IsKept (length l.long.items)) l.short.items };
}

/// The file of the first entry, which that of most entries is.
#[inline(always)]
fn file_of_most(short: &[ShortEntry], file: u32, next: u32) -> u32
    ensures { (longs : List LongMeant) → entries_shown result longs short.now ≡ entries_shown file longs short.now }
{
    if short.is_empty() { next } else { file }
}

impl EntryList {
    /// Allocates nothing.
    pub(crate) fn new(alloc: Global) -> EntryList
        ensures { result.items ≡ [] }
    {
        EntryList {
            file: 0,
            short: Vec::new(alloc),
            long: Vec::new(alloc),
        }
    }

    /// How many entries there are.
    #[inline(always)]
    pub(crate) fn len(&self) -> usize
        ensures { result ≡ length self.now.items }
    {
        self.short.len()
    }

    /// Where there is no number of 32 bits for one more.
    pub(crate) fn at_limit(&self) -> NoMemory
        requires { 4294967295 ≤ length self.now.items }
    {
        NoMemory::at_limit(self.short.as_slice())
    }

    /// The entry at an index.
    #[inline(always)]
    pub(crate) fn at(&self, index: usize) -> Entry
        requires { index < length self.now.items }
        ensures { slice_get self.now.items index ≡ Some result }
    {
        lengthen(self.file, &self.long, self.short[index])
    }

    /// Gives a node its parent.
    #[inline(always)]
    pub(crate) fn set_parent(&mut self, part: usize, parent: u32, position: u8)
        requires { part < length self.old.items }
        ensures now { (d : EntryMeant) → self.new.items ≡ slice_set self.old.items part (owned parent position (slice_index_or self.old.items part d)) }
        ensures long { length self.new.items ≡ length self.old.items }
    {
        let short = &mut self.short[part];
        short.parent = parent;
        short.position = position;
    }

    /// Adds an entry.
    #[inline(always)]
    pub(crate) fn push(&mut self, entry: Entry) -> Result<(), NoMemory>
        ensures pushed { IfOk result (λ none. self.new.items ≡ self.old.items ++ entry ∷ []) }
        ensures unchanged { OnErr result (self.new ≡ self.old) }
    {
        let file = file_of_most(&self.short, self.file, entry.place.file);
        let short = shorten(file, &mut self.long, entry)?;
        self.short.reserve(1)?;
        self.short.push_reserved(short);
        self.file = file;
        Ok(())
    }
}
