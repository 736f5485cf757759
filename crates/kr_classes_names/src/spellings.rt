// Names, each once.
ghost use Rattle.std.specs.Prelude.{◌≡◌, ◌<◌, [], length, map, Some, slice_get, slice_index_or, IfOk, OnErr};
ghost use Rattle.kr_classes_names.specs.ListedTypes.{AreApart, IsGrown};

use indexmap::IndexSet;
use kr_base::NoMemory;
use kr_classes_table::NameId;
use std::alloc::Global;
use std::marker::Model;

/// Names by their numbers. Contracts see the list of them.
#[derive(Drop)]
pub struct Spellings {
    set: IndexSet<Vec<u8>>,
}

impl Model for Spellings {
    ghost use Rattle.std.specs.Prelude.{List, ℕ, map};
    ghost use Rattle.kr_classes_names.specs.ListedTypes.{AreApart};

    ghost Value = { List (List ℕ) };

    ghost view = { λ s. map (λ v. v.items) s.set.keys };

    ghost invariant = { λ s. AreApart (map (λ v. v.items) s.set.keys) };
}

impl Spellings {
    pub fn new(alloc: Global) -> Self
        ensures { result ≡ [] }
    {
        Spellings {
            set: IndexSet::new(alloc),
        }
    }

    /// The number of a name, which is added where it isn't there yet.
    pub fn number(&mut self, alloc: Global, name: &[u8]) -> Result<NameId, NoMemory>
        ensures at { IfOk result (λ n. slice_get self.new n ≡ Some name.now) }
        ensures grown { IsGrown self.old self.new }
        ensures apart { AreApart self.old → AreApart self.new }
        ensures first { IfOk result (λ n. self.old ≡ [] → n ≡ 0) }
    {
        let mut copy = Vec::new(alloc);
        copy.extend_from_slice(name)?;
        let (number, _) = self.set.insert_full(copy)?;
        if number >= 0xffff_ffff {
            return Err(NoMemory::at_limit(self.set.as_slice()));
        }
        Ok(number as u32)
    }

    /// The name of a number.
    pub fn name(&self, number: NameId) -> &[u8]
        requires { number < length self.now }
        ensures { result.now ≡ slice_index_or self.now number [] }
    {
        match self.set.get_index(number as usize) {
            Some(name) => name.as_slice(),
            None => b"".as_slice(),
        }
    }
    /// The names in order.
    pub fn as_slice(&self) -> &[Vec<u8>]
        ensures all { map (λ name. name.items) result.now ≡ self.now }
        ensures apart { AreApart self.now }
    {
        self.set.as_slice()
    }
}
