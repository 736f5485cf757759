// The index of names in a list, in nearly constant time.
ghost use Rattle.std.specs.Prelude.{◌≡◌, ◌++◌, ◌∷◌, [], List, ℕ, IfOk, length};
ghost use Rattle.kr_classes_names.specs.Listed.{IsIndexOf, place_of};

use indexmap::IndexMap;
use kr_base::NoMemory;
use std::alloc::Global;
use std::marker::Model;

/// The index of the first occurrence of each name.
#[derive(Drop)]
pub struct Index {
    first: IndexMap<Vec<u8>, u32>,
}

impl Model for Index {
    ghost use Rattle.std.specs.Prelude.{List, ℕ, map};

    ghost Value = { List (List ℕ × ℕ) };

    ghost view = { λ n. map (λ e. (e.0.items, e.1)) n.first.entries };
}

impl Index {
    pub fn new(alloc: Global) -> Self
        ensures { IsIndexOf [] result }
    {
        Index {
            first: IndexMap::new(alloc),
        }
    }

    /// The index of the first occurrence.
    pub fn find(&self, name: &[u8]) -> Option<u32>
        ensures { result ≡ place_of name.now self.now }
    {
        self.first.get(name).copied()
    }

    /// Notes that a name comes at an index after all others.
    pub fn add(&mut self, alloc: Global, name: &[u8], at: u32) -> Result<(), NoMemory>
        ensures { IfOk result (λ none. (names : List (List ℕ)) → IsIndexOf names self.old → at ≡ length names → IsIndexOf (names ++ name.now ∷ []) self.new) }
    {
        if self.find(name).is_some() {
            return Ok(());
        }
        let mut copy = Vec::new(alloc);
        copy.extend_from_slice(name)?;
        self.first.insert(copy, at)?;
        Ok(())
    }
}
