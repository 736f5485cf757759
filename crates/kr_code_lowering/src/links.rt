// The links of lists to their nodes.
ghost use Rattle.std.specs.Prelude.{◌≡◌, ◌≤◌, ◌++◌, ◌∷◌, [], length, IfOk, OnErr};

use kr_base::NoMemory;
use std::alloc::Global;
use std::marker::Model;

/// Links to nodes by their numbers; a link has a number too. Contracts see the list of them.
#[derive(Drop)]
pub struct Links {
    items: Vec<u32>,
}

impl Model for Links {
    ghost use Rattle.std.specs.Prelude.{List, ℕ, length, ◌≤◌};

    ghost Value = { List ℕ };

    ghost view = { λ l. l.items.items };

    ghost invariant = { λ l. length l.items.items ≤ 4294967295 };
}

impl Links {
    /// No links. It takes no memory.
    pub fn new(alloc: Global) -> Self
        ensures { result ≡ [] }
    {
        Links {
            items: Vec::new(alloc),
        }
    }

    pub fn len(&self) -> u32
        ensures { result ≡ length self.now }
    {
        self.items.len() as u32
    }

    /// Adds a link after the others. Err: out of memory, or 2^32 - 1 links.
    pub fn push(&mut self, node: u32) -> Result<(), NoMemory>
        ensures added { IfOk result (λ none. self.new ≡ self.old ++ node ∷ []) }
        ensures unchanged { OnErr result (self.new ≡ self.old) }
    {
        let count = self.items.len();
        if count >= 0xffff_ffff {
            return Err(NoMemory::at_limit(self.items.as_slice()));
        }
        self.items.push(node)?;
        Ok(())
    }

    /// The links as a vector of at most 2^32 - 1. It takes no memory.
    pub fn into_vec(self) -> Vec<u32>
        ensures all { result.items ≡ self }
        ensures small { length result.items ≤ 4294967295 }
    {
        self.items
    }
}
