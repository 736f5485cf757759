// The bytes of the sources.
ghost use Rattle.std.specs.Prelude.{◌≡◌, ◌<◌, ◌++◌, ◌∷◌, [], length, slice_index_or, OnOk, OnErr};

use kr_base::NoMemory;
use std::alloc::Global;
use std::marker::Model;

/// The bytes of the sources, in order. Contracts see a list of texts.
#[derive(Drop)]
pub(crate) struct Texts {
    items: Vec<Vec<u8>>,
}

impl Model for Texts {
    ghost use Rattle.std.specs.Prelude.{List, ℕ, map};

    ghost Value = { List (List ℕ) };

    ghost view = { λ texts. map (λ bytes. bytes.items) texts.items.items };
}

impl Texts {
    pub(crate) fn new(alloc: Global) -> Self
        ensures { result ≡ [] }
    {
        Texts {
            items: Vec::new(alloc),
        }
    }

    pub(crate) fn len(&self) -> usize
        ensures { result ≡ length self.now }
    {
        self.items.len()
    }

    pub(crate) fn get(&self, at: usize) -> &[u8]
        requires { at < length self.now }
        ensures { result.now ≡ slice_index_or self.now at [] }
    {
        &self.items[at]
    }

    /// Adds a text at the end.
    pub(crate) fn push(&mut self, bytes: Vec<u8>) -> Result<(), NoMemory>
        ensures added { OnOk result (self.new ≡ self.old ++ bytes.items ∷ []) }
    {
        self.items.push(bytes)?;
        Ok(())
    }
}
