// The words of a command line.
ghost use Rattle.std.specs.Prelude.{◌≡◌, ◌<◌, [], ◌∷◌, ◌++◌, ◌==◌, length, map, slice_index_or, string_bytes, OnOk, OnErr};

use crate::NoMemory;
use std::alloc::Global;
use std::marker::Model;

/// The arguments of a command line, without the program's name. Contracts see a list of texts in bytes.
#[derive(Drop)]
pub struct Words {
    alloc: Global,
    items: Vec<String>,
}

impl Model for Words {
    ghost use Rattle.std.specs.Prelude.{List, ℕ, map, string_bytes};

    ghost Value = { List (List ℕ) };

    ghost view = { λ w. map string_bytes w.items.items };
}

impl Words {
    pub fn new(alloc: Global) -> Self
        ensures { result ≡ [] }
    {
        Words {
            alloc,
            items: Vec::new(alloc),
        }
    }

    pub fn len(&self) -> usize
        ensures { result ≡ length self.now }
    {
        self.items.len()
    }

    pub fn is_empty(&self) -> bool
        ensures { result ≡ (length self.now == 0) }
    {
        self.items.is_empty()
    }

    pub fn get(&self, at: usize) -> &str
        requires { at < length self.now }
        ensures { result.now ≡ slice_index_or self.now at [] }
    {
        self.items[at].as_str()
    }

    pub fn texts(&self) -> &[String]
        ensures { map string_bytes result.now ≡ self.now }
    {
        self.items.as_slice()
    }

    pub fn push(&mut self, word: &str) -> Result<(), NoMemory>
        ensures added { OnOk result (self.new ≡ self.old ++ word.now ∷ []) }
        ensures unchanged { OnErr result (self.new ≡ self.old) }
    {
        let text = String::from_str(self.alloc, word)?;
        self.items.push(text)?;
        Ok(())
    }
}
