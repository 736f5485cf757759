// The row of a valid candidate.
ghost use Rattle.std.specs.Prelude.{◌≡◌, ◌++◌, ◌∷◌, [], OnOk};

use crate::Verdict;
use kr_base::{Cut, NoMemory};
use kr_value::Value;
use std::alloc::Global;
use std::marker::Model;

/// The reachable slots, by their numbers, with their values, in the order of the walk. Contracts see the list.
#[derive(Drop)]
pub struct Structure {
    slots: Vec<(u32, Value)>,
}

impl Model for Structure {
    ghost use Rattle.std.specs.Prelude.{List, ℕ};
    ghost use Rattle.kr_value.specs.declared.value.Value.{Value as SlotValue};

    ghost Value = { List (ℕ × SlotValue) };

    ghost view = { λ s. s.slots.items };
}

impl Structure {
    /// No slots. It takes no memory.
    pub fn empty(alloc: Global) -> Self
        ensures { result ≡ [] }
    {
        Structure {
            slots: Vec::new(alloc),
        }
    }

    /// Takes all slots out, and makes room for so many.
    pub fn clear_for(&mut self, count: usize) -> Result<(), NoMemory>
        ensures { OnOk result (self.new ≡ []) }
    {
        self.slots.clear();
        self.slots.reserve(count)?;
        Ok(())
    }

    /// Adds a slot with its value.
    pub fn push(&mut self, slot: u32, value: Value) -> Result<(), NoMemory>
        ensures { OnOk result (self.new ≡ self.old ++ (slot, value) ∷ []) }
    {
        self.slots.push((slot, value))?;
        Ok(())
    }

    pub fn as_slice(&self) -> &[(u32, Value)]
        ensures { result.now ≡ self.now }
    {
        self.slots.as_slice()
    }
}

/// A valid candidate's key, its structure and, where a method is tested, the verdict.
#[derive(Drop)]
pub struct Row {
    pub key: Cut,
    pub structure: Structure,
    pub verdict: Option<Verdict>,
}

impl Row {
    /// A row whose memory others are made in. It takes none.
    pub fn blank(alloc: Global) -> Row {
        Row {
            key: Cut::empty(alloc),
            structure: Structure::empty(alloc),
            verdict: None,
        }
    }
}
