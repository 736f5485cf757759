// Vectors: candidates as indices into the domains of their slots.
ghost use Rattle.std.specs.Prelude.{◌≡◌, ◌<◌, length, replicate, slice_index, slice_set, IfOk};

use crate::Slot;
use kr_base::NoMemory;
use std::alloc::Global;
use std::marker::Model;

/// An index for each slot. Contracts see the list of the indices.
#[derive(Drop)]
pub struct Vector {
    indices: Vec<u32>,
}

impl Model for Vector {
    ghost use Rattle.std.specs.Prelude.{List, ℕ};

    ghost Value = { List ℕ };

    ghost view = { λ v. v.indices.items };
}

impl Vector {
    /// The vector of this many slots whose indices are all 0.
    pub fn zero(alloc: Global, slots: usize) -> Result<Vector, NoMemory>
        ensures { IfOk result (λ vector. vector ≡ replicate slots 0) }
    {
        Ok(Vector {
            indices: vec![in alloc; 0; slots]?,
        })
    }

    pub fn len(&self) -> usize
        ensures { result ≡ length self.now }
    {
        self.indices.len()
    }

    /// The index of a slot.
    pub fn get(&self, slot: Slot) -> u32
        requires { slot.0 < length self.now }
        ensures { result ≡ slice_index self.now slot.0 }
    {
        let at = slot.0 as usize;
        self.indices[at]
    }

    pub fn set(&mut self, slot: Slot, index: u32)
        requires { slot.0 < length self.old }
        ensures { self.new ≡ slice_set self.old slot.0 index }
    {
        self.indices[slot.0 as usize] = index;
    }

    /// Becomes a copy of a vector of as many slots.
    pub fn copy_from(&mut self, other: &Vector)
        requires { length self.old ≡ length other.now }
        ensures { self.new ≡ other.now }
    {
        self.indices
            .as_mut_slice()
            .copy_from_slice(other.indices.as_slice());
    }

    pub fn indices(&self) -> &[u32]
        ensures { result.now ≡ self.now }
    {
        self.indices.as_slice()
    }
}
