// The members of an object in order: fields, elements, or the members of a collection.
ghost use Rattle.std.specs.Prelude.{◌≡◌, ◌<◌, ◌≤◌, [], ◌∷◌, ◌++◌, length, take, slice_get, slice_set, OnOk, OnErr, IfOk, MatchOption};
ghost use Rattle.std.specs.List.{remove};

use crate::{append, refill};
use kr_base::NoMemory;
use kr_value::Value;
use std::alloc::Global;
use std::marker::Model;

/// Out of memory, for more values than an object can have: they would need more than 4 GiB.
pub fn too_many(values: &[Value]) -> NoMemory
    requires { 2147483647 ≤ length values.now }
{
    NoMemory::at_int_limit(values)
}

/// The fields, elements or members of an object: at most 2147483647, so that a length is an int. Removing the first one
/// takes constant time, amortized. Contracts see the list.
#[derive(Drop)]
pub struct Members {
    items: Vec<Value>,
    // the number of removed items at the front
    gone: usize,
}

impl Model for Members {
    ghost use Rattle.std.specs.Prelude.{List, drop, vec_len, ◌≤◌, ◌+◌};
    ghost use Rattle.kr_value.specs.declared.value.Value.{Value as Member};

    ghost Value = { List Member };

    ghost view = { λ m. drop m.gone m.items.items };

    ghost invariant = { λ m. (m.gone ≤ vec_len m.items) × (vec_len m.items ≤ m.gone + 2147483647) };
}

impl Members {
    /// Allocates nothing.
    pub fn new(alloc: Global) -> Self
        ensures { result ≡ [] }
    {
        Members {
            items: Vec::new(alloc),
            gone: 0,
        }
    }

    /// These members.
    pub fn from_vec(items: Vec<Value>) -> Self
        requires { length items.items ≤ 2147483647 }
        ensures { result ≡ items.items }
    {
        Members { items, gone: 0 }
    }

    pub fn copy(&self, alloc: Global) -> Result<Members, NoMemory>
        ensures { IfOk result (λ members. members ≡ self.now) }
    {
        Ok(Members::from_vec(self.as_slice().to_vec(alloc)?))
    }

    /// Replaces the members by copies of others, in existing room.
    #[inline(always)]
    pub fn copy_from(&mut self, others: &Members) -> Result<(), NoMemory>
        ensures { OnOk result (self.new ≡ others.now) }
    {
        self.gone = 0;
        refill(&mut self.items, others.as_slice())
    }

    #[inline(always)]
    pub fn as_slice(&self) -> &[Value]
        ensures members { result.now ≡ self.now }
        ensures few { length result.now ≤ 2147483647 }
    {
        &self.items[self.gone..]
    }

    /// The member at a position, if there is one.
    #[inline(always)]
    pub fn get(&self, at: usize) -> Option<Value>
        ensures { result ≡ slice_get self.now at }
    {
        self.as_slice().get(at).copied()
    }

    /// Replaces the member at a position, if there is one.
    #[inline(always)]
    #[tactic(auto, using(crate::proofs::Parts::drop_replaced))]
    pub fn set(&mut self, at: usize, member: Value)
        ensures { self.new ≡ slice_set self.old at member }
    {
        if at < self.items.len() - self.gone {
            self.items[self.gone + at] = member;
        }
    }

    // Gives back the room of removed items.
    #[cold]
    #[inline(never)]
    fn compact(&mut self)
        ensures { self.new ≡ self.old }
    {
        self.items.drain(..self.gone);
        self.gone = 0;
    }

    /// Adds a member at the end.
    pub fn push(&mut self, member: Value) -> Result<(), NoMemory>
        ensures added { OnOk result (self.new ≡ self.old ++ member ∷ []) }
        ensures unchanged { OnErr result (self.new ≡ self.old) }
    {
        if self.as_slice().len() >= 2147483647 {
            return Err(too_many(self.as_slice()));
        }
        if self.items.len() / 2 < self.gone {
            self.compact();
        }
        append(&mut self.items, member)
    }

    /// Removes the first member.
    #[inline(always)]
    pub fn pop_first(&mut self) -> Option<Value>
        ensures { MatchOption result ((self.old ≡ []) × (self.new ≡ [])) (λ m. self.old ≡ m ∷ self.new) }
    {
        let first = *self.as_slice().first()?;
        self.gone += 1;
        Some(first)
    }

    /// Removes the member at a position.
    #[tactic(auto, using(crate::proofs::Parts::drop_removed))]
    pub fn remove(&mut self, at: usize)
        requires { at < length self.old }
        ensures { self.new ≡ remove self.old at }
    {
        let _ = self.items.remove(self.gone + at);
    }

    /// Keeps the first members only.
    #[tactic(auto, using(crate::proofs::Parts::drop_taken))]
    pub fn truncate(&mut self, count: usize)
        ensures { self.new ≡ take count self.old }
    {
        if count < self.items.len() - self.gone {
            self.items.truncate(self.gone + count);
        }
    }
}
