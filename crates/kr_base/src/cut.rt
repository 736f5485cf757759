// Cuts: keys of candidates, in lexicographic order.
ghost use Rattle.std.specs.Prelude.{◌≡◌, [], decimal, IfOk, OnOk, IsTrue, ◌↔◌};
ghost use Rattle.std.specs.Ordering.{nat_cmp};
ghost use Rattle.std.specs.Cmp.Lexicographic.{slice_cmp};
ghost use Rattle.kr_base.specs.Told.{Writes};
ghost use Rattle.kr_base.specs.Cuts.{cut_text, dotted, is_before};

mod raising;
mod reading;

use crate::NoMemory;
use crate::sink::{Failed, Sink, put_all};
use itoa::Buffer;
pub use reading::CutRefusal;
use std::alloc::Global;
use std::cmp::Ordering;
use std::marker::Model;

/// The key of a candidate, a list of numbers. Contracts see the list.
#[derive(Drop)]
pub struct Cut {
    numbers: Vec<u32>,
}

impl Model for Cut {
    ghost use Rattle.std.specs.Prelude.{List, ℕ};

    ghost Value = { List ℕ };

    ghost view = { λ c. c.numbers.items };
}

/// Writes a number in decimal.
pub fn put_number<K: Sink>(out: &mut K, number: u32) -> Result<(), Failed>
    ensures { Writes K.taken K.faults out.old out.new (decimal number) result }
{
    let mut buffer = Buffer::new();
    put_all(out, buffer.format(number).as_bytes())
}

fn put_dotted<K: Sink>(out: &mut K, number: u32) -> Result<(), Failed>
    ensures { Writes K.taken K.faults out.old out.new (dotted number) result }
{
    put_all(out, b".")?;
    put_number(out, number)
}

impl Cut {
    /// Allocates nothing.
    pub fn new(numbers: Vec<u32>) -> Self
        ensures { result ≡ numbers.items }
    {
        Cut { numbers }
    }

    /// The least cut. Allocates nothing.
    pub fn empty(alloc: Global) -> Self
        ensures { result ≡ [] }
    {
        Cut {
            numbers: Vec::new(alloc),
        }
    }

    pub fn numbers(&self) -> &[u32]
        ensures { result.now ≡ self.now }
    {
        self.numbers.as_slice()
    }

    pub fn into_numbers(self) -> Vec<u32>
        ensures { result.items ≡ self }
    {
        self.numbers
    }

    /// Becomes the cut of these numbers, in the memory that it has.
    pub fn assign(&mut self, numbers: &[u32]) -> Result<(), NoMemory>
        ensures { OnOk result (self.new ≡ numbers.now) }
    {
        self.numbers.clear();
        self.numbers.extend_from_slice(numbers)?;
        Ok(())
    }

    pub fn try_clone(&self) -> Result<Cut, NoMemory>
        ensures { IfOk result (λ copy. copy ≡ self.now) }
    {
        Ok(Cut {
            numbers: self.numbers.clone()?,
        })
    }

    /// Lexicographic, a proper prefix first.
    pub fn compare(&self, other: &Cut) -> Ordering
        ensures { result ≡ slice_cmp nat_cmp self.now other.now }
    {
        self.numbers.as_slice().cmp(other.numbers.as_slice())
    }

    pub fn is_below(&self, other: &Cut) -> bool
        ensures { result ≡ is_before self.now other.now }
    {
        self.compare(other) == Ordering::Less
    }

    pub fn is_same(&self, other: &Cut) -> bool
        ensures { IsTrue result ↔ (self.now ≡ other.now) }
    {
        self.numbers.as_slice() == other.numbers.as_slice()
    }

    /// Writes the numbers in decimal, joined by dots. The empty cut has no text.
    pub fn write<K: Sink>(&self, out: &mut K) -> Result<(), Failed>
        ensures { Writes K.taken K.faults out.old out.new (cut_text self.now) result }
    {
        let Some((first, rest)) = self.numbers.as_slice().split_first() else {
            return Ok(());
        };
        put_number(out, *first)?;
        for number in rest {
            put_dotted(out, *number)?;
        }
        Ok(())
    }
}
