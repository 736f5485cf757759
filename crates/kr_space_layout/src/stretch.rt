// Stretches: entries of domains with all that their values are made of.
ghost use Rattle.std.specs.Prelude.{◌≡◌, ◌<◌, ◌≤◌, ◌+◌, ◌-◌, ◌^◌, ◌+ℤ◌, pos, min};
ghost use Rattle.std.proofs.Common.{get_or};
ghost use Rattle.kr_mean.specs.Space.{no_choice};
ghost use Rattle.kr_space_layout.specs.Items.{width_between};
ghost use Rattle.kr_space_layout.specs.Stretches.{Fits, choices_of, chosen, count_of, no_block, stretch_of};

use crate::DomainEntry;
use kr_iso::Object;
use kr_value::Value;

/// The objects of a class domain: the domain's number, the first object's number in the heap, and how many there are.
#[derive(Clone, Copy, PartialEq, Eq)]
pub struct Block {
    pub domain: u32,
    pub first: u32,
    pub count: u32,
}

/// Some consecutive values of a domain: a plain value, the integers from one to another, both included, or the objects of a
/// class domain.
#[derive(Clone, Copy, PartialEq, Eq)]
pub enum Stretch {
    Plain(Value),
    Integers(i64, i64),
    Objects(Block),
}

/// A value of a domain, and the object that it is where it is one.
#[derive(Clone, Copy, PartialEq, Eq)]
pub struct Chosen {
    pub value: Value,
    pub object: Option<Object>,
}

/// How many integers there are from one to another, both included.
fn width_of(from: i64, to: i64) -> u128
    ensures is { result ≡ width_between from to }
    ensures few { result ≤ 2 ^ 64 }
{
    if from <= to {
        u128::from(to.abs_diff(from)) + 1
    } else {
        0
    }
}

/// The integer so many places after the first.
#[inline(always)]
fn integer_at(from: i64, to: i64, index: u32) -> i64
    requires { index < width_between from to }
    ensures { result ≡ from +ℤ pos index }
{
    (i128::from(from) + i128::from(index)) as i64
}

impl Stretch {
    /// An entry, where these are the objects of the class domains.
    pub fn of(item: DomainEntry, blocks: &[Block]) -> Stretch
        ensures { result ≡ stretch_of blocks.now item }
    {
        match item {
            DomainEntry::Plain(value) => Stretch::Plain(value),
            DomainEntry::Integers(from, to) => Stretch::Integers(from, to),
            DomainEntry::Objects(domain) => Stretch::Objects(block_at(blocks, domain)),
        }
    }

    /// How many values it has.
    pub fn count(self) -> u128
        ensures is { result ≡ count_of self }
        ensures few { result ≤ 2 ^ 64 }
    {
        match self {
            Stretch::Plain(_) => 1,
            Stretch::Integers(from, to) => width_of(from, to),
            Stretch::Objects(block) => u128::from(block.count),
        }
    }

    /// How many values it has, as far as a number of 64 bits goes.
    pub fn capped_count(self) -> u64
        ensures { result ≡ min (count_of self) (2 ^ 64 - 1) }
    {
        u64::try_from(self.count()).unwrap_or(u64::MAX)
    }

    /// The value at an index.
    #[inline(always)]
    pub fn at(self, index: u32) -> Chosen
        requires index { index < count_of self }
        requires fits { Fits self }
        ensures { chosen result ≡ get_or (choices_of self) index no_choice }
    {
        match self {
            Stretch::Plain(value) => Chosen {
                value,
                object: None,
            },
            Stretch::Integers(from, to) => Chosen {
                value: Value::Int(integer_at(from, to, index)),
                object: None,
            },
            Stretch::Objects(block) => Chosen {
                value: Value::Ref(block.first + index),
                object: Some(Object {
                    domain: block.domain,
                    number: index,
                }),
            },
        }
    }
}

/// The objects of a class domain; of one that isn't there none.
fn block_at(blocks: &[Block], domain: u32) -> Block
    ensures { result ≡ get_or blocks.now domain (no_block domain) }
{
    let at = domain as usize;
    if at < blocks.len() {
        blocks[at]
    } else {
        Block {
            domain,
            first: 0,
            count: 0,
        }
    }
}
