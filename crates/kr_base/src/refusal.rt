// Refusals of the user's input: the broken rule, and where.
ghost use Rattle.std.specs.Prelude.{◌≡◌, IfOk};
ghost use Rattle.kr_base.specs.declared.refusal.RefusalAt.TheVariants.{NoMemory as LackingAt};
ghost use Rattle.kr_base.specs.declared.refusal.RefusalOf.TheVariants.{NoMemory as LackingOf};

use crate::{NoMemory, Place};
use std::alloc::Global;
use std::marker::Model;

/// The refusal of a source: a rule broken at a place, or no memory.
#[derive(Clone, Copy, PartialEq, Eq)]
pub enum RefusalAt<R> {
    Broken { place: Place, rule: R },
    NoMemory(NoMemory),
}

impl<R> From<NoMemory> for RefusalAt<R> {
    ghost from_gives = { λ why refusal. refusal ≡ LackingAt why };

    fn from(why: NoMemory) -> RefusalAt<R> {
        RefusalAt::NoMemory(why)
    }
}

/// The name of an item of a finitization, as `fields.C.f`. Contracts see its bytes.
#[derive(Drop)]
pub struct ItemName {
    bytes: Vec<u8>,
}

impl Model for ItemName {
    ghost use Rattle.std.specs.Prelude.{List, ℕ};

    ghost Value = { List ℕ };

    ghost view = { λ n. n.bytes.items };
}

impl ItemName {
    pub fn of(alloc: Global, bytes: &[u8]) -> Result<ItemName, NoMemory>
        ensures { IfOk result (λ copy. copy ≡ bytes.now) }
    {
        Ok(ItemName {
            bytes: Vec::from_slice(alloc, bytes)?,
        })
    }

    pub fn as_bytes(&self) -> &[u8]
        ensures { result.now ≡ self.now }
    {
        self.bytes.as_slice()
    }
}

/// A broken rule with the item that breaks it.
#[derive(Drop)]
pub struct Fault<R> {
    pub rule: R,
    pub item: ItemName,
}

/// The refusal of a finitization: a rule broken by an item, or no memory.
#[derive(Drop)]
pub enum RefusalOf<R> {
    Broken(Fault<R>),
    NoMemory(NoMemory),
}

impl<R> From<NoMemory> for RefusalOf<R> {
    ghost from_gives = { λ why refusal. refusal ≡ LackingOf why };

    fn from(why: NoMemory) -> RefusalOf<R> {
        RefusalOf::NoMemory(why)
    }
}
