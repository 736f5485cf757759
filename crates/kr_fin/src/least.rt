// The least of the faults that were met, of the rules of a document alone and beside a program.
ghost use Rattle.std.specs.Prelude.{◌≡◌, ℕ, None, OnOk};
ghost use Rattle.kr_fin.specs.Least.{comes_before, lesser};

use kr_base::{Fault, ItemName, NoMemory};
use std::alloc::Global;
use std::cmp::Ordering;
use std::marker::Model;

/// A rule with its number in the order in which broken rules are named.
pub trait Ranked: Copy {
    ghost rank_of: { Self → ℕ };

    fn rank(self) -> u32
        ensures { result ≡ rank_of self };
}

/// The least of the faults that were met, if there were any.
#[derive(Drop)]
pub struct Least<R> {
    alloc: Global,
    fault: Option<Fault<R>>,
}

impl<R> Model for Least<R> {
    ghost use Rattle.std.specs.Prelude.{Option};
    ghost use Rattle.kr_base.specs.declared.refusal.Fault.{Fault};

    ghost Value = { Option (Fault R) };

    ghost view = { λ l. l.fault };
}

/// Whether the rule broken at the item comes before the fault: the least rule first, then the least item.
fn is_before<R: Ranked>(rule: R, item: &[u8], fault: &Fault<R>) -> bool
    ensures { result ≡ comes_before R.rank_of (record { rule = rule; item = item.now }) fault.now }
{
    match rule.rank().cmp(&fault.rule.rank()) {
        Ordering::Less => true,
        Ordering::Equal => item.cmp(fault.item.as_bytes()) == Ordering::Less,
        Ordering::Greater => false,
    }
}

impl<R: Ranked> Least<R> {
    /// None was met yet.
    pub fn new(alloc: Global) -> Self
        ensures { result ≡ None }
    {
        Least { alloc, fault: None }
    }

    /// Notes that a rule is broken at an item.
    pub fn note_at(&mut self, rule: R, item: &[u8]) -> Result<(), NoMemory>
        ensures { OnOk result (self.new ≡ lesser R.rank_of self.old (record { rule = rule; item = item.now })) }
    {
        let is_least = match &self.fault {
            Some(fault) => is_before(rule, item, fault),
            None => true,
        };
        if is_least {
            let item = ItemName::of(self.alloc, item)?;
            self.fault = Some(Fault { rule, item });
        }
        Ok(())
    }

    /// Likewise with the item as a text.
    pub fn note(&mut self, rule: R, item: &str) -> Result<(), NoMemory>
        ensures { OnOk result (self.new ≡ lesser R.rank_of self.old (record { rule = rule; item = item.now })) }
    {
        self.note_at(rule, item.as_bytes())
    }

    /// The allocator.
    pub fn alloc(&self) -> Global {
        self.alloc
    }

    /// The least fault, if any was met.
    pub fn into_fault(self) -> Option<Fault<R>>
        ensures { result ≡ self }
    {
        let Least { alloc: _, fault } = self;
        fault
    }
}
