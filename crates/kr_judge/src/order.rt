// The order in which slots come, each once.
ghost use Rattle.std.specs.Prelude.{◌≡◌, ◌==◌, ◌≤◌, ℕ, [], OnOk, false, if◌then◌else◌, length, take};
ghost use Rattle.std.proofs.Common.{get_or};
ghost use Rattle.kr_mean.specs.Runs.{contains_number};
ghost use Rattle.kr_judge.specs.Orders.{AreMarked, EachOnce, with_slot};

use kr_base::NoMemory;
use kr_space_layout::{is_marked, mark};
use std::alloc::Global;
use std::marker::Model;

/// Slots, each once, in the order in which they came. Contracts see the list.
#[derive(Drop)]
pub struct Order {
    slots: Vec<u32>,
    marks: Vec<bool>,
}

impl Model for Order {
    ghost use Rattle.std.specs.Prelude.{List, ℕ};
    ghost use Rattle.kr_mean.specs.Runs.{contains_number};
    ghost use Rattle.kr_judge.specs.Orders.{AreMarked, EachOnce};

    ghost Value = { List ℕ };

    ghost view = { λ o. o.slots.items };

    ghost invariant = { λ o. AreMarked o.marks.items o.slots.items × EachOnce o.slots.items };
}

/// A number isn't marked any more.
fn unmark(marks: &mut Vec<bool>, number: u32)
    ensures { (m : ℕ) → get_or marks.new.items m false ≡ (if m == number then false else get_or marks.old.items m false) }
{
    let at = number as usize;
    if at < marks.len() {
        marks[at] = false;
    }
}

/// How many of the first slots, of so many, come before one.
fn first_without(slots: &[u32], count: usize, slot: u32) -> usize
    requires { EachOnce slots.now }
    ensures few { result ≤ count }
    ensures none { contains_number (take result slots.now) slot ≡ false }
{
    let all = slots.len().min(count);
    let mut left = all;
    'slots: while left > 0 {
        left -= 1;
        if slots[left] == slot {
            return left;
        }
    }
    all
}

/// The first slots alone stay, and are marked.
fn cut(slots: &mut Vec<u32>, marks: &mut Vec<bool>, count: usize)
    requires marked { AreMarked marks.old.items slots.old.items }
    requires once { EachOnce slots.old.items }
    ensures marked { AreMarked marks.new.items slots.new.items }
    ensures once { EachOnce slots.new.items }
    ensures cut { slots.new.items ≡ take count slots.old.items }
{
    'slots: while slots.len() > count {
        match slots.pop() {
            None => return,
            Some(slot) => unmark(marks, slot),
        }
    }
}

impl Order {
    /// No slots. It takes no memory.
    pub fn new(alloc: Global) -> Order
        ensures { result ≡ [] }
    {
        Order {
            slots: Vec::new(alloc),
            marks: Vec::new(alloc),
        }
    }

    /// No slots; the room stays.
    pub fn clear(&mut self)
        ensures { self.new ≡ [] }
    {
        self.slots.clear();
        self.marks.clear();
    }

    /// The first slots alone. It takes as long as there are others.
    pub fn truncate(&mut self, count: usize)
        ensures { self.new ≡ take count self.old }
    {
        cut(&mut self.slots, &mut self.marks, count);
    }

    /// How many of the first slots, of so many, come before one. It looks from the last of them on.
    #[inline(always)]
    pub fn first_without(&self, count: usize, slot: u32) -> usize
        ensures few { result ≤ count }
        ensures none { contains_number (take result self.now) slot ≡ false }
    {
        first_without(self.slots.as_slice(), count, slot)
    }

    /// How many slots there are.
    pub fn len(&self) -> usize
        ensures { result ≡ length self.now }
    {
        self.slots.len()
    }

    /// A slot comes. Once there is room for it, it takes constant time and no memory; where memory is refused, what came
    /// before may be gone.
    pub fn add(&mut self, slot: u32) -> Result<(), NoMemory>
        ensures { OnOk result (self.new ≡ with_slot self.old slot) }
    {
        if is_marked(self.marks.as_slice(), slot) {
            return Ok(());
        }
        mark(&mut self.marks, slot)?;
        match self.slots.push(slot) {
            Ok(()) => Ok(()),
            Err(failed) => {
                self.slots.clear();
                self.marks.clear();
                Err(NoMemory::from(failed))
            }
        }
    }

    /// The slots, in order.
    pub fn as_slice(&self) -> &[u32]
        ensures { result.now ≡ self.now }
    {
        self.slots.as_slice()
    }
}
