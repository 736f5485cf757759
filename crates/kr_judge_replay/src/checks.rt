// Checkpoints of earlier runs, the last one on top.
ghost use Rattle.std.specs.Prelude.{◌≡◌, ◌++◌, ◌∷◌, [], ◌<◌, ◌≤◌, ◌-◌, ℕ, IfOk, IfSome, OnOk, OnErr, length, take, true};
ghost use Rattle.std.specs.List.{All};
ghost use Rattle.std.proofs.Common.{get_or};
ghost use Rattle.kr_judge_replay.specs.Vocabulary.{At, Element, is_read, Length, place_of};
ghost use Rattle.kr_judge_replay.specs.Kept.{IsClosed};
ghost use Rattle.kr_judge_replay.specs.Ascending.{Ascend, HadRead};
ghost use Rattle.kr_judge_replay.specs.Foretelling.{IsForeseen, ReadOn};
ghost use Rattle.kr_judge_replay.specs.Going.{Adds, IsCheckOf, IsCopyOf, IsHeld, IsLastOf, Wakes};

use crate::check::{Check, Foreseen, resume};
use kr_base::NoMemory;
use kr_code::Code;
use kr_judge::Accesses;
use kr_run_frames::{Stack, Task};
use kr_run_state::{Action, Reads, World};
use kr_value::{SlotPlace, Spot};
use std::alloc::Global;
use std::marker::Model;

/// The start of a run: the condition, the next task, and how many places it has read before.
#[derive(Drop)]
pub(crate) struct Start {
    pub(crate) condition: usize,
    pub(crate) task: Task,
    pub(crate) count: usize,
}

/// Checkpoints. Contracts see the list of them; after those there is room for others. The reads of a later one begin with those
/// of an earlier one.
#[derive(Drop)]
pub(crate) struct Checks {
    items: Vec<Check>,
    count: usize,
}

impl Model for Checks {
    ghost use Rattle.std.specs.Prelude.{List, take, vec_len, ◌≤◌};
    ghost use Rattle.kr_judge_replay.specs.Ascending.{Ascend};
    ghost use Rattle.kr_judge_replay.specs.declared.check.Check.{Check as Checkpoint};

    ghost Value = { List Checkpoint };

    ghost view = { λ c. take c.count c.items.items };

    ghost invariant = { λ c. (c.count ≤ vec_len c.items) × Ascend (take c.count c.items.items) };
}

/// Makes sure that there is a checkpoint at a position, at most one more than there are.
fn make_room(alloc: Global, items: &mut Vec<Check>, count: usize) -> Result<(), NoMemory>
    requires { count ≤ length items.old.items }
    ensures same { take count items.new.items ≡ take count items.old.items }
    ensures long { count ≤ length items.new.items }
    ensures room { OnOk result (count < length items.new.items) }
{
    if count < items.len() {
        return Ok(());
    }
    items.push(Check::blank(alloc))?;
    Ok(())
}

/// How many checkpoints had read at most so many places.
fn up_to(checks: &Checks, places: usize) -> usize
    ensures fewer { result ≤ length checks.now }
    ensures few { All (HadRead places) (take result checks.now) }
{
    let mut left = checks.len();
    'checks: while left > 0 {
        if checks.places_at(left - 1) <= places {
            return left;
        }
        left -= 1;
    }
    0
}

/// How many checkpoints a candidate holds to that has the indices of the last run at so many of its first slots.
fn holding(checks: &Checks, accesses: &Accesses, fresh: usize) -> usize
    ensures fewer { result ≤ length checks.now }
    ensures fresh { fresh ≡ 0 → result ≡ 0 }
    ensures held { All (IsHeld accesses.now fresh) (take result checks.now) }
{
    if fresh == 0 {
        return 0;
    }
    let mut left = checks.len();
    'checks: while left > 0 {
        if accesses.slots_before(checks.places_at(left - 1)) <= fresh {
            return left;
        }
        left -= 1;
    }
    0
}

/// Whether the length of an array was read, if a place is one of its elements.
fn is_closed(reads: &Reads, place: SlotPlace) -> bool
    ensures { result ≡ true → (o i : ℕ) → place_of place ≡ At o (Element i) → is_read (At o Length) reads.now ≡ true }
{
    let SlotPlace::At(object, spot) = place else {
        return true;
    };
    match spot {
        Spot::Element(_) => reads.contains(SlotPlace::At(object, Spot::Length)),
        Spot::Field(_) => true,
        Spot::Length => true,
    }
}

/// Whether of each array an element of which was read the length was, too.
fn are_closed(reads: &Reads) -> bool
    ensures { result ≡ true → IsClosed reads.now }
{
    let places = reads.as_slice();
    for place in places {
        if !is_closed(reads, *place) {
            return false;
        }
    }
    true
}

impl Checks {
    /// No checkpoints. It takes no memory.
    pub(crate) fn new(alloc: Global) -> Checks
        ensures { result ≡ [] }
    {
        Checks {
            items: Vec::new(alloc),
            count: 0,
        }
    }

    /// No checkpoints; the room stays.
    pub(crate) fn clear(&mut self)
        ensures { self.new ≡ [] }
    {
        self.count = 0;
    }

    #[inline(always)]
    fn len(&self) -> usize
        ensures is { result ≡ length self.now }
        ensures ascend { Ascend self.now }
    {
        self.count
    }

    /// How many places one had read.
    #[inline(always)]
    fn places_at(&self, at: usize) -> usize
        requires { at < length self.now }
        ensures { (other : Check) → result ≡ (get_or self.now at other).count }
    {
        self.items[at].count
    }

    /// The first ones alone.
    #[inline(always)]
    fn truncate(&mut self, count: usize)
        ensures { self.new ≡ take count self.old }
    {
        if count < self.count {
            self.count = count;
        }
    }

    /// One more, of the position of a run that has read as many places as the others, at least.
    fn add(
        &mut self,
        alloc: Global,
        condition: usize,
        action: Action,
        stack: &Stack,
        world: &World,
    ) -> Result<(), NoMemory>
        requires { All (HadRead (length world.now.reads)) self.old }
        ensures kept { OnOk result ((check : Check) × IsCopyOf condition action stack.now world.now check × (self.new ≡ self.old ++ check ∷ [])) }
        ensures unchanged { OnErr result (self.new ≡ self.old) }
    {
        make_room(alloc, &mut self.items, self.count)?;
        self.items[self.count].fill(alloc, condition, action, stack, world)?;
        self.count += 1;
        Ok(())
    }

    /// One more, of a run's position, unless an element was read of an array whose length wasn't.
    pub(crate) fn keep(
        &mut self,
        alloc: Global,
        condition: usize,
        action: Action,
        stack: &Stack,
        world: &World,
    ) -> Result<(), NoMemory>
        ensures { Adds (IsCheckOf condition action stack.now world.now) self.old self.new }
    {
        if !are_closed(&world.reads) {
            return Ok(());
        }
        let count = up_to(&*self, world.reads.as_slice().len());
        self.truncate(count);
        match self.add(alloc, condition, action, stack, world) {
            Ok(()) => Ok(()),
            Err(why) => Err(why),
        }
    }

    /// Those alone that a candidate holds to that has the indices of the last run at so many of its first slots.
    pub(crate) fn cut(&mut self, accesses: &Accesses, fresh: usize)
        ensures front { (n : ℕ) × (self.new ≡ take n self.old) }
        ensures fresh { fresh ≡ 0 → self.new ≡ [] }
        ensures held { All (IsHeld accesses.now fresh) self.new }
    {
        let count = holding(&*self, accesses, fresh);
        self.truncate(count);
    }

    /// The value of a run that goes on from the last one, if there is one, where that is known at once.
    #[inline(always)]
    pub(crate) fn foresee(
        &mut self,
        code: &Code,
        world: &mut World,
    ) -> Result<Option<Foreseen>, NoMemory>
        ensures same { self.new ≡ self.old }
        ensures candidates { world.new.candidates ≡ world.old.candidates }
        ensures reads { OnOk result (ReadOn self.old world.old.reads world.new.reads) }
        ensures foreseen { IfOk result (λ found. IfSome found (λ f. (check : Check) × IsLastOf check self.old × IsForeseen code.now check world.old world.new f)) }
    {
        if self.count == 0 {
            return Ok(None);
        }
        let found = self.items[self.count - 1].foresee(code, world)?;
        Ok(found)
    }

    /// Goes on from the last one, if there is one.
    pub(crate) fn wake(
        &self,
        alloc: Global,
        world: &mut World,
        stack: &mut Stack,
    ) -> Result<Option<Start>, NoMemory>
        ensures woken { IfOk result (λ found. IfSome found (λ start. Wakes self.now start world.old.reads stack.new world.new)) }
        ensures candidates { world.new.candidates ≡ world.old.candidates }
        ensures frozen { world.new.is_frozen ≡ world.old.is_frozen }
    {
        if self.count == 0 {
            return Ok(None);
        }
        let check = &self.items[self.count - 1];
        resume(alloc, world, &check.world)?;
        world.reads.truncate(check.count);
        stack.copy_from(alloc, &check.stack)?;
        Ok(Some(Start {
            condition: check.condition,
            task: Task::Act(check.action),
            count: check.count,
        }))
    }
}
