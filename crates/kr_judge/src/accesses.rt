// The order of slots of the last run: of it the next run keeps what both have read from the start.
ghost use Rattle.std.specs.Prelude.{◌≡◌, ◌<◌, ◌≤◌, ◌^◌, ◌++◌, ◌⊎◌, [], OnOk, List, ℕ, flat_map, if◌then◌else◌, length, map, reverse, take, true};
ghost use Rattle.kr_judge.specs.Vocabulary.{bare, is_accepted, IsVector, IsWellFormed, Place, place_of, slots, slots_for, space_of, walk};
ghost use Rattle.kr_judge.specs.Follows.{AreOf, Follow, HaveCome, place_in};
ghost use Rattle.kr_judge.specs.Orders.{with_slots};
ghost use Rattle.kr_judge.specs.Runs.{end_said};

use crate::order::Order;
use crate::places::slot_of;
use kr_base::NoMemory;
use kr_build::Walk;
use kr_mean::Stop;
use kr_run_state::Reads;
use kr_space_layout::Layout;
use kr_value::{SlotPlace, Spot};
use kr_vector::Vector;
use std::alloc::Global;

/// A place that was read, and how many slots had come before it.
#[derive(Clone, Copy)]
pub struct Access {
    pub place: SlotPlace,
    pub before: usize,
}

/// The places that a run has read, and the order of its slots: so many are theirs, and the others are reachable ones.
#[derive(Drop)]
pub struct Accesses {
    pub order: Order,
    pub places: Vec<Access>,
    pub count: usize,
    pub walk: Walk,
}

/// The first places alone stay, with their slots.
fn go_back(order: &mut Order, places: &mut Vec<Access>, count: usize)
    ensures places { places.new.items ≡ take count places.old.items }
    ensures order { (slots_of : Place → List ℕ) → AreOf slots_of (reverse places.old.items) order.old → AreOf slots_of (reverse places.new.items) order.new }
{
    'places: while places.len() > count {
        match places.pop() {
            None => return,
            Some(access) => order.truncate(access.before),
        }
    }
}

/// The slot of a place comes, if a candidate has the place.
fn add_place(order: &mut Order, layout: &Layout, place: SlotPlace) -> Result<(), NoMemory>
    requires well { IsWellFormed (bare layout.now) }
    requires small { length (slots (bare layout.now)) < 2 ^ 31 }
    ensures { OnOk result (order.new ≡ with_slots order.old (slots_for (bare layout.now) (place_of place))) }
{
    match slot_of(layout, place) {
        None => Ok(()),
        Some(slot) => order.add(slot),
    }
}

/// Places come, with their slots.
fn add_places(
    order: &mut Order,
    places: &mut Vec<Access>,
    layout: &Layout,
    reads: &[SlotPlace],
) -> Result<(), NoMemory>
    requires well { IsWellFormed (bare layout.now) }
    requires small { length (slots (bare layout.now)) < 2 ^ 31 }
    requires order { AreOf (slots_for (bare layout.now)) (reverse places.old.items) order.old }
    ensures places { OnOk result (map place_in places.new.items ≡ map place_in places.old.items ++ map place_of reads.now) }
    ensures order { OnOk result (AreOf (slots_for (bare layout.now)) (reverse places.new.items) order.new) }
{
    'reads: for place in reads {
        let before = order.len();
        add_place(order, layout, *place)?;
        places.push(Access {
            place: *place,
            before,
        })?;
    }
    Ok(())
}

#[inline(always)]
fn is_same(a: SlotPlace, b: SlotPlace) -> bool
    ensures { result ≡ true → a ≡ b }
{
    match (a, b) {
        (SlotPlace::This, SlotPlace::This) => true,
        (SlotPlace::Parameter(i), SlotPlace::Parameter(j)) => i == j,
        (SlotPlace::At(o, Spot::Field(f)), SlotPlace::At(p, Spot::Field(g))) => o == p && f == g,
        (SlotPlace::At(o, Spot::Length), SlotPlace::At(p, Spot::Length)) => o == p,
        (SlotPlace::At(o, Spot::Element(i)), SlotPlace::At(p, Spot::Element(j))) => {
            o == p && i == j
        }
        _ => false,
    }
}

/// How many places are the same from the start.
#[inline(always)]
fn common(places: &[Access], reads: &[SlotPlace]) -> usize
    ensures few { result ≤ length places.now }
    ensures read { result ≤ length reads.now }
    ensures same { map place_in (take result places.now) ≡ map place_of (take result reads.now) }
{
    let mut count = 0;
    'places: while count < places.len() && count < reads.len() {
        if !is_same(places[count].place, reads[count]) {
            return count;
        }
        count += 1;
    }
    count
}

/// A number that is at most both others; else 0.
#[inline(always)]
fn within(number: usize, a: usize, b: usize) -> usize
    ensures first { result ≤ a }
    ensures second { result ≤ b }
    ensures is { (result ≡ number) ⊎ (result ≡ 0) }
{
    if number <= a && number <= b {
        number
    } else {
        0
    }
}

/// How many places are equal from the start, where so many are; only those after them are looked at.
#[inline(always)]
fn alike(places: &[Access], reads: &[SlotPlace], shared: usize) -> usize
    ensures few { result ≤ length places.now }
    ensures read { result ≤ length reads.now }
    ensures same { take shared (map place_in places.now) ≡ take shared (map place_of reads.now) → map place_in (take result places.now) ≡ map place_of (take result reads.now) }
{
    let from = within(shared, places.len(), reads.len());
    let more = common(&places[from..], &reads[from..]);
    from + more
}

/// The places become those of a run, so many of which are there from the start, and the order that of their slots.
fn follow(
    order: &mut Order,
    places: &mut Vec<Access>,
    layout: &Layout,
    reads: &[SlotPlace],
    shared: usize,
) -> Result<(), NoMemory>
    requires well { IsWellFormed (bare layout.now) }
    requires small { length (slots (bare layout.now)) < 2 ^ 31 }
    requires old { AreOf (slots_for (bare layout.now)) (reverse places.old.items) order.old }
    ensures places { OnOk result (AreOf (slots_for (bare layout.now)) (reverse places.new.items) order.new) }
    ensures order { OnOk result (take shared (map place_in places.old.items) ≡ take shared (map place_of reads.now) → order.new ≡ with_slots [] (flat_map (slots_for (bare layout.now)) (map place_of reads.now))) }
    ensures read { OnOk result (take shared (map place_in places.old.items) ≡ take shared (map place_of reads.now) → map place_in places.new.items ≡ map place_of reads.now) }
{
    let count = alike(places.as_slice(), reads, shared);
    go_back(order, places, count);
    add_places(order, places, layout, &reads[count..])?;
    Ok(())
}

/// Slots come.
fn add_slots(order: &mut Order, slots: &[u32]) -> Result<(), NoMemory>
    ensures { OnOk result (order.new ≡ with_slots order.old slots.now) }
{
    for slot in slots {
        order.add(*slot)?;
    }
    Ok(())
}

/// Where a run accepts, the slots that are reachable come.
fn add_reachable(
    end: Result<bool, Stop>,
    order: &mut Order,
    reachable: &mut Walk,
    layout: &Layout,
    vector: &Vector,
) -> Result<(), NoMemory>
    requires well { IsWellFormed (bare layout.now) }
    requires vector { IsVector (space_of (bare layout.now)) vector.now }
    requires small { length (slots (bare layout.now)) < 2 ^ 31 }
    ensures { OnOk result (order.new ≡ with_slots order.old (if is_accepted (end_said end) then walk (bare layout.now) vector.now else [])) }
{
    match end {
        Ok(true) => {
            reachable.walk(layout, vector)?;
            add_slots(order, reachable.slots())
        }
        Ok(false) => Ok(()),
        Err(Stop::Trapped(_)) => Ok(()),
        Err(Stop::OutOfFuel) => Ok(()),
        Err(Stop::Stuck) => Ok(()),
    }
}

impl Accesses {
    /// Nothing was read. It takes no memory.
    pub fn new(alloc: Global) -> Accesses
        ensures order { result.order ≡ [] }
        ensures follow { (slots_of : Place → List ℕ) → Follow slots_of result }
    {
        Accesses {
            order: Order::new(alloc),
            places: Vec::new(alloc),
            count: 0,
            walk: Walk::new(alloc),
        }
    }

    /// Nothing was read; the room stays.
    pub(crate) fn forget(&mut self)
        ensures { (slots_of : Place → List ℕ) → Follow slots_of self.new }
    {
        self.order.clear();
        self.places.clear();
        self.count = 0;
    }

    /// How many of the first slots are those of so many of the first places.
    #[inline(always)]
    pub fn slots_before(&self, places: usize) -> usize
        ensures { (slots_of : Place → List ℕ) → Follow slots_of self.now → HaveCome slots_of (take places (map place_in self.now.places.items)) (take result self.now.order) }
    {
        if places < self.places.len() {
            self.places[places].before
        } else {
            self.count
        }
    }

    /// Becomes those of a run; where memory is refused, what is there is no run's.
    fn fill(
        &mut self,
        layout: &Layout,
        vector: &Vector,
        end: Result<bool, Stop>,
        reads: &Reads,
        shared: usize,
    ) -> Result<(), NoMemory>
        requires well { IsWellFormed (bare layout.now) }
        requires vector { IsVector (space_of (bare layout.now)) vector.now }
        requires small { length (slots (bare layout.now)) < 2 ^ 31 }
        requires follow { Follow (slots_for (bare layout.now)) self.old }
        ensures follow { OnOk result (Follow (slots_for (bare layout.now)) self.new) }
        ensures order { OnOk result (take shared (map place_in self.old.places.items) ≡ take shared reads.now → self.new.order ≡ with_slots (with_slots [] (flat_map (slots_for (bare layout.now)) reads.now)) (if is_accepted (end_said end) then walk (bare layout.now) vector.now else [])) }
        ensures read { OnOk result (take shared (map place_in self.old.places.items) ≡ take shared reads.now → map place_in self.new.places.items ≡ reads.now) }
    {
        self.order.truncate(self.count);
        follow(
            &mut self.order,
            &mut self.places,
            layout,
            reads.as_slice(),
            shared,
        )?;
        self.count = self.order.len();
        add_reachable(end, &mut self.order, &mut self.walk, layout, vector)?;
        Ok(())
    }

    /// Becomes those of a candidate whose run has ended so and has read these places, of which so many were read from the start
    /// by the run before, too. Only those after them are looked up.
    pub fn take(
        &mut self,
        layout: &Layout,
        vector: &Vector,
        end: Result<bool, Stop>,
        reads: &Reads,
        shared: usize,
    ) -> Result<(), NoMemory>
        requires well { IsWellFormed (bare layout.now) }
        requires vector { IsVector (space_of (bare layout.now)) vector.now }
        requires small { length (slots (bare layout.now)) < 2 ^ 31 }
        requires follow { Follow (slots_for (bare layout.now)) self.old }
        ensures follow { Follow (slots_for (bare layout.now)) self.new }
        ensures order { OnOk result (take shared (map place_in self.old.places.items) ≡ take shared reads.now → self.new.order ≡ with_slots (with_slots [] (flat_map (slots_for (bare layout.now)) reads.now)) (if is_accepted (end_said end) then walk (bare layout.now) vector.now else [])) }
        ensures read { OnOk result (take shared (map place_in self.old.places.items) ≡ take shared reads.now → map place_in self.new.places.items ≡ reads.now) }
    {
        match self.fill(layout, vector, end, reads, shared) {
            Ok(()) => Ok(()),
            Err(why) => {
                self.forget();
                Err(why)
            }
        }
    }
}
