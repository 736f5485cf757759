// A heap that is brought from one candidate to another.
ghost use Rattle.std.specs.Prelude.{◌≡◌, ◌<◌, ◌≤◌, ◌+◌, ◌^◌, ◌++◌, ℕ, OnOk, length, map, slice_index, slice_set};
ghost use Rattle.std.specs.List.{range_with_len};
ghost use Rattle.kr_build.specs.Vocabulary.{bare, choices_at, domain_at, heap_number, heap_object, heap_of, IsVector, IsWellFormed, object_in, object_of, place_of, slot_at, slots, space_of, value_at, with_values};
ghost use Rattle.kr_build.specs.Renewed.{IsBut, IsSameBut, position_of};

use crate::heap::kept;
use crate::objects::{Stretch, slots_of};
use kr_base::NoMemory;
use kr_heap::Heap;
use kr_iso::Object;
use kr_space_layout::Layout;
use kr_value::{Obj, SlotPlace, Spot};
use kr_vector::{Slot, Vector};

/// Adds the values that a candidate has at consecutive slots after those of an object.
fn push_values(
    heap: &mut Heap,
    layout: &Layout,
    vector: &Vector,
    object: Obj,
    stretch: Stretch,
) -> Result<(), NoMemory>
    requires vector { IsVector (space_of (bare layout.now)) vector.now }
    requires small { length (slots (bare layout.now)) < 2 ^ 31 }
    requires inside { (j : ℕ) → j < stretch.count → stretch.first + j < length (slots (bare layout.now)) }
    ensures { OnOk result (heap.new ≡ with_values heap.old object ((object_in heap.old object).values ++ map (value_at (bare layout.now) vector.now) (range_with_len stretch.first stretch.count))) }
{
    for number in 0..stretch.count {
        let slot = stretch.first + number;
        heap.push_value(object, layout.value(slot, vector.get(Slot(slot))))?;
    }
    Ok(())
}

/// Gives an object of a heap what a candidate has there, in the room that is there.
fn rebuild(
    heap: &mut Heap,
    layout: &Layout,
    vector: &Vector,
    object: Object,
) -> Result<(), NoMemory>
    requires well { IsWellFormed (bare layout.now) }
    requires vector { IsVector (space_of (bare layout.now)) vector.now }
    requires small { length (slots (bare layout.now)) < 2 ^ 31 }
    requires domain { object.domain < length layout.now.domains }
    requires number { object.number < (domain_at (bare layout.now) object.domain).count }
    ensures { OnOk result (heap.new ≡ with_values heap.old (heap_number (bare layout.now) (object_of object)) (heap_object (bare layout.now) vector.now (object_of object)).values) }
{
    let class = layout.class(object.domain);
    let stretch = kept(class, slots_of(layout, vector, object));
    let number = layout.heap_number(object);
    heap.truncate_values(number, 0);
    push_values(heap, layout, vector, number, stretch)?;
    Ok(())
}

/// Gives the array whose length is at a slot what a candidate has there, in the room that is there.
#[inline(never)]
fn resize(heap: &mut Heap, layout: &Layout, vector: &Vector, slot: u32) -> Result<(), NoMemory>
    requires well { IsWellFormed (bare layout.now) }
    requires vector { IsVector (space_of (bare layout.now)) vector.now }
    requires small { length (slots (bare layout.now)) < 2 ^ 31 }
    requires slot { slot < length (slots (bare layout.now)) }
    requires heap { IsBut (bare layout.now) slot vector.now heap.old }
    ensures { OnOk result (heap.new ≡ heap_of (bare layout.now) vector.now) }
{
    match layout.owner(slot) {
        None => Ok(()),
        Some(object) => {
            rebuild(heap, layout, vector, object)?;
            Ok(())
        }
    }
}

/// The position of a spot among an object's fields or elements, if it's one of them.
#[inline(always)]
fn position(spot: Spot) -> Option<u32>
    ensures { result ≡ position_of spot }
{
    match spot {
        Spot::Field(at) => Some(at),
        Spot::Element(at) => Some(at),
        Spot::Length => None,
    }
}

/// Gives an object of a heap what a candidate has there, where one of its spots has changed: a field or an element is written
/// alone, and an array is given all its elements where its length has changed.
#[inline(always)]
fn renew(
    heap: &mut Heap,
    layout: &Layout,
    vector: &Vector,
    place: SlotPlace,
    slot: u32,
    index: u32,
) -> Result<(), NoMemory>
    requires well { IsWellFormed (bare layout.now) }
    requires vector { IsVector (space_of (bare layout.now)) vector.now }
    requires small { length (slots (bare layout.now)) < 2 ^ 31 }
    requires slot { slot < length (slots (bare layout.now)) }
    requires index { index ≡ slice_index vector.now slot }
    requires place { place_of place ≡ (slot_at (bare layout.now) slot).place }
    requires heap { IsBut (bare layout.now) slot vector.now heap.old }
    ensures { OnOk result (heap.new ≡ heap_of (bare layout.now) vector.now) }
{
    match place {
        SlotPlace::This => Ok(()),
        SlotPlace::Parameter(_) => Ok(()),
        SlotPlace::At(object, spot) => match position(spot) {
            None => resize(heap, layout, vector, slot),
            Some(at) => {
                heap.write(object, at as usize, layout.value(slot, index));
                Ok(())
            }
        },
    }
}

/// Gives a slot of a candidate another index, in its heap too.
#[inline(never)]
fn change(
    heap: &mut Heap,
    vector: &mut Vector,
    layout: &Layout,
    slot: u32,
    index: u32,
) -> Result<(), NoMemory>
    requires well { IsWellFormed (bare layout.now) }
    requires vector { IsVector (space_of (bare layout.now)) vector.old }
    requires small { length (slots (bare layout.now)) < 2 ^ 31 }
    requires slot { slot < length (slots (bare layout.now)) }
    requires index { index < length (choices_at (bare layout.now) slot) }
    requires heap { heap.old ≡ heap_of (bare layout.now) vector.old }
    ensures vector { vector.new ≡ slice_set vector.old slot index }
    ensures heap { OnOk result (heap.new ≡ heap_of (bare layout.now) vector.new) }
{
    vector.set(Slot(slot), index);
    renew(heap, layout, vector, layout.place(slot), slot, index)
}

/// Gives a slot of a candidate an index, in its heap too.
#[inline(always)]
fn take_on(
    heap: &mut Heap,
    vector: &mut Vector,
    layout: &Layout,
    slot: u32,
    index: u32,
) -> Result<(), NoMemory>
    requires well { IsWellFormed (bare layout.now) }
    requires vector { IsVector (space_of (bare layout.now)) vector.old }
    requires small { length (slots (bare layout.now)) < 2 ^ 31 }
    requires slot { slot < length (slots (bare layout.now)) }
    requires index { index < length (choices_at (bare layout.now) slot) }
    requires heap { heap.old ≡ heap_of (bare layout.now) vector.old }
    ensures vector { vector.new ≡ slice_set vector.old slot index }
    ensures heap { OnOk result (heap.new ≡ heap_of (bare layout.now) vector.new) }
{
    if vector.get(Slot(slot)) == index {
        return Ok(());
    }
    change(heap, vector, layout, slot, index)
}

/// Brings the heap that one candidate spells to another candidate, which has the same indices but at slots from one to another:
/// only objects whose slots changed are changed, in the room that is there.
pub fn update_within(
    heap: &mut Heap,
    built: &mut Vector,
    layout: &Layout,
    vector: &Vector,
    low: u32,
    high: u32,
) -> Result<(), NoMemory>
    requires well { IsWellFormed (bare layout.now) }
    requires built { IsVector (space_of (bare layout.now)) built.old }
    requires vector { IsVector (space_of (bare layout.now)) vector.now }
    requires small { length (slots (bare layout.now)) < 2 ^ 31 }
    requires heap { heap.old ≡ heap_of (bare layout.now) built.old }
    requires same { IsSameBut built.old vector.now low high }
    requires high { high ≤ length (slots (bare layout.now)) }
    ensures built { OnOk result (built.new ≡ vector.now) }
    ensures heap { OnOk result (heap.new ≡ heap_of (bare layout.now) vector.now) }
    ensures long { length built.new ≡ length built.old }
{
    'each: for slot in low..high {
        let index = vector.get(Slot(slot));
        take_on(heap, built, layout, slot, index)?;
    }
    Ok(())
}
