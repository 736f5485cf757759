// The world that a candidate's run begins in.
ghost use Rattle.std.specs.Prelude.{◌≡◌, ◌<◌, ◌≤◌, ◌^◌, ◌∷◌, [], IfOk, OnOk, length, map};
ghost use Rattle.kr_judge.specs.Vocabulary.{bare, heap_of, IsVector, IsWellFormed, local_of, parameter_values, parameters_from, slots, space_of, start, state_of, This, value_at};

use kr_base::NoMemory;
use kr_build::build;
use kr_heap::Heap;
use kr_run_state::{Local, Reads, World};
use kr_space_layout::Layout;
use kr_value::{SlotPlace, Value};
use kr_vector::{Slot, Vector};
use std::alloc::Global;

/// A world without anything. It takes no memory.
pub fn blank_world(alloc: Global) -> World {
    World {
        this: Value::Null,
        locals: Vec::new(alloc),
        result: None,
        olds: Vec::new(alloc),
        thrown: None,
        candidates: Heap::new(alloc),
        made: Heap::new(alloc),
        is_frozen: true,
        fuel: 0,
        reads: Reads::new(alloc),
    }
}

/// Drops what a run has made, with its room, where that is much.
pub fn release_made(alloc: Global, made: &mut Heap)
    ensures { length made.new ≤ 1024 }
{
    if made.len() > 1_024 {
        *made = Heap::new(alloc);
    }
}

/// The value of a candidate at a slot.
fn value_in(layout: &Layout, vector: &Vector, slot: u32) -> Value
    requires vector { IsVector (space_of (bare layout.now)) vector.now }
    requires slot { slot < length (slots (bare layout.now)) }
    ensures { result ≡ value_at (bare layout.now) vector.now slot }
{
    layout.value(slot, vector.get(Slot(slot)))
}

/// The parameters of the method under test as locals, which are read where they are named.
fn parameters_of(alloc: Global, layout: &Layout, vector: &Vector) -> Result<Vec<Local>, NoMemory>
    requires vector { IsVector (space_of (bare layout.now)) vector.now }
    requires small { length (slots (bare layout.now)) < 2 ^ 31 }
    ensures { IfOk result (λ locals. map local_of locals.items ≡ parameters_from 0 (parameter_values (bare layout.now) vector.now)) }
{
    let mut locals = Vec::new(alloc);
    let count = layout.parameters() as u32;
    for number in 0..count {
        locals.push(Local {
            value: value_in(layout, vector, number + 1),
            parameter: Some(number),
        })?;
    }
    Ok(locals)
}

/// `this` was read, and nothing else.
fn this_read(alloc: Global) -> Result<Reads, NoMemory>
    ensures { IfOk result (λ reads. reads ≡ This ∷ []) }
{
    let mut reads = Reads::new(alloc);
    reads.note(SlotPlace::This)?;
    Ok(reads)
}

/// The world in which a candidate's run begins, once `this` is read. Frozen candidates aren't written.
pub(crate) fn world_of(
    alloc: Global,
    layout: &Layout,
    vector: &Vector,
    is_frozen: bool,
) -> Result<World, NoMemory>
    requires well { IsWellFormed (bare layout.now) }
    requires vector { IsVector (space_of (bare layout.now)) vector.now }
    requires small { length (slots (bare layout.now)) < 2 ^ 31 }
    ensures state { IfOk result (λ world. state_of world ≡ start (bare layout.now) vector.now) }
    ensures reads { IfOk result (λ world. world.reads ≡ This ∷ []) }
    ensures candidates { IfOk result (λ world. world.candidates ≡ heap_of (bare layout.now) vector.now) }
    ensures made { IfOk result (λ world. world.made ≡ []) }
    ensures frozen { IfOk result (λ world. world.is_frozen ≡ is_frozen) }
{
    let candidates = build(alloc, layout, vector)?;
    let locals = parameters_of(alloc, layout, vector)?;
    let reads = this_read(alloc)?;
    Ok(World {
        this: value_in(layout, vector, 0),
        locals,
        result: None,
        olds: Vec::new(alloc),
        thrown: None,
        candidates,
        made: Heap::new(alloc),
        is_frozen,
        fuel: layout.fuel(),
        reads,
    })
}

/// Begins a candidate's run, once `this` is read, in a world that has its candidates.
pub fn begin(
    alloc: Global,
    layout: &Layout,
    vector: &Vector,
    world: &mut World,
) -> Result<(), NoMemory>
    requires vector { IsVector (space_of (bare layout.now)) vector.now }
    requires small { length (slots (bare layout.now)) < 2 ^ 31 }
    requires candidates { world.old.candidates ≡ heap_of (bare layout.now) vector.now }
    ensures state { OnOk result (state_of world.new ≡ start (bare layout.now) vector.now) }
    ensures reads { OnOk result (world.new.reads ≡ This ∷ []) }
    ensures made { OnOk result (world.new.made ≡ []) }
    ensures candidates { world.new.candidates ≡ world.old.candidates }
    ensures frozen { world.new.is_frozen ≡ world.old.is_frozen }
{
    world.this = value_in(layout, vector, 0);
    world.locals = parameters_of(alloc, layout, vector)?;
    world.result = None;
    world.olds.clear();
    world.thrown = None;
    world.made.truncate(0);
    world.fuel = layout.fuel();
    world.reads.clear();
    world.reads.note(SlotPlace::This)?;
    Ok(())
}
