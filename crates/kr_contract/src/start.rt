// The world in which a test begins.
ghost use Rattle.std.specs.Prelude.{◌≡◌, ◌<◌, ◌^◌, OnOk, length, map};
ghost use Rattle.kr_contract.specs.Vocabulary.{bare, heap_of, IsVector, local_of, parameter_values, plain_local, slots, space_of, state_of, test_start, value_at};
ghost use Rattle.kr_contract.specs.Tests.{IsPlain};

use kr_base::NoMemory;
use kr_heap::Heap;
use kr_run_state::{Local, World};
use kr_space_layout::Layout;
use kr_value::Value;
use kr_vector::{Slot, Vector};
use std::alloc::Global;

/// The value of a candidate at a slot.
fn value_in(layout: &Layout, vector: &Vector, slot: u32) -> Value
    requires vector { IsVector (space_of (bare layout.now)) vector.now }
    requires slot { slot < length (slots (bare layout.now)) }
    ensures { result ≡ value_at (bare layout.now) vector.now slot }
{
    layout.value(slot, vector.get(Slot(slot)))
}

/// The parameters of the method under test come in place of other locals.
fn put_parameters(locals: &mut Vec<Local>, layout: &Layout, vector: &Vector) -> Result<(), NoMemory>
    requires vector { IsVector (space_of (bare layout.now)) vector.now }
    requires small { length (slots (bare layout.now)) < 2 ^ 31 }
    ensures { OnOk result (map local_of locals.new.items ≡ map plain_local (parameter_values (bare layout.now) vector.now)) }
{
    locals.clear();
    let count = layout.parameters() as u32;
    for number in 0..count {
        locals.push(Local {
            value: value_in(layout, vector, number + 1),
            parameter: None,
        })?;
    }
    Ok(())
}

/// A test begins, on a candidate whose heap this is.
pub(crate) fn begin(
    alloc: Global,
    layout: &Layout,
    vector: &Vector,
    heap: &Heap,
    fuel: u64,
    world: &mut World,
) -> Result<(), NoMemory>
    requires vector { IsVector (space_of (bare layout.now)) vector.now }
    requires small { length (slots (bare layout.now)) < 2 ^ 31 }
    requires heap { heap.now ≡ heap_of (bare layout.now) vector.now }
    ensures plain { OnOk result (IsPlain world.new) }
    ensures state { OnOk result (state_of world.new ≡ test_start (bare layout.now) vector.now fuel) }
{
    world.this = value_in(layout, vector, 0);
    world.result = None;
    world.thrown = None;
    world.olds.clear();
    world.candidates.truncate(0);
    world.fuel = fuel;
    world.reads.clear();
    put_parameters(&mut world.locals, layout, vector)?;
    world.made.copy_from(alloc, heap)?;
    Ok(())
}
