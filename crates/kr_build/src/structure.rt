// The reachable slots of a candidate, with their values.
ghost use Rattle.std.specs.Prelude.{◌≡◌, ◌<◌, ◌^◌, OnOk, length, map};
ghost use Rattle.kr_build.specs.Vocabulary.{AllBelow, bare, IsVector, IsWellFormed, slots, space_of, structure_of, value_at};

use crate::Walk;
use kr_base::NoMemory;
use kr_mean::Structure;
use kr_space_layout::Layout;
use kr_value::Value;
use kr_vector::{Slot, Vector};

/// The value that a candidate has at a slot.
#[inline(always)]
fn value_of(layout: &Layout, vector: &Vector, slot: u32) -> Value
    requires vector { IsVector (space_of (bare layout.now)) vector.now }
    requires slot { slot < length (slots (bare layout.now)) }
    ensures { result ≡ value_at (bare layout.now) vector.now slot }
{
    layout.value(slot, vector.get(Slot(slot)))
}

/// Makes a structure of slots with their values.
fn put_values(
    layout: &Layout,
    vector: &Vector,
    places: &[u32],
    structure: &mut Structure,
) -> Result<(), NoMemory>
    requires vector { IsVector (space_of (bare layout.now)) vector.now }
    requires inside { AllBelow (length (slots (bare layout.now))) places.now }
    ensures { OnOk result (structure.new ≡ map (λ s. (s, value_at (bare layout.now) vector.now s)) places.now) }
{
    structure.clear_for(places.len())?;
    for slot in places {
        structure.push(*slot, value_of(layout, vector, *slot))?;
    }
    Ok(())
}

/// Makes a structure that of a candidate, in the memory that it has. The walk is room that is used again.
pub fn fill_structure(
    layout: &Layout,
    walk: &mut Walk,
    vector: &Vector,
    structure: &mut Structure,
) -> Result<(), NoMemory>
    requires well { IsWellFormed (bare layout.now) }
    requires vector { IsVector (space_of (bare layout.now)) vector.now }
    requires small { length (slots (bare layout.now)) < 2 ^ 31 }
    ensures { OnOk result (structure.new ≡ structure_of (bare layout.now) vector.now) }
{
    walk.walk(layout, vector)?;
    put_values(layout, vector, walk.slots(), structure)?;
    Ok(())
}
