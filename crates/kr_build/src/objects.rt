// The slots of an object that are there in a candidate's heap.
ghost use Rattle.std.specs.Prelude.{◌≡◌, ◌<◌, ◌+◌, ◌^◌, ◌++◌, ℕ, true, OnOk, length};
ghost use Rattle.std.specs.List.{range_with_len};
ghost use Rattle.kr_build.specs.Vocabulary.{bare, domain_at, IsVector, IsWellFormed, length_in, object_of, slots, slots_in, space_of, value_at};
ghost use Rattle.kr_build.specs.Extents.{extent_of, is_array};

use kr_base::NoMemory;
use kr_iso::Object;
use kr_space_layout::Layout;
use kr_value::{Class, Value};
use kr_vector::{Slot, Vector};

/// The number that a value is as an array's length.
fn length_of(value: Value) -> u32
    requires { length_in value < 2 ^ 31 }
    ensures is { result ≡ length_in value }
    ensures small { result < 2 ^ 31 }
{
    match value {
        Value::Int(number) => { if number < 0 { 0 } else { number as u32 } }
        Value::Bool(_) => 0,
        Value::Null => 0,
        Value::Ref(_) => 0,
    }
}

/// How many slots an object has in a candidate's heap, where its first slot is this one.
fn extent(layout: &Layout, vector: &Vector, class: Class, first: u32, width: u32) -> u32
    requires vector { IsVector (space_of (bare layout.now)) vector.now }
    requires array { is_array class ≡ true → first < length (slots (bare layout.now)) }
    requires short { is_array class ≡ true → length_in (value_at (bare layout.now) vector.now first) < 2 ^ 31 }
    ensures { result ≡ extent_of class width (value_at (bare layout.now) vector.now first) }
{
    match class {
        Class::Array(_) => length_of(layout.value(first, vector.get(Slot(first)))) + 1,
        Class::Object(_) => width,
        Class::Set => width,
        Class::List => width,
    }
}

/// Consecutive slots.
#[derive(Clone, Copy)]
pub struct Stretch {
    pub first: u32,
    pub count: u32,
}

/// The slots of an object in a candidate's heap: of an array its length and the elements below it, of another object all fields.
pub fn slots_of(layout: &Layout, vector: &Vector, object: Object) -> Stretch
    requires well { IsWellFormed (bare layout.now) }
    requires vector { IsVector (space_of (bare layout.now)) vector.now }
    requires small { length (slots (bare layout.now)) < 2 ^ 31 }
    requires domain { object.domain < length layout.now.domains }
    requires number { object.number < (domain_at (bare layout.now) object.domain).count }
    ensures are { range_with_len result.first result.count ≡ slots_in (bare layout.now) vector.now (object_of object) }
    ensures inside { (j : ℕ) → j < result.count → result.first + j < length (slots (bare layout.now)) }
{
    let first = layout.first_slot(object);
    let width = layout.width(object.domain) as u32;
    let class = layout.class(object.domain);
    let count = extent(layout, vector, class, first, width);
    Stretch { first, count }
}

/// Adds consecutive slots.
pub(crate) fn add_slots(slots: &mut Vec<u32>, stretch: Stretch) -> Result<(), NoMemory>
    requires { (j : ℕ) → j < stretch.count → stretch.first + j < 2 ^ 31 }
    ensures { OnOk result (slots.new.items ≡ slots.old.items ++ range_with_len stretch.first stretch.count) }
{
    for number in 0..stretch.count {
        slots.push(stretch.first + number)?;
    }
    Ok(())
}
