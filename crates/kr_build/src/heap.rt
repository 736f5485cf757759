// The heap of a candidate.
ghost use Rattle.std.specs.Prelude.{◌≡◌, ◌<◌, ◌≤◌, ◌+◌, ◌-◌, ◌^◌, ◌++◌, ◌∷◌, [], ℕ, IfOk, OnOk, length, map};
ghost use Rattle.std.specs.List.{range_with_len};
ghost use Rattle.kr_build.specs.Vocabulary.{bare, domain_at, heap_object, heap_of, IsVector, IsWellFormed, object_of, objects_of_domain, slots, space_of, value_at, values_there};

use crate::objects::{Stretch, slots_of};
use kr_base::NoMemory;
use kr_heap::Heap;
use kr_iso::Object;
use kr_space_layout::Layout;
use kr_value::{Class, Value};
use kr_vector::{Slot, Vector};
use std::alloc::Global;

/// The slots of an object whose values it keeps: an array's length is how many elements it has.
pub(crate) fn kept(class: Class, stretch: Stretch) -> Stretch
    requires { (j : ℕ) → j < stretch.count → stretch.first + j < 2 ^ 31 }
    ensures are { (f : ℕ → Value) → map f (range_with_len result.first result.count) ≡ values_there class (map f (range_with_len stretch.first stretch.count)) }
    ensures inside { (j : ℕ) → j < result.count → (k : ℕ) × (k < stretch.count) × (result.first + j ≡ stretch.first + k) }
    ensures fewer { result.count ≤ stretch.count }
{
    match class {
        Class::Array(_) => without_first(stretch),
        Class::Object(_) => stretch,
        Class::Set => stretch,
        Class::List => stretch,
    }
}

/// The slots after the first.
fn without_first(stretch: Stretch) -> Stretch
    requires { (j : ℕ) → j < stretch.count → stretch.first + j < 2 ^ 31 }
    ensures count { result.count ≡ stretch.count - 1 }
    ensures first { 0 < stretch.count → result.first ≡ stretch.first + 1 }
{
    if stretch.count == 0 {
        stretch
    } else {
        Stretch {
            first: stretch.first + 1,
            count: stretch.count - 1,
        }
    }
}

/// The values that a candidate has at consecutive slots.
fn values_of(
    alloc: Global,
    layout: &Layout,
    vector: &Vector,
    stretch: Stretch,
) -> Result<Vec<Value>, NoMemory>
    requires vector { IsVector (space_of (bare layout.now)) vector.now }
    requires small { length (slots (bare layout.now)) < 2 ^ 31 }
    requires inside { (j : ℕ) → j < stretch.count → stretch.first + j < length (slots (bare layout.now)) }
    ensures { IfOk result (λ values. values.items ≡ map (value_at (bare layout.now) vector.now) (range_with_len stretch.first stretch.count)) }
{
    let mut values = Vec::new(alloc);
    for number in 0..stretch.count {
        let slot = stretch.first + number;
        values.push(layout.value(slot, vector.get(Slot(slot))))?;
    }
    Ok(values)
}

/// Adds an object after all others.
fn add_object(
    alloc: Global,
    heap: &mut Heap,
    layout: &Layout,
    vector: &Vector,
    object: Object,
) -> Result<(), NoMemory>
    requires well { IsWellFormed (bare layout.now) }
    requires vector { IsVector (space_of (bare layout.now)) vector.now }
    requires small { length (slots (bare layout.now)) < 2 ^ 31 }
    requires domain { object.domain < length layout.now.domains }
    requires number { object.number < (domain_at (bare layout.now) object.domain).count }
    ensures { OnOk result (heap.new ≡ heap.old ++ heap_object (bare layout.now) vector.now (object_of object) ∷ []) }
{
    let class = layout.class(object.domain);
    let stretch = kept(class, slots_of(layout, vector, object));
    let values = values_of(alloc, layout, vector, stretch)?;
    heap.allocate(class, values)?;
    Ok(())
}

/// Adds the objects of a class domain after all others.
fn add_domain(
    alloc: Global,
    heap: &mut Heap,
    layout: &Layout,
    vector: &Vector,
    domain: u32,
) -> Result<(), NoMemory>
    requires well { IsWellFormed (bare layout.now) }
    requires vector { IsVector (space_of (bare layout.now)) vector.now }
    requires small { length (slots (bare layout.now)) < 2 ^ 31 }
    requires domain { domain < length layout.now.domains }
    ensures { OnOk result (heap.new ≡ heap.old ++ map (heap_object (bare layout.now) vector.now) (objects_of_domain domain (domain_at (bare layout.now) domain))) }
{
    for number in 0..layout.count(domain) {
        add_object(alloc, heap, layout, vector, Object { domain, number })?;
    }
    Ok(())
}

/// The heap that a candidate spells.
pub fn build(alloc: Global, layout: &Layout, vector: &Vector) -> Result<Heap, NoMemory>
    requires well { IsWellFormed (bare layout.now) }
    requires vector { IsVector (space_of (bare layout.now)) vector.now }
    requires small { length (slots (bare layout.now)) < 2 ^ 31 }
    ensures { IfOk result (λ heap. heap ≡ heap_of (bare layout.now) vector.now) }
{
    let count = layout.domains();
    let Ok(domains) = u32::try_from(count) else {
        return Err(layout.at_domain_limit());
    };
    let mut heap = Heap::new(alloc);
    for domain in 0..domains {
        add_domain(alloc, &mut heap, layout, vector, domain)?;
    }
    Ok(heap)
}
