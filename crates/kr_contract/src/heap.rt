// The heap of a candidate, in the room of another candidate's.
ghost use Rattle.std.specs.Prelude.{◌≡◌, ◌<◌, ◌^◌, OnOk, IfOk, false, true, length};
ghost use Rattle.kr_contract.specs.Vocabulary.{bare, heap_of, IsVector, IsWellFormed, slots, space_of};
ghost use Rattle.kr_contract.specs.Kept.{IsKept};

use kr_base::NoMemory;
use kr_build::{build, update_within};
use kr_heap::Heap;
use kr_space_layout::Layout;
use kr_vector::Vector;
use std::alloc::Global;

/// A heap that is kept from candidate to candidate: where it is built, it is this vector's.
#[derive(Drop)]
pub struct Kept {
    pub heap: Heap,
    pub vector: Vector,
    pub is_built: bool,
}

impl Kept {
    /// Nothing is built yet.
    pub(crate) fn new(alloc: Global) -> Result<Kept, NoMemory>
        ensures { IfOk result (λ kept. kept.is_built ≡ false) }
    {
        Ok(Kept {
            vector: Vector::zero(alloc, 0)?,
            heap: Heap::new(alloc),
            is_built: false,
        })
    }
}

/// Gets so many slots, where it has others.
pub(crate) fn fit(alloc: Global, vector: &mut Vector, slots: u32) -> Result<(), NoMemory>
    ensures { OnOk result (length vector.new ≡ slots) }
{
    if vector.len() != slots as usize {
        *vector = Vector::zero(alloc, slots as usize)?;
    }
    Ok(())
}

/// Builds a candidate's heap anew.
fn build_anew(
    alloc: Global,
    kept: &mut Kept,
    layout: &Layout,
    vector: &Vector,
) -> Result<(), NoMemory>
    requires well { IsWellFormed (bare layout.now) }
    requires vector { IsVector (space_of (bare layout.now)) vector.now }
    requires small { length (slots (bare layout.now)) < 2 ^ 31 }
    ensures kept { IsKept (bare layout.now) kept.new }
    ensures heap { OnOk result (kept.new.heap ≡ heap_of (bare layout.now) vector.now) }
{
    kept.is_built = false;
    fit(alloc, &mut kept.vector, layout.slots())?;
    kept.heap = build(alloc, layout, vector)?;
    kept.vector.copy_from(vector);
    kept.is_built = true;
    Ok(())
}

/// Brings the heap of one candidate to another.
fn update(kept: &mut Kept, layout: &Layout, vector: &Vector) -> Result<(), NoMemory>
    requires well { IsWellFormed (bare layout.now) }
    requires vector { IsVector (space_of (bare layout.now)) vector.now }
    requires small { length (slots (bare layout.now)) < 2 ^ 31 }
    requires built { kept.old.is_built ≡ true }
    requires kept { IsKept (bare layout.now) kept.old }
    ensures kept { IsKept (bare layout.now) kept.new }
    ensures heap { OnOk result (kept.new.heap ≡ heap_of (bare layout.now) vector.now) }
{
    kept.is_built = false;
    let slots = layout.slots();
    update_within(&mut kept.heap, &mut kept.vector, layout, vector, 0, slots)?;
    kept.is_built = true;
    Ok(())
}

/// Becomes the heap of a candidate. Once one was built, it takes no memory but for what is longer in this candidate.
pub(crate) fn bring(
    alloc: Global,
    kept: &mut Kept,
    layout: &Layout,
    vector: &Vector,
) -> Result<(), NoMemory>
    requires well { IsWellFormed (bare layout.now) }
    requires vector { IsVector (space_of (bare layout.now)) vector.now }
    requires small { length (slots (bare layout.now)) < 2 ^ 31 }
    requires kept { IsKept (bare layout.now) kept.old }
    ensures kept { IsKept (bare layout.now) kept.new }
    ensures heap { OnOk result (kept.new.heap ≡ heap_of (bare layout.now) vector.now) }
{
    if kept.is_built {
        update(kept, layout, vector)
    } else {
        build_anew(alloc, kept, layout, vector)
    }
}
