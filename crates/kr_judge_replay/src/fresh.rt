// The candidates' heap, which stays from run to run.
ghost use Rattle.std.specs.Prelude.{◌≡◌, ◌<◌, ◌≤◌, ◌^◌, OnOk, length, true};
ghost use Rattle.kr_judge_replay.specs.Vocabulary.{bare, heap_of, IsSameBut, IsVector, IsWellFormed, slots, space_of};
ghost use Rattle.kr_judge_replay.specs.Going.{IsHeapOf};

use kr_base::NoMemory;
use kr_build::{build, update_within};
use kr_heap::Heap;
use kr_space_layout::Layout;
use kr_vector::Vector;
use std::alloc::Global;

/// Makes a heap the candidate's: from the one whose heap it is, if it is known, else from nothing. The known one has the same
/// indices but at slots from one to another.
pub(crate) fn refresh(
    alloc: Global,
    layout: &Layout,
    vector: &Vector,
    is_known: bool,
    known: &mut Vector,
    low: u32,
    high: u32,
    heap: &mut Heap,
) -> Result<(), NoMemory>
    requires well { IsWellFormed (bare layout.now) }
    requires vector { IsVector (space_of (bare layout.now)) vector.now }
    requires small { length (slots (bare layout.now)) < 2 ^ 31 }
    requires long { length known.old ≡ length (slots (bare layout.now)) }
    requires known { is_known ≡ true → IsHeapOf layout.now known.old heap.old }
    requires same { is_known ≡ true → IsSameBut known.old vector.now low high }
    requires high { high ≤ length (slots (bare layout.now)) }
    ensures built { OnOk result (known.new ≡ vector.now) }
    ensures heap { OnOk result (heap.new ≡ heap_of (bare layout.now) vector.now) }
    ensures long { length known.new ≡ length known.old }
{
    if is_known {
        update_within(heap, known, layout, vector, low, high)?;
        return Ok(());
    }
    known.copy_from(vector);
    *heap = build(alloc, layout, vector)?;
    Ok(())
}

/// Makes a heap the candidate's again, where a run has written it.
pub(crate) fn restore(
    alloc: Global,
    layout: &Layout,
    vector: &Vector,
    is_unwritten: bool,
    heap: &mut Heap,
) -> Result<(), NoMemory>
    requires well { IsWellFormed (bare layout.now) }
    requires vector { IsVector (space_of (bare layout.now)) vector.now }
    requires small { length (slots (bare layout.now)) < 2 ^ 31 }
    requires unwritten { is_unwritten ≡ true → heap.old ≡ heap_of (bare layout.now) vector.now }
    ensures { OnOk result (heap.new ≡ heap_of (bare layout.now) vector.now) }
{
    if !is_unwritten {
        *heap = build(alloc, layout, vector)?;
    }
    Ok(())
}
