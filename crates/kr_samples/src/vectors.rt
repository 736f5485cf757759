// Candidates of a problem that is read from a source, as vectors.
ghost use Rattle.std.specs.Prelude.{◌≡◌, ◌<◌, ◌^◌, IfOk, length, replicate, true};
ghost use Rattle.kr_mean.specs.Problem.{slots};
ghost use Rattle.kr_mean.specs.Space.{IsVector, space_of};
ghost use Rattle.kr_mean.specs.WellFormed.{IsWellFormed};
ghost use Rattle.kr_space_layout.specs.Bounds.{bare};
ghost use Rattle.kr_space_problem.specs.Posed.{posed};

use kr_base::NoMemory;
use kr_judge_prepared::Prepared;
use kr_space_layout::Layout;
use kr_step::Candidate;
use kr_vector::{Slot, Vector};
use std::alloc::Global;

/// The slots of a problem.
pub fn layout_of(prepared: &Prepared) -> &Layout
    ensures well { IsWellFormed (bare result.now) }
    ensures small { length (slots (bare result.now)) < 2 ^ 31 }
{
    prepared.laws();
    prepared.layout()
}

/// The vector of these indices, where a slot's domain has them; it is 0 at all other slots.
pub fn vector_of(alloc: Global, layout: &Layout, indices: &[u32]) -> Result<Vector, NoMemory>
    requires well { IsWellFormed (bare layout.now) }
    ensures { IfOk result (λ vector. IsVector (space_of (bare layout.now)) vector) }
{
    let count = Layout::slots(layout);
    let mut vector = Vector::zero(alloc, count as usize)?;
    for slot in 0..count {
        let index = match indices.get(slot as usize) {
            None => 0,
            Some(index) => *index,
        };
        if index < Layout::size(layout, slot) {
            vector.set(Slot(slot), index);
        }
    }
    Ok(vector)
}

/// Whether a vector has an index of its domain in each slot.
pub fn fits(layout: &Layout, vector: &Vector) -> bool
    ensures { result ≡ true → IsVector (space_of (bare layout.now)) vector.now }
{
    if vector.len() != layout.slots() as usize {
        return false;
    }
    'slots: for slot in 0..layout.slots() {
        if vector.get(Slot(slot)) >= layout.size(slot) {
            return false;
        }
    }
    true
}

/// Likewise of a prepared problem.
pub fn is_vector(prepared: &Prepared, vector: &Vector) -> bool
    ensures { result ≡ true → IsVector (space_of (posed prepared.now.problem)) vector.now }
{
    fits(prepared.layout(), vector)
}

/// How many vectors there are.
pub fn count_of(layout: &Layout) -> u32 {
    let mut count: u32 = 1;
    for slot in 0..Layout::slots(layout) {
        count = count.saturating_mul(Layout::size(layout, slot));
    }
    count
}

/// The indices of the vector of a number, in the order of vectors.
pub fn indices_of(alloc: Global, layout: &Layout, number: u32) -> Result<Vec<u32>, NoMemory> {
    let count = Layout::slots(layout);
    let mut indices = vec![in alloc; 0; count as usize]?;
    let mut rest = number;
    for slot in (0..count).rev() {
        let size = Layout::size(layout, slot);
        if size > 0 && (slot as usize) < indices.len() {
            indices[slot as usize] = rest % size;
            rest /= size;
        }
    }
    Ok(indices)
}

/// The first candidate is one.
pub fn stands<C: Candidate>(candidates: &C)
    requires { C.vector candidates.now ≡ replicate (C.space candidates.now).slots 0 }
    ensures { IsVector (C.space candidates.now) (C.vector candidates.now) }
{
    candidates.laws();
}

/// Gives the slots of the current candidate these indices, where their domains have them. A slot that has its index already is
/// left alone, so that the next run may go on from the one before.
pub fn change<C: Candidate>(candidates: &mut C, indices: &[u32])
    requires { IsVector (C.space candidates.old) (C.vector candidates.old) }
    ensures space { C.space candidates.new ≡ C.space candidates.old }
    ensures vector { IsVector (C.space candidates.new) (C.vector candidates.new) }
{
    for slot in 0..candidates.slots() {
        if let Some(index) = indices.get(slot as usize) {
            if *index < candidates.size(slot) && *index != candidates.index(slot) {
                candidates.set(slot, *index);
            }
        }
    }
}
