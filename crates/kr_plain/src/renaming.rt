// Candidates under other names: new numbers for the objects of each class domain.
ghost use Rattle.std.specs.Prelude.{◌≡◌, ◌<◌, ◌^◌, ◌↔◌, ℕ, IfOk, IsTrue, length};
ghost use Rattle.kr_mean.specs.Problem.{choices_at, slots};
ghost use Rattle.kr_mean.specs.Space.{IsRenamed, IsRenaming, IsVector, space_of};
ghost use Rattle.kr_mean.specs.Blocks.{on_index, on_slot};
ghost use Rattle.kr_mean.specs.WellFormed.{IsWellFormed};
ghost use Rattle.kr_space_layout.specs.Bounds.{bare};
ghost use Rattle.kr_mean.specs.Entries.{name_in};
ghost use Rattle.kr_plain.specs.Names.{IsNew, Permutes, rows_of};

use kr_base::NoMemory;
use kr_iso::Object;
use kr_space_layout::Layout;
use kr_vector::{Slot, Vector};
use std::alloc::Global;
use std::marker::Model;

/// New numbers for objects, a list for each class domain; an object for which it has none keeps its own. Contracts see the
/// lists.
#[derive(Drop)]
pub struct Perm {
    numbers: Vec<Vec<u32>>,
}

impl Model for Perm {
    ghost use Rattle.std.specs.Prelude.{List, ℕ};
    ghost use Rattle.kr_plain.specs.Names.{rows_of};

    ghost Value = { List (List ℕ) };

    ghost view = { λ p. rows_of p.numbers.items };
}

impl Perm {
    /// These numbers, by class domain and number.
    pub fn new(numbers: Vec<Vec<u32>>) -> Perm
        ensures { result ≡ rows_of numbers.items }
    {
        Perm { numbers }
    }

    /// An object's new number.
    pub fn number(&self, object: Object) -> u32
        ensures { result ≡ name_in self.now object.domain object.number }
    {
        let Some(row) = self.numbers.as_slice().get(object.domain as usize) else {
            return object.number;
        };
        match row.as_slice().get(object.number as usize) {
            None => object.number,
            Some(number) => *number,
        }
    }
}

/// Whether no object of lesser number has the new number of this one.
fn is_new(perm: &Perm, domain: u32, number: u32) -> bool
    ensures { IsTrue result ↔ IsNew (name_in perm.now) domain number }
{
    let own = perm.number(Object { domain, number });
    for other in 0..number {
        let taken = perm.number(Object {
            domain,
            number: other,
        });
        if taken == own {
            return false;
        }
    }
    true
}

/// Whether the objects of a class domain have their own numbers in another order.
fn permutes(perm: &Perm, domain: u32, count: u32) -> bool
    ensures { IsTrue result ↔ Permutes (name_in perm.now) domain count }
{
    for number in 0..count {
        let own = perm.number(Object { domain, number });
        if own >= count || !is_new(perm, domain, number) {
            return false;
        }
    }
    true
}

/// Whether these are a permutation of each class domain.
#[tactic(auto, unfolding(kr_mean::specs::Space::space_of))]
pub fn is_renaming(layout: &Layout, perm: &Perm) -> bool
    requires { length layout.now.domains < 2 ^ 32 }
    ensures { IsTrue result ↔ IsRenaming (space_of (bare layout.now)) (name_in perm.now) }
{
    for domain in 0..layout.domains() as u32 {
        if !permutes(perm, domain, layout.count(domain)) {
            return false;
        }
    }
    true
}

/// The corresponding slot of the renamed object.
fn slot_for(layout: &Layout, perm: &Perm, slot: u32) -> u32
    requires well { IsWellFormed (bare layout.now) }
    requires small { length (slots (bare layout.now)) < 2 ^ 31 }
    requires renaming { IsRenaming (space_of (bare layout.now)) (name_in perm.now) }
    requires slot { slot < length (slots (bare layout.now)) }
    ensures { result ≡ on_slot (space_of (bare layout.now)) (name_in perm.now) slot }
{
    match layout.owner(slot) {
        None => slot,
        Some(owner) => {
            let width = layout.width(owner.domain);
            let column = slot as usize - owner.number as usize * width;
            (column + perm.number(owner) as usize * width) as u32
        }
    }
}

/// The index of the renamed value.
fn index_for(layout: &Layout, perm: &Perm, slot: u32, index: u32) -> u32
    requires well { IsWellFormed (bare layout.now) }
    requires renaming { IsRenaming (space_of (bare layout.now)) (name_in perm.now) }
    requires slot { slot < length (slots (bare layout.now)) }
    requires index { index < length (choices_at (bare layout.now) slot) }
    ensures { result ≡ on_index (space_of (bare layout.now)) (name_in perm.now) slot index }
{
    let _size = layout.size(slot);
    match layout.choice(slot, index).object {
        None => index,
        Some(object) => index - object.number + perm.number(object),
    }
}

/// A candidate under other names: each object's slots go to the object of its new number, and so do the values.
pub fn rename(
    alloc: Global,
    layout: &Layout,
    vector: &Vector,
    perm: &Perm,
) -> Result<Vector, NoMemory>
    requires well { IsWellFormed (bare layout.now) }
    requires small { length (slots (bare layout.now)) < 2 ^ 31 }
    requires vector { IsVector (space_of (bare layout.now)) vector.now }
    requires renaming { IsRenaming (space_of (bare layout.now)) (name_in perm.now) }
    ensures { IfOk result (λ renamed. IsRenamed (space_of (bare layout.now)) (name_in perm.now) vector.now renamed) }
{
    let count = layout.slots();
    let mut renamed = Vector::zero(alloc, count as usize)?;
    for slot in 0..count {
        let index = vector.get(Slot(slot));
        let other = slot_for(layout, perm, slot);
        renamed.set(Slot(other), index_for(layout, perm, slot, index));
    }
    Ok(renamed)
}
