// How far the choices at a slot are known to be allowed.
ghost use Rattle.std.specs.Prelude.{◌<◌, ◌≤◌, ℕ, [], Some};
ghost use Rattle.kr_iso.specs.Choices.{PathIn, AllowedPath};
ghost use Rattle.kr_mean.specs.Choices.{MayStand, IsAllowed};
ghost use Rattle.kr_iso.specs.Objects.{object_of, shown};
ghost use Rattle.kr_iso.specs.Rows.{Lets, further};

use crate::{Object, Slots};

/// How many objects from one on an object lets stand: those of its domain up to the one after it.
#[inline(always)]
fn let_by(other: Option<Object>, object: Object) -> u64
    ensures { Lets (shown other) (object_of object) result }
{
    match other {
        None => 0,
        Some(other) => {
            let end = u64::from(other.number) + 2;
            let number = u64::from(object.number);
            if other.domain == object.domain && number < end {
                end - number
            } else {
                0
            }
        }
    }
}

/// How many objects from one on are known to be allowed after a path; searched from the path's end.
#[inline(always)]
fn let_after<S: Slots>(slots: &S, path: &[(u32, u32)], object: Object) -> u64
    requires path { PathIn (S.space slots.now) path.now }
    requires allowed { AllowedPath (S.space slots.now) [] path.now }
    ensures { (n : ℕ) → n < result → MayStand (S.space slots.now) path.now (Some (further (object_of object) n)) }
{
    let mut left = path.len();
    while left > 0 {
        left -= 1;
        let (slot, index) = path[left];
        let count = let_by(slots.object_at(slot, index), object);
        if count > 0 {
            return count;
        }
    }
    if object.number == 0 { 1 } else { 0 }
}

/// Up to which index all after one are known to be allowed after a path: numbers, booleans and null as far as they go, or
/// objects up to the one after one on the path; 0 where none is.
#[inline(always)]
pub fn reach<S: Slots>(slots: &S, path: &[(u32, u32)], slot: u32, index: u32) -> u32
    requires path { PathIn (S.space slots.now) path.now }
    requires allowed { AllowedPath (S.space slots.now) [] path.now }
    requires slot { slot < (S.space slots.now).slots }
    ensures within { (j : ℕ) → index < j → j ≤ result → j < (S.space slots.now).size slot }
    ensures allowed { (j : ℕ) → index < j → j ≤ result → IsAllowed (S.space slots.now) path.now slot j }
{
    let size = slots.size(slot);
    if index >= size {
        return 0;
    }
    let next = index + 1;
    if next >= size {
        return 0;
    }
    let row = slots.row(slot, next);
    match slots.object_at(slot, next) {
        None => index + row,
        Some(object) => {
            let count = let_after(slots, path, object);
            if count < u64::from(row) {
                index + count as u32
            } else {
                index + row
            }
        }
    }
}
