// The next choice at a slot.
ghost use Rattle.std.specs.Prelude.{◌<◌, [], Some, IsTrue, ◌↔◌};
ghost use Rattle.kr_iso.specs.Choices.{PathIn, AllowedPath};
ghost use Rattle.kr_mean.specs.Choices.{MayStand, IsAllowed, IsNextChoice};
ghost use Rattle.kr_iso.specs.Objects.{object_of, shown};
ghost use Rattle.kr_iso.specs.Unused.{IsBarred, IsNear, IsReached, MayNotStand};

use crate::{Object, Slots};

/// Whether a choice is an object of the same domain, whose number is at most one less.
#[inline(always)]
fn is_near(other: Option<Object>, object: Object) -> bool
    ensures { IsTrue result ↔ IsNear (shown other) (object_of object) }
{
    match other {
        None => false,
        Some(other) => {
            other.domain == object.domain && u64::from(object.number) <= u64::from(other.number) + 1
        }
    }
}

/// Whether an object whose number is at most one less occurs on the path; searched from the path's end.
#[inline(always)]
fn is_reached<S: Slots>(slots: &S, path: &[(u32, u32)], object: Object) -> bool
    requires { PathIn (S.space slots.now) path.now }
    ensures { IsTrue result ↔ IsReached (S.space slots.now) path.now (object_of object) }
{
    let mut left = path.len();
    while left > 0 {
        left -= 1;
        let (slot, index) = path[left];
        if is_near(slots.object_at(slot, index), object) {
            return true;
        }
    }
    false
}

/// Whether an object is allowed after a path.
#[inline(always)]
fn may_stand<S: Slots>(slots: &S, path: &[(u32, u32)], object: Object) -> bool
    requires path { PathIn (S.space slots.now) path.now }
    requires allowed { AllowedPath (S.space slots.now) [] path.now }
    ensures { IsTrue result ↔ MayStand (S.space slots.now) path.now (Some (object_of object)) }
{
    object.number == 0 || is_reached(slots, path, object)
}

/// Whether an object that is not allowed is of the same domain and comes no later, so that this one isn't allowed either.
#[inline(always)]
fn is_barred(barred: Option<Object>, object: Object) -> bool
    ensures { IsTrue result ↔ IsBarred (shown barred) (object_of object) }
{
    match barred {
        None => false,
        Some(before) => before.domain == object.domain && before.number <= object.number,
    }
}

/// Whether an index is allowed after a path. Notes an object that isn't allowed.
#[inline(always)]
fn is_allowed<S: Slots>(
    slots: &S,
    path: &[(u32, u32)],
    slot: u32,
    index: u32,
    barred: &mut Option<Object>,
) -> bool
    requires path { PathIn (S.space slots.now) path.now }
    requires allowed { AllowedPath (S.space slots.now) [] path.now }
    requires slot { slot < (S.space slots.now).slots }
    requires index { index < (S.space slots.now).size slot }
    requires barred { MayNotStand (S.space slots.now) path.now (shown barred.old) }
    ensures allowed { IsTrue result ↔ IsAllowed (S.space slots.now) path.now slot index }
    ensures barred { MayNotStand (S.space slots.now) path.now (shown barred.new) }
{
    match slots.object_at(slot, index) {
        None => true,
        Some(object) => {
            if is_barred(*barred, object) {
                return false;
            }
            if may_stand(slots, path, object) {
                return true;
            }
            *barred = Some(object);
            false
        }
    }
}

/// The least allowed index that is at least `least`: a number, a boolean or null, an object on the path, or the next
/// unused one of its class domain.
#[inline(always)]
pub fn next_choice<S: Slots>(slots: &S, path: &[(u32, u32)], slot: u32, least: u32) -> Option<u32>
    requires path { PathIn (S.space slots.now) path.now }
    requires allowed { AllowedPath (S.space slots.now) [] path.now }
    requires slot { slot < (S.space slots.now).slots }
    ensures { IsNextChoice (S.space slots.now) path.now slot least result }
{
    let size = slots.size(slot);
    let mut barred = None;
    for index in least..size {
        if is_allowed(slots, path, slot, index, &mut barred) {
            return Some(index);
        }
    }
    None
}
