// Slots and objects of a layout, also where they aren't there.
ghost use Rattle.std.specs.Prelude.{◌≡◌, ◌<◌, ◌≤◌, ◌^◌, ◌⊎◌};
ghost use Rattle.std.proofs.Common.{get_or};
ghost use Rattle.kr_report_rows.specs.Vocabulary.{all_objects, bare, domain_at, is_same_object, no_domain_object, object_of, place_of, slot_at};
ghost use Rattle.kr_report_rows.specs.Parts.{number_in, spot_in};
ghost use Rattle.kr_report_rows.specs.Stretches.{IsStretch, IsWithin};

use kr_iso::Object;
use kr_space_layout::Layout;
use kr_value::{Class, Obj, SlotPlace, Spot};

/// Its place; `this` for a slot that isn't there.
#[tactic(auto, using(crate::proofs::Absent::no_place))]
pub fn place_of(layout: &Layout, slot: u32) -> SlotPlace
    ensures { place_of result ≡ (slot_at (bare layout.now) slot).place }
{
    if slot >= layout.slots() {
        return SlotPlace::This;
    }
    layout.place(slot)
}

/// The bytes of the name of a class domain's class or array type; empty where there is none.
#[tactic(auto, using(crate::proofs::Absent::no_name))]
pub(crate) fn name_of(layout: &Layout, domain: u32) -> &[u8]
    ensures { result.now ≡ (domain_at (bare layout.now) domain).name }
{
    if domain as usize >= layout.domains() {
        return b"";
    }
    layout.name(domain)
}

/// What the objects of a class domain are of.
#[tactic(auto, using(crate::proofs::Absent::no_class))]
pub fn class_of(layout: &Layout, domain: u32) -> Class
    ensures { result ≡ (domain_at (bare layout.now) domain).class }
{
    if domain as usize >= layout.domains() {
        return Class::Object(0);
    }
    layout.class(domain)
}

/// The object of a number; where there is none, that of the number 0 in the first class domain.
pub fn numbered(layout: &Layout, number: Obj) -> Object
    ensures { object_of result ≡ get_or (all_objects (bare layout.now)) number no_domain_object }
{
    match layout.numbered(number) {
        Some(object) => object,
        None => Object {
            domain: 0,
            number: 0,
        },
    }
}

/// Whether two objects are the same.
pub(crate) fn are_same(one: Object, other: Object) -> bool
    ensures { result ≡ is_same_object (object_of one) (object_of other) }
{
    one.domain == other.domain && one.number == other.number
}

/// The spot of an object's slot.
fn spot_in(place: SlotPlace) -> Option<Spot>
    ensures { result ≡ spot_in (place_of place) }
{
    match place {
        SlotPlace::This => None,
        SlotPlace::Parameter(_) => None,
        SlotPlace::At(_, spot) => Some(spot),
    }
}

/// The number of a parameter's slot.
fn number_in(place: SlotPlace) -> Option<u32>
    ensures { result ≡ number_in (place_of place) }
{
    match place {
        SlotPlace::This => None,
        SlotPlace::Parameter(number) => Some(number),
        SlotPlace::At(_, _) => None,
    }
}

/// The spot that a slot is, if it is an object's.
pub(crate) fn spot_at(layout: &Layout, slot: u32) -> Option<Spot>
    ensures { result ≡ spot_in (slot_at (bare layout.now) slot).place }
{
    spot_in(place_of(layout, slot))
}

/// So many slots, or as many as numbers name, if that is fewer.
fn at_most_all(width: usize) -> usize
    ensures few { result ≤ width }
    ensures bounded { result ≤ 2 ^ 32 }
    ensures all { (width ≤ result) ⊎ (2 ^ 32 ≤ result) }
{
    if width < 4294967296 {
        width
    } else {
        4294967296
    }
}

/// Adjacent slots: so many from one on, at most as many as numbers name.
#[derive(Clone, Copy)]
pub(crate) struct Stretch {
    pub(crate) first: u32,
    pub(crate) count: usize,
}

/// No slots.
const NOWHERE: Stretch = Stretch { first: 0, count: 0 };

/// Where the slots of an object are; nowhere, where it isn't there.
pub(crate) fn stretch_of(layout: &Layout, object: Object) -> Stretch
    ensures are { IsStretch (bare layout.now) (object_of object) result }
    ensures few { result.count ≤ 2 ^ 32 }
{
    if object.domain as usize >= layout.domains() {
        return NOWHERE;
    }
    if object.number >= layout.count(object.domain) {
        return NOWHERE;
    }
    Stretch {
        first: layout.first_slot(object),
        count: at_most_all(layout.width(object.domain)),
    }
}

/// Whether a slot is one of so many from one on, by one comparison: one before the first is far after the last then.
#[inline(always)]
fn is_among(first: u32, count: usize, slot: u32) -> bool
    requires { count ≤ 2 ^ 32 }
    ensures { IsWithin (record { first = first; count = count }) slot result }
{
    let past = u64::from(slot).wrapping_sub(u64::from(first));
    if past < count as u64 {
        return true;
    }
    false
}

/// Whether a slot is one of them.
#[inline(always)]
pub(crate) fn is_within(stretch: Stretch, slot: u32) -> bool
    requires { stretch.count ≤ 2 ^ 32 }
    ensures within { IsWithin stretch slot result }
    ensures small { slot < 2 ^ 32 }
{
    is_among(stretch.first, stretch.count, slot)
}

/// The number of the parameter whose slot it is, if it is one's.
pub(crate) fn parameter_at(layout: &Layout, slot: u32) -> Option<u32>
    ensures { result ≡ number_in (slot_at (bare layout.now) slot).place }
{
    number_in(place_of(layout, slot))
}
