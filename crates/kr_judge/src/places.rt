// The slots of places.
ghost use Rattle.std.specs.Prelude.{◌≡◌, ◌<◌, ◌≤◌, ◌^◌, ℕ, MatchOption, length, option_to_list};
ghost use Rattle.kr_judge.specs.Columns.{HasNone, spot_at};
ghost use Rattle.kr_judge.specs.Vocabulary.{Array, At, bare, domain_at, Field, heap_number, IsWellFormed, object_of, Parameter, place_of, slots, slots_for};

use kr_iso::Object;
use kr_space_layout::Layout;
use kr_value::{Class, SlotPlace, Spot};

/// A number that is below another.
fn below(number: u32, bound: u32) -> Option<u32>
    ensures { MatchOption result (bound ≤ number) (λ n. (n ≡ number) × (n < bound)) }
{
    if number < bound { Some(number) } else { None }
}

/// An array's slot for a spot, of so many.
fn array_column(array: u32, width: u32, spot: Spot) -> Option<u32>
    ensures { MatchOption result (HasNone (Array array) width spot) (λ j. (j < width) × (spot_at (Array array) j ≡ spot)) }
{
    match spot {
        Spot::Field(_) => None,
        Spot::Length => below(0, width),
        Spot::Element(number) => match number.checked_add(1) {
            None => None,
            Some(column) => below(column, width),
        },
    }
}

/// The slot for a spot of an object that has fields.
fn field_column(width: u32, spot: Spot) -> Option<u32>
    ensures { MatchOption result ((j : ℕ) → j < width → Field j ≡ spot → ⊥) (λ j. (j < width) × (Field j ≡ spot)) }
{
    match spot {
        Spot::Field(number) => below(number, width),
        Spot::Length => None,
        Spot::Element(_) => None,
    }
}

/// An object's slot for a spot, of so many.
fn column(class: Class, width: u32, spot: Spot) -> Option<u32>
    ensures { MatchOption result (HasNone class width spot) (λ j. (j < width) × (spot_at class j ≡ spot)) }
{
    match class {
        Class::Array(array) => array_column(array, width, spot),
        Class::Object(_) => field_column(width, spot),
        Class::Set => field_column(width, spot),
        Class::List => field_column(width, spot),
    }
}

/// The slot of a parameter, if there is such a parameter.
fn parameter_slot(layout: &Layout, number: u32) -> Option<u32>
    requires well { IsWellFormed (bare layout.now) }
    requires small { length (slots (bare layout.now)) < 2 ^ 31 }
    ensures { option_to_list result ≡ slots_for (bare layout.now) (Parameter number) }
{
    if (number as usize) < layout.parameters() {
        Some(number + 1)
    } else {
        None
    }
}

/// The slot of a spot of an object, if it has the spot.
fn spot_slot(layout: &Layout, object: Object, spot: Spot) -> Option<u32>
    requires well { IsWellFormed (bare layout.now) }
    requires small { length (slots (bare layout.now)) < 2 ^ 31 }
    requires domain { object.domain < length layout.now.domains }
    requires number { object.number < (domain_at (bare layout.now) object.domain).count }
    ensures { option_to_list result ≡ slots_for (bare layout.now) (At (heap_number (bare layout.now) (object_of object)) spot) }
{
    let width = layout.width(object.domain) as u32;
    match column(layout.class(object.domain), width, spot) {
        None => None,
        Some(column) => Some(layout.first_slot(object) + column),
    }
}

/// The slot of a place, if a candidate has the place.
pub(crate) fn slot_of(layout: &Layout, place: SlotPlace) -> Option<u32>
    requires well { IsWellFormed (bare layout.now) }
    requires small { length (slots (bare layout.now)) < 2 ^ 31 }
    ensures { option_to_list result ≡ slots_for (bare layout.now) (place_of place) }
{
    match place {
        SlotPlace::This => Some(0),
        SlotPlace::Parameter(number) => parameter_slot(layout, number),
        SlotPlace::At(number, spot) => match layout.numbered(number) {
            None => None,
            Some(object) => spot_slot(layout, object, spot),
        },
    }
}
