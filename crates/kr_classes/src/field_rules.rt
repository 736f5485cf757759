// The class rules on fields, constants and constructors (C4), and on how many classes and fields there may be (C8).
ghost use Rattle.std.specs.Prelude.{◌≡◌, ◌<◌, ◌≤◌, ◌||◌, ◌&&◌, ◌+◌, ◌-◌, min, not, true, List, Some, None, length, map, flat_map, drop, is_some, bytes_eq, nat_lt, option_to_list, if◌then◌else◌};
ghost use Rattle.std.specs.List.{position_from};
ghost use Rattle.kr_ast.specs.Arena.{Arena};
ghost use Rattle.kr_classes_table.specs.Table.{ancestors, class_at, field_on, is_instance, is_number, own_fields};
ghost use Rattle.kr_classes_table.specs.Predefined.{PREDEFINED};
ghost use Rattle.kr_classes_table.specs.Rules.{C4, C8, break_if, least, past, repeated};
ghost use Rattle.kr_classes_members.specs.Kept.{AreMembers, class_count};
ghost use Rattle.kr_classes.specs.Faults.{class_in, fault_at, field_places, inherited_names};
ghost use Rattle.kr_classes_members.specs.Shown.{table_in};

use crate::places::{earlier, if_broken};
use kr_ast::{Tree, tree_of};
use kr_base::Place;
use kr_classes_members::{Field, Members};
use kr_classes_table::ClassId;

/// Whether a field has the name of an inherited one, or of one before it in its class.
fn is_repeated_field(members: &Members, class: ClassId, number: usize, name: &[u8]) -> bool
    ensures { (files : List Arena) → AreMembers files members.now → result ≡ is_some (field_on (table_in files) (ancestors (table_in files) class) name.now) || not (is_number (position_from (bytes_eq name.now) 0 (map (λ f. f.name) (own_fields (table_in files) class))) (Some number)) }
{
    if members.inherited_field(class, name).is_some() {
        return true;
    }
    match members.own_field_number(class, name) {
        None => true,
        Some(first) => first as usize != number,
    }
}

/// The first field that has the name of an inherited one, or of one before it.
fn repeated_field(trees: &[Tree], members: &Members, class: ClassId) -> Option<Place>
    requires { AreMembers trees.now members.now }
    ensures { fault_at 4 result ≡ least (repeated 4 (inherited_names (table_in trees.now) class) (field_places (own_fields (table_in trees.now) class))) }
{
    let mut first = None;
    for (number, field) in members.fields(class).iter().enumerate() {
        let name = tree_of(trees, field.file).name(field.name);
        let is_repeated = is_repeated_field(members, class, number, name);
        first = earlier(first, if_broken(is_repeated, field.place));
    }
    first
}

/// The first constructor after another.
fn later_constructor(members: &Members, class: ClassId) -> Option<Place>
    ensures { (files : List Arena) → AreMembers files members.now → fault_at 4 result ≡ least (flat_map (λ k. break_if true 4 k.place) (drop 1 (flat_map (λ d. d.constructors) (option_to_list (class_at (table_in files).classes class))))) }
{
    let constructors = members.constructors(class);
    if constructors.is_empty() {
        return None;
    }
    let mut first = None;
    for constructor in &constructors[1..] {
        first = earlier(first, if_broken(true, constructor.place));
    }
    first
}

/// Where rule C4 is broken first in a class.
pub(crate) fn repeated_member(trees: &[Tree], members: &Members, class: ClassId) -> Option<Place>
    requires members { AreMembers trees.now members.now }
    requires class { class < class_count members.now }
    ensures { fault_at 4 result ≡ least (C4 (table_in trees.now) class (class_in (table_in trees.now) class)) }
{
    let field = repeated_field(trees, members, class);
    let constructor = later_constructor(members, class);
    earlier(field, constructor)
}

/// The count of a field among those that every object has: 0 or 1.
fn counted(field: Field) -> usize
    ensures value { result ≡ (if field.is_static then 0 else 1) }
    ensures small { result ≤ 1 }
{
    if field.is_static { 0 } else { 1 }
}

/// How many instance fields a class declares itself.
fn instance_count(members: &Members, class: ClassId) -> usize
    ensures { (files : List Arena) → AreMembers files members.now → result ≡ length (flat_map is_instance (own_fields (table_in files) class)) }
{
    let mut count = 0;
    for field in members.fields(class) {
        count += counted(*field);
    }
    count
}

/// The sum, and 32 where it is more.
fn capped_sum(total: usize, count: usize) -> usize
    requires { total ≤ 32 }
    ensures { result ≡ min 32 (total + count) }
{
    if count >= 32 - total {
        32
    } else {
        total + count
    }
}

/// How many instance fields a class inherits, and 32 where there are more.
fn inherited_count(members: &Members, class: ClassId) -> usize
    ensures value { (files : List Arena) → AreMembers files members.now → result ≡ min 32 (length (flat_map is_instance (flat_map (own_fields (table_in files)) (ancestors (table_in files) class)))) }
    ensures small { result ≤ 32 }
{
    let mut total = 0;
    let mut at = members.superclass(class);
    for step in 0..members.len() {
        match at {
            None => return total,
            Some(here) => {
                total = capped_sum(total, instance_count(members, here));
                at = members.superclass(here);
            }
        }
    }
    total
}

/// Whether it is an instance field beyond `room`, after `seen` earlier ones.
fn is_past(field: Field, seen: usize, room: usize) -> bool
    ensures { result ≡ not field.is_static && not (nat_lt seen room) }
{
    !field.is_static && seen >= room
}

/// The first of a class's own instance fields for which there is no room.
fn extra_field(members: &Members, class: ClassId, room: usize) -> Option<Place>
    ensures { (files : List Arena) → AreMembers files members.now → fault_at 8 result ≡ least (past room (flat_map is_instance (own_fields (table_in files) class))) }
{
    let mut first = None;
    let mut seen = 0;
    for field in members.fields(class) {
        first = earlier(first, if_broken(is_past(*field, seen, room), field.place));
        seen += counted(*field);
    }
    first
}

/// The place of a class past the 64th after the predefined ones.
fn extra_class(members: &Members, class: ClassId) -> Option<Place>
    requires { class < class_count members.now }
    ensures { (files : List Arena) → AreMembers files members.now → fault_at 8 result ≡ least (break_if (nat_lt (63 + PREDEFINED) class) 8 (class_in (table_in files) class).place) }
{
    if class > 76 {
        members.place(class)
    } else {
        None
    }
}

/// Where rule C8 is broken first in a class.
pub(crate) fn too_many(members: &Members, class: ClassId) -> Option<Place>
    requires { class < class_count members.now }
    ensures { (files : List Arena) → AreMembers files members.now → fault_at 8 result ≡ least (C8 (table_in files) class (class_in (table_in files) class)) }
{
    let room = 32 - inherited_count(members, class);
    earlier(
        extra_class(members, class),
        extra_field(members, class, room),
    )
}
