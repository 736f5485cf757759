// E1: what the creation of an object runs.
ghost use Rattle.std.specs.Prelude.{◌≡◌, ◌<◌, List, flat_map, length, not, ◌&&◌};
ghost use Rattle.kr_emit.specs.Vocabulary.{AreMembers, Arena, break_if, construction_faults, constructor_fault, constructors_of, fault_at, field_fault, field_shown, is_built, IsField, least, own_fields, table_in, upto};
ghost use Rattle.std.specs.Prelude.{[], if◌then◌else◌};

use crate::counted::is_built;
use crate::literals::is_literal;
use kr_ast::{Tree, tree_of};
use kr_base::Place;
use kr_classes::earlier;
use kr_classes_members::{Field, Members};
use kr_classes_table::ClassId;
use kr_space_layout::Layout;

/// The place of a class's first constructor.
fn constructor_place(members: &Members, class: ClassId) -> Option<Place>
    ensures { (files : List Arena) → AreMembers files members.now → fault_at 1 result ≡ least (flat_map constructor_fault (constructors_of (table_in files) class)) }
{
    let mut first = None;
    for constructor in members.constructors(class) {
        first = earlier(first, Some(constructor.place));
    }
    first
}

/// A field's place, if it is an instance field whose initial value is no literal.
fn place_of(trees: &[Tree], field: Field) -> Option<Place>
    requires { IsField trees.now field }
    ensures { fault_at 1 result ≡ least (field_fault (field_shown trees.now field)) }
{
    if field.is_static {
        return None;
    }
    if is_literal(tree_of(trees, field.file), field.initial) {
        None
    } else {
        Some(field.place)
    }
}

/// The place of the first of a class's own fields whose initial value is no literal.
fn field_place(trees: &[Tree], members: &Members, class: ClassId) -> Option<Place>
    requires { AreMembers trees.now members.now }
    ensures { fault_at 1 result ≡ least (flat_map field_fault (own_fields (table_in trees.now) class)) }
{
    let mut first = None;
    for field in members.fields(class) {
        first = earlier(first, place_of(trees, *field));
    }
    first
}

/// The first place in a class of what a creation can't run.
fn class_place(trees: &[Tree], members: &Members, layout: &Layout, class: ClassId) -> Option<Place>
    requires members { AreMembers trees.now members.now }
    requires few { length layout.now.domains < 4294967296 }
    ensures { fault_at 1 result ≡ least (if is_built (table_in trees.now) class layout.now.domains then construction_faults (table_in trees.now) class else []) }
{
    if !is_built(members, layout, class) {
        return None;
    }
    let constructor = constructor_place(members, class);
    let field = field_place(trees, members, class);
    earlier(constructor, field)
}

/// The first place at which E1 is broken, in so many classes.
pub(crate) fn construction_place(
    trees: &[Tree],
    members: &Members,
    layout: &Layout,
    classes: u32,
) -> Option<Place>
    requires members { AreMembers trees.now members.now }
    requires few { length layout.now.domains < 4294967296 }
    ensures { fault_at 1 result ≡ least (flat_map (λ c. if is_built (table_in trees.now) c layout.now.domains then construction_faults (table_in trees.now) c else []) (upto classes)) }
{
    let mut first = None;
    for class in 0..classes {
        first = earlier(first, class_place(trees, members, layout, class));
    }
    first
}
