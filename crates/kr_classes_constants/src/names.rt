// The outcomes of names in a constant's initial value.
ghost use Rattle.std.specs.Prelude.{◌≡◌, ◌<◌, IfSome, List, length, option_map};
ghost use Rattle.kr_base.specs.declared.place.Place.{Place};
ghost use Rattle.kr_ast.specs.Arena.{Arena, tree_in};
ghost use Rattle.kr_ast.specs.Tree.{Variable as VariableTree};
ghost use Rattle.kr_classes_table.specs.Constants.{Known, class_meant, constant_of, field_meant, field_width, known_value};
ghost use Rattle.kr_classes_names.specs.Shown.{AreHeads};
ghost use Rattle.kr_ast.specs.Files.{file_at};
ghost use Rattle.kr_classes_members.specs.Kept.{AreMembers};
ghost use Rattle.kr_classes_members.specs.Shown.{IsField, field_shown, table_in};
ghost use Rattle.kr_classes_constants.specs.Kept.{AreValues};
ghost use Rattle.kr_classes_constants.specs.Outcomes.{found_shown, known_outcome, sized};

use crate::known::Values;
use crate::note::{Found, Note};
use crate::widths::field_width as declared_width;
use kr_ast::{Node, Tree, tree_of};
use kr_classes_members::{Field, Members};
use kr_classes_names::Heads;
use kr_classes_table::ClassId;

/// The position of an expression: the number of its file, and of the class whose code it is.
#[derive(Clone, Copy)]
pub(crate) struct Site {
    pub file: u32,
    pub class: ClassId,
}

/// The note of the field that a name means, of its declared width.
fn field_found(trees: &[Tree], values: &Values, field: Option<Field>) -> Found
    requires { IfSome field (IsField trees.now) }
    ensures { (known : List Known) → AreValues known values.now → found_shown result ≡ sized (field_width (option_map (field_shown trees.now) field)) (known_outcome (known_value known (option_map (field_shown trees.now) field))) }
{
    Found {
        width: declared_width(trees, field),
        note: Note::of_known(values.value_of(field)),
    }
}

/// The note of a simple name.
pub(crate) fn name_note(
    trees: &[Tree],
    members: &Members,
    values: &Values,
    class: ClassId,
    name: &[u8],
) -> Found
    requires { AreMembers trees.now members.now }
    ensures { (known : List Known) → AreValues known values.now → found_shown result ≡ sized (field_width (field_meant (table_in trees.now) class name.now)) (known_outcome (known_value known (field_meant (table_in trees.now) class name.now))) }
{
    field_found(trees, values, members.field_meant(class, name))
}

/// The class that a simple name before a dot means, where no field has the name.
fn class_named(heads: &Heads, members: &Members, class: ClassId, name: &[u8]) -> Option<ClassId>
    ensures { (files : List Arena) (p : Place) → AreHeads files heads.now → AreMembers files members.now → result ≡ class_meant (table_in files) class (VariableTree p name.now) }
{
    match members.field_meant(class, name) {
        Some(_) => None,
        None => heads.number_of(name),
    }
}

/// The class that an expression before a dot means.
fn class_before(
    trees: &[Tree],
    heads: &Heads,
    members: &Members,
    site: Site,
    object: u32,
) -> Option<ClassId>
    requires heads { AreHeads trees.now heads.now }
    requires members { AreMembers trees.now members.now }
    requires file { site.file < length trees.now }
    requires object { object < length (file_at trees.now site.file).entries }
    ensures { result ≡ class_meant (table_in trees.now) site.class (tree_in (file_at trees.now site.file) object) }
{
    let tree = tree_of(trees, site.file);
    match tree.entry(object).node {
        Node::Variable { name } => class_named(heads, members, site.class, tree.name(name)),
        _ => None,
    }
}

/// The note of a name after a dot.
pub(crate) fn access_note(
    trees: &[Tree],
    heads: &Heads,
    members: &Members,
    values: &Values,
    site: Site,
    object: u32,
    name: &[u8],
) -> Found
    requires heads { AreHeads trees.now heads.now }
    requires members { AreMembers trees.now members.now }
    requires file { site.file < length trees.now }
    requires object { object < length (file_at trees.now site.file).entries }
    ensures { (known : List Known) → AreValues known values.now → found_shown result ≡ sized (field_width (constant_of (table_in trees.now) (class_meant (table_in trees.now) site.class (tree_in (file_at trees.now site.file) object)) name.now)) (known_outcome (known_value known (constant_of (table_in trees.now) (class_meant (table_in trees.now) site.class (tree_in (file_at trees.now site.file) object)) name.now))) }
{
    let class = class_before(trees, heads, members, site, object);
    field_found(trees, values, members.constant_of(class, name))
}
