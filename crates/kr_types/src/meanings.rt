// The meaning of a node, from the notes of its parts.
ghost use Rattle.std.specs.Prelude.{◌≡◌, ◌<◌, IfOk, IfSome, length, option_map};
ghost use Rattle.kr_types.specs.Vocabulary.{AreNotesWithin, class_before, count, note_at, shown_notes, tree_in, type_at, type_in, value};
ghost use Rattle.kr_types.specs.Sites.{AreKept, IsBefore, IsMeantBy, IsSite, IsSpot, scope_of, tree_there};

use crate::notes::Noted;
use crate::site::{Site, Spot, part_note};
use kr_ast::Node;
use kr_base::NoMemory;
use kr_classes_names::Types;
use kr_classes_table::{ClassId, TypeId};
use kr_types_expressions::part_type;
use kr_types_judging::type_of_node;
use kr_types_resolving::{
    Classes, Meaning, call_meaning, creation_meaning, field_behind, method_behind, super_meaning,
    variable_meaning,
};

/// The class that a node before the dot of another means.
fn class_of_object(
    _site: &Site<'_>,
    _types: &Types,
    noted: &Noted,
    _at: u32,
    object: u32,
) -> Option<ClassId>
    requires kept { AreKept _site.now _types.now noted.now }
    requires object { object < length noted.now.notes }
    requires within { length noted.now.notes < length (tree_there _site.now).entries }
    requires handed { scope_of _site.now object ≡ value (scope_of _site.now _at) }
    ensures { result ≡ class_before (scope_of _site.now _at) (tree_in (tree_there _site.now) object) }
{
    noted.meanings.at(object).class()
}

/// The class before the dot of a node, if it has one.
pub(crate) fn class_before(
    site: &Site<'_>,
    types: &Types,
    noted: &Noted,
    spot: Spot,
) -> Option<ClassId>
    requires site { IsSite site.now types.now }
    requires kept { AreKept site.now types.now noted.now }
    requires spot { IsSpot site.now (length noted.now.notes) spot }
    ensures { IsBefore site.now spot.at spot.node result }
{
    match spot.node {
        Node::FieldAccess { object, .. } => class_of_object(site, types, noted, spot.at, object),
        Node::MethodCall { object, .. } => class_of_object(site, types, noted, spot.at, object),
        _ => None,
    }
}

/// The type of the object before a dot.
fn object_type(types: &Types, noted: &Noted, object: u32) -> Option<TypeId>
    requires notes { AreNotesWithin types.now noted.now.notes }
    requires object { object < length noted.now.notes }
    ensures within { IfSome result (λ t. t < count types.now) }
    ensures shown { option_map (type_at types.now) result ≡ type_in (note_at (shown_notes types.now noted.now.notes) object).typed }
{
    part_type(part_note(types, &noted.notes, object).known)
}

/// The meaning of a node, given the notes of the nodes before it. Fails at 2^32 - 1 locals.
pub(crate) fn node_meaning(
    site: &Site<'_>,
    types: &Types,
    noted: &Noted,
    spot: Spot,
    class: ClassId,
    before: Option<ClassId>,
) -> Result<Meaning, NoMemory>
    requires site { IsSite site.now types.now }
    requires kept { AreKept site.now types.now noted.now }
    requires spot { IsSpot site.now (length noted.now.notes) spot }
    requires class { (scope_of site.now spot.at).class ≡ class }
    requires before { IsBefore site.now spot.at spot.node before }
    ensures { IfOk result (λ m. IsMeantBy site.now (shown_notes types.now noted.now.notes) spot.at spot.node m) }
{
    let classes = Classes {
        trees: site.trees,
        heads: site.heads,
        members: site.members,
        roster: site.roster,
    };
    match spot.node {
        Node::Variable { name } => variable_meaning(
            &classes,
            site.scopes,
            site.file,
            spot.at,
            class,
            site.tree().name(name),
        ),
        Node::FieldAccess { object, name } => {
            let object = object_type(types, noted, object);
            Ok(field_behind(&classes, types, before, object, site.tree().name(name)))
        }
        Node::Call { name, .. } => Ok(call_meaning(&classes, class, site.tree().name(name))),
        Node::MethodCall { object, name, .. } => {
            let object = object_type(types, noted, object);
            Ok(method_behind(&classes, types, before, object, site.tree().name(name)))
        }
        Node::SuperCall { name, .. } => {
            Ok(super_meaning(&classes, class, site.tree().name(name)))
        }
        Node::ObjectCreation { class, .. } => {
            let created = type_of_node(site.trees, types, site.numbers, site.file, Some(class));
            Ok(creation_meaning(types, created))
        }
        _ => Ok(Meaning::Nothing),
    }
}
