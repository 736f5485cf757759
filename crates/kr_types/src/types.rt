// Notes of types as they are written.
ghost use Rattle.std.specs.Prelude.{◌≡◌, List, length, IfOk};
ghost use Rattle.kr_types.specs.Vocabulary.{AreNotesWithin, Extends, NoteKept, tree_in, tree_of};
ghost use Rattle.kr_types.specs.Sites.{IsSite, IsSpot, IsSpotNote, tree_there};
ghost use Rattle.kr_types.specs.Kinds.{IsType, IsTypeName};

use crate::site::{Site, Spot, part_note};
use kr_ast::Node;
use kr_base::NoMemory;
use kr_classes_names::Types;
use kr_types_expressions::NoteList;
use kr_types_judging::{Note, plain};
use kr_types_statements::{array_type_note, diamond_type_note, generic_type_note, named_type_note};

/// The note of a type that its names alone determine, independent of earlier notes.
fn type_name_note(site: &Site<'_>, types: &Types, spot: Spot) -> Note
    requires site { IsSite site.now types.now }
    requires tree { tree_in (tree_there site.now) spot.at ≡ tree_of (tree_there site.now).text (tree_in (tree_there site.now)) spot.place spot.node }
    requires kind { IsTypeName spot.node }
    ensures { (ns : List NoteKept) → IsSpotNote site.now types.now ns spot result }
{
    let at = spot.at;
    let place = spot.place;
    match spot.node {
        Node::PrimitiveType { .. } => {
            named_type_note(site.trees, types, site.numbers, site.file, at, place)
        }
        Node::NamedType { .. } => {
            named_type_note(site.trees, types, site.numbers, site.file, at, place)
        }
        Node::QualifiedType { .. } => {
            named_type_note(site.trees, types, site.numbers, site.file, at, place)
        }
        Node::DiamondType { .. } => {
            diamond_type_note(site.trees, types, site.numbers, site.file, at, place)
        }
        _ => plain(None),
    }
}

/// The note of a type.
pub(crate) fn type_note(
    site: &Site<'_>,
    types: &mut Types,
    notes: &NoteList,
    spot: Spot,
) -> Result<Note, NoMemory>
    requires site { IsSite site.now types.old }
    requires notes { AreNotesWithin types.old notes.now }
    requires spot { IsSpot site.now (length notes.now) spot }
    requires kind { IsType spot.node }
    ensures extends { Extends types.old types.new }
    ensures note { IfOk result (λ note. IsSpotNote site.now types.new notes.now spot note) }
{
    let place = spot.place;
    match spot.node {
        Node::GenericType { head, argument } => {
            let x = part_note(types, notes, argument);
            generic_type_note(site.trees, types, site.numbers, site.file, head, place, x)
        }
        Node::ArrayType { element } => {
            let x = part_note(types, notes, element);
            array_type_note(types, place, x)
        }
        _ => Ok(type_name_note(site, types, spot)),
    }
}
