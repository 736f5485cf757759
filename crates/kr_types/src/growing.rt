// Notes of nodes whose types may be new: `this` and creations of arrays.
ghost use Rattle.std.specs.Prelude.{◌≡◌, length, IfOk};
ghost use Rattle.kr_types.specs.Vocabulary.{AreNotesWithin, Extends};
ghost use Rattle.kr_types.specs.Sites.{IsSite, IsSpot, IsSpotNote, scope_of};
ghost use Rattle.kr_types.specs.Kinds.{IsGrowing};

use crate::site::{Site, Spot, part_note};
use kr_ast::Node;
use kr_base::NoMemory;
use kr_classes_names::Types;
use kr_classes_table::ClassId;
use kr_types_expressions::{NoteList, array_creation_note, this_note};
use kr_types_judging::{Note, plain};

/// The note of `this` or of the creation of an array.
pub(crate) fn growing_note(
    site: &Site<'_>,
    types: &mut Types,
    notes: &NoteList,
    spot: Spot,
    class: ClassId,
) -> Result<Note, NoMemory>
    requires site { IsSite site.now types.old }
    requires notes { AreNotesWithin types.old notes.now }
    requires spot { IsSpot site.now (length notes.now) spot }
    requires class { (scope_of site.now spot.at).class ≡ class }
    requires kind { IsGrowing spot.node }
    ensures extends { Extends types.old types.new }
    ensures note { IfOk result (λ note. IsSpotNote site.now types.new notes.now spot note) }
{
    match spot.node {
        Node::This => this_note(types, site.here(spot.at), spot.place, class),
        Node::ArrayCreation { element, length } => {
            let x = part_note(types, notes, element);
            let y = part_note(types, notes, length);
            array_creation_note(types, site.here(spot.at), spot.place, x, y)
        }
        _ => Ok(plain(None)),
    }
}
