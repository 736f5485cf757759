// Notes of lists.
ghost use Rattle.std.specs.Prelude.{length};
ghost use Rattle.kr_types.specs.Vocabulary.{AreBelow, AreNotesWithin, parts, Place, Scope};
ghost use Rattle.kr_types.specs.declared.site.Site.{Site as SiteSeen};
ghost use Rattle.kr_types.specs.Sites.{IsNoteOf};
ghost use Rattle.kr_types.specs.Kinds.{IsList};

use crate::site::part_note;
use kr_ast::Node;
use kr_classes_names::Types;
use kr_types_expressions::{NoteList, absent_note, list_note};
use kr_types_judging::{Note, plain};

/// The note of a list, or of an absent part, in any context.
#[inline(always)]
pub(crate) fn link_note(types: &Types, notes: &NoteList, node: Node) -> Note
    requires notes { AreNotesWithin types.now notes.now }
    requires parts { AreBelow (length notes.now) (parts node) }
    requires kind { IsList node }
    ensures { (s : SiteSeen) (here : Scope) (p : Place) → IsNoteOf s types.now notes.now (length notes.now) here p node result }
{
    match node {
        Node::Nil => absent_note(),
        Node::Cons { first, rest } => {
            let x = part_note(types, notes, first);
            let y = part_note(types, notes, rest);
            list_note(x, rest, y)
        }
        _ => plain(None),
    }
}
