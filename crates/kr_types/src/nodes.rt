// The note of a node of any kind.
ghost use Rattle.std.specs.Prelude.{◌≡◌, IfOk, length};
ghost use Rattle.kr_types.specs.Vocabulary.{AreNotesWithin, Extends, shown_notes};
ghost use Rattle.kr_types.specs.Kinds.{IsOfBare, IsOfNamed};
ghost use Rattle.kr_types.specs.Sites.{IsBefore, IsMeantBy, IsSite, IsSpot, IsSpotNote, scope_of};

use crate::context::Context;
use crate::contracts::line_note;
use crate::expressions::{leaf_note, operation_note, write_note};
use crate::group::{Bare, Named};
use crate::growing::growing_note;
use crate::resolved::{access_note, call_group_note, declaration_note, name_note};
use crate::site::{Site, Spot};
use crate::statements::{returned_note, test_note};
use crate::throws::thrown_note;
use crate::types::type_note;
use kr_base::NoMemory;
use kr_classes_names::Types;
use kr_classes_table::ClassId;
use kr_types_expressions::NoteList;
use kr_types_judging::Note;
use kr_types_resolving::Meaning;
use std::alloc::Global;

/// The note of a node for which nothing is looked up, given the notes of the nodes before it.
pub(crate) fn bare_note(
    alloc: Global,
    site: &Site<'_>,
    types: &mut Types,
    notes: &NoteList,
    kind: Bare,
    spot: Spot,
) -> Result<Note, NoMemory>
    requires site { IsSite site.now types.old }
    requires notes { AreNotesWithin types.old notes.now }
    requires kind { IsOfBare kind spot.node }
    requires spot { IsSpot site.now (length notes.now) spot }
    ensures extends { Extends types.old types.new }
    ensures note { IfOk result (λ note. IsSpotNote site.now types.new notes.now spot note) }
{
    let context = Context {
        site: *site,
        types: &*types,
        notes: &*notes,
        spot,
    };
    match kind {
        Bare::Type => type_note(site, types, notes, spot),
        Bare::Leaf => Ok(leaf_note(&context)),
        Bare::Operation => Ok(operation_note(&context)),
        Bare::Write => Ok(write_note(&context)),
        Bare::Contract => Ok(line_note(&context)),
        Bare::Returned => Ok(returned_note(&context)),
        Bare::Test => Ok(test_note(&context)),
        Bare::Thrown => thrown_note(alloc, site, types, notes, spot),
    }
}

/// The note of another node, in the code of a class, given the notes of the nodes before it.
pub(crate) fn named_note(
    alloc: Global,
    site: &Site<'_>,
    types: &mut Types,
    notes: &NoteList,
    kind: Named,
    spot: Spot,
    class: ClassId,
    before: Option<ClassId>,
    meaning: Meaning,
) -> Result<Note, NoMemory>
    requires site { IsSite site.now types.old }
    requires notes { AreNotesWithin types.old notes.now }
    requires kind { IsOfNamed kind spot.node }
    requires spot { IsSpot site.now (length notes.now) spot }
    requires class { (scope_of site.now spot.at).class ≡ class }
    requires before { IsBefore site.now spot.at spot.node before }
    requires meant { IsMeantBy site.now (shown_notes types.old notes.now) spot.at spot.node meaning }
    ensures extends { Extends types.old types.new }
    ensures note { IfOk result (λ note. IsSpotNote site.now types.new notes.now spot note) }
{
    let context = Context {
        site: *site,
        types: &*types,
        notes: &*notes,
        spot,
    };
    match kind {
        Named::Name => Ok(name_note(&context, class)),
        Named::Growing => growing_note(site, types, notes, spot, class),
        Named::Access => access_note(alloc, &context, before),
        Named::Call => call_group_note(alloc, &context, class, meaning),
        Named::Declaration => Ok(declaration_note(&context, class)),
    }
}
