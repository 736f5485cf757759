// The context of a node's note: its file, the types so far, and the notes of the nodes before it.
ghost use Rattle.std.specs.Prelude.{◌≡◌, ◌<◌, length, slice_index_or};
ghost use Rattle.kr_types.specs.Vocabulary.{IsLinked, IsNoteWithin, IsRestBelow, note_at, note_shown, nowhere, shown_notes, typed_in};
ghost use Rattle.kr_types.specs.Sites.{IsContext};

use crate::site::{Site, Spot, part_note};
use kr_classes_names::Types;
use kr_types_expressions::NoteList;
use kr_types_judging::Note;
use kr_types_scopes::Within;

/// A node of a file, and what its note follows from.
#[derive(Clone, Copy)]
pub(crate) struct Context<'s, 't> {
    pub(crate) site: Site<'s>,
    pub(crate) types: &'t Types,
    pub(crate) notes: &'t NoteList,
    pub(crate) spot: Spot,
}

impl<'s, 't> Context<'s, 't> {
    /// The scope of the node.
    pub(crate) fn here(&self) -> Within
        requires { IsContext self.now }
        ensures { result ≡ slice_index_or self.now.site.scopes.now.within.items self.now.spot.at nowhere }
    {
        self.site.here(self.spot.at)
    }

    /// The note of a part of the node.
    #[inline(always)]
    pub(crate) fn part(&self, part: u32) -> Note
        requires context { IsContext self.now }
        requires part { part < length self.now.notes.now }
        ensures within { IsNoteWithin self.now.types.now result }
        ensures below { IsRestBelow (length self.now.notes.now) result.known }
        ensures linked { IsLinked (typed_in self.now.types.now self.now.notes.now) result.known }
        ensures shown { note_shown self.now.types.now (typed_in self.now.types.now self.now.notes.now) result ≡ note_at (shown_notes self.now.types.now self.now.notes.now) part }
    {
        part_note(self.types, self.notes, part)
    }
}
