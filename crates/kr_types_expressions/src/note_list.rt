// The notes of a file's nodes, in few bytes each as long as no node is broken.
ghost use Rattle.std.specs.Prelude.{◌≡◌, ◌<◌, ◌++◌, ◌∷◌, [], true, OnOk, Some, length, slice_get};
ghost use Rattle.kr_types_expressions.specs.Notes.{untyped};

use kr_base::NoMemory;
use kr_sparse::Sparse;
use kr_types_judging::{Known, Note, Typed};
use std::alloc::Global;
use std::marker::Model;

/// The notes of a file's nodes in order. For nodes before the first broken one only the known facts are kept, since
/// nothing is broken in them, and where all of a stretch have no type, nothing is kept. Contracts see the list of the notes.
#[derive(Drop)]
pub struct NoteList {
    sound: Sparse<Known>,
    others: Vec<Note>,
}

impl Model for NoteList {
    ghost use Rattle.std.specs.Prelude.{◌≡◌, List};
    ghost use Rattle.kr_types_judging.specs.declared.notes.Note.{Note};
    ghost use Rattle.kr_types_expressions.specs.Notes.{all_notes, untyped};

    ghost Value = { List Note };

    ghost view = { λ n. all_notes n.sound.items n.others.items };

    ghost invariant = { λ n. n.sound.usual ≡ untyped };
}

/// Whether this is all that is known of a node without a type.
fn is_untyped(known: Known) -> bool
    ensures { result ≡ true → known ≡ untyped }
{
    matches!(known, Known::One(Typed::Untyped))
}

impl NoteList {
    /// No notes. Allocates nothing.
    pub fn new(alloc: Global) -> NoteList
        ensures { result ≡ [] }
    {
        NoteList {
            sound: Sparse::new(alloc, Known::One(Typed::Untyped)),
            others: Vec::new(alloc),
        }
    }

    /// The note of a node.
    #[inline(always)]
    pub fn at(&self, node: u32) -> Note
        requires { node < length self.now }
        ensures { slice_get self.now node ≡ Some result }
    {
        let index = node as usize;
        let sound = self.sound.len();
        if index < sound {
            Note {
                known: self.sound.at(index),
                least: None,
            }
        } else {
            self.others[index - sound]
        }
    }

    /// Adds the note of the next node.
    #[inline(always)]
    pub fn push(&mut self, note: Note) -> Result<(), NoMemory>
        ensures { OnOk result (self.new ≡ self.old ++ note ∷ []) }
    {
        if note.least.is_none() && self.others.is_empty() {
            self.sound.push(note.known, is_untyped(note.known))?;
        } else {
            self.others.push(note)?;
        }
        Ok(())
    }
}
