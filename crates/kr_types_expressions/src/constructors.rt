// The notes of creations and constructor calls, from those of their parts.
ghost use Rattle.std.specs.Prelude.{◌≡◌, ℕ, List, IfOk, length};
ghost use Rattle.kr_types_meaning.specs.Rules as rules;
ghost use Rattle.kr_types_meaning.specs.Noting as noting;
ghost use Rattle.kr_types_expressions.specs.Vocabulary.{AreClassTypes, Binding, class_there, Extends, HasNoRest, IsNoteWithin, note_shown, scope_in, Setting, table_in};
ghost use Rattle.kr_types_expressions.specs.Constructors.{AreSingle};
ghost use Rattle.kr_types_expressions.specs.Notes.{AreNotesWithin, IsRestBelow, typed_in};

use crate::creations::{array_creation_rule, creation_rule, super_constructor_rule};
use crate::lists::value_types;
use crate::note_list::NoteList;
use crate::parts::part_type;
use kr_base::{NoMemory, Place};
use kr_classes_names::Types;
use kr_classes_table::ClassId;
use kr_types_judging::{ClassTypes, Note, conclude, earlier, plain};
use kr_types_scopes::Within;
use std::alloc::Global;

/// The creation of an object: its type, then the arguments; T26 and T39, if all have types.
pub fn creation_note(
    alloc: Global,
    classes: &ClassTypes<'_>,
    notes: &NoteList,
    here: Within,
    place: Place,
    x: Note,
    y: Note,
) -> Result<Note, NoMemory>
    requires classes { AreClassTypes classes.now }
    requires notes { AreNotesWithin classes.now.types.now notes.now }
    requires created { IsNoteWithin classes.now.types.now x }
    requires arguments { IsNoteWithin classes.now.types.now y }
    requires below { IsRestBelow (length notes.now) y.known }
    ensures within { IfOk result (λ n. IsNoteWithin classes.now.types.now n) }
    ensures no_rest { IfOk result (λ n. HasNoRest n.known) }
    ensures shown { IfOk result (λ n. (g : Setting) (bs : List Binding) → g.table ≡ table_in classes.now.trees.now → AreSingle g.table → let look = typed_in classes.now.types.now notes.now in note_shown classes.now.types.now look n ≡ noting.one_and_list place (rules.creation_rule (scope_in g bs here)) (note_shown classes.now.types.now look x) (note_shown classes.now.types.now look y)) }
{
    let least = earlier(x.least, y.least);
    let arguments = value_types(alloc, classes.types, notes, y.known)?;
    match arguments {
        None => Ok(plain(least)),
        Some(arguments) => match part_type(x.known) {
            None => Ok(plain(least)),
            Some(created) => {
                let verdict = creation_rule(classes, here, created, &arguments);
                Ok(conclude(place, verdict, least))
            }
        },
    }
}

/// The creation of an array: the type of its elements, then its length; T27 and T39, if both have types.
pub fn array_creation_note(
    types: &mut Types,
    here: Within,
    place: Place,
    x: Note,
    y: Note,
) -> Result<Note, NoMemory>
    requires first { IsNoteWithin types.old x }
    requires second { IsNoteWithin types.old y }
    ensures extends { Extends types.old types.new }
    ensures within { IfOk result (λ n. IsNoteWithin types.new n) }
    ensures no_rest { IfOk result (λ n. HasNoRest n.known) }
    ensures shown { IfOk result (λ n. (g : Setting) (bs : List Binding) (look : ℕ → rules.Typed) → note_shown types.new look n ≡ noting.two place (rules.array_creation_rule (scope_in g bs here)) (note_shown types.old look x) (note_shown types.old look y)) }
{
    let least = earlier(x.least, y.least);
    match (part_type(x.known), part_type(y.known)) {
        (Some(a), Some(b)) => {
            let verdict = array_creation_rule(types, here, a, b)?;
            Ok(conclude(place, verdict, least))
        }
        _ => Ok(plain(least)),
    }
}

/// `super(..)` at the head of a constructor: T34, if all arguments have types.
pub fn constructor_call_note(
    alloc: Global,
    classes: &ClassTypes<'_>,
    notes: &NoteList,
    here: Within,
    place: Place,
    class: ClassId,
    x: Note,
) -> Result<Note, NoMemory>
    requires classes { AreClassTypes classes.now }
    requires notes { AreNotesWithin classes.now.types.now notes.now }
    requires arguments { IsNoteWithin classes.now.types.now x }
    requires below { IsRestBelow (length notes.now) x.known }
    ensures within { IfOk result (λ n. IsNoteWithin classes.now.types.now n) }
    ensures no_rest { IfOk result (λ n. HasNoRest n.known) }
    ensures shown { IfOk result (λ n. (g : Setting) (bs : List Binding) → g.table ≡ table_in classes.now.trees.now → AreSingle g.table → class_there g here.class ≡ class → let look = typed_in classes.now.types.now notes.now in note_shown classes.now.types.now look n ≡ noting.list place (rules.super_constructor_rule (scope_in g bs here)) (note_shown classes.now.types.now look x)) }
{
    let arguments = value_types(alloc, classes.types, notes, x.known)?;
    match arguments {
        None => Ok(plain(x.least)),
        Some(arguments) => {
            let verdict = super_constructor_rule(classes, here, class, &arguments);
            Ok(conclude(place, verdict, x.least))
        }
    }
}
