// The creation of one array; a list of one value; calls and creations in a program without classes.
ghost use Rattle.std.specs.Prelude.{◌≡◌, ◌<◌, length, IfOk};
ghost use Rattle.kr_classes_names.specs.Types.{TypeList, count};
ghost use Rattle.kr_types_judging.specs.Classes.{AreClassTypes};
ghost use Rattle.kr_types_judging.specs.Shown.{HasNoRest, IsKnownWithin, IsNoteWithin};
ghost use Rattle.kr_types_expressions.specs.Notes.{AreNotesWithin, IsRestBelow};
ghost use Rattle.kr_sources.specs.Sources.{AreSources};

use kr_base::{NoMemory, Place};
use kr_classes_names::{NodeTypes, TypeForm, Types};
use kr_sources::Sources;
use kr_types_expressions::{
    NoteList, absent_note, array_creation_note, call_note, constructor_call_note, creation_note,
    list_note, method_call_note, super_call_note, this_note, value_types,
};
use kr_types_judging::{ClassTypes, Known, Note, Typed};
use kr_types_scopes::Within;
use std::alloc::Global;

const PLACE: Place = Place {
    file: 0,
    line: 1,
    col: 1,
};

fn value_note(number: u32) -> Note
    ensures within { (l : TypeList) → number < count l → IsNoteWithin l result }
    ensures no_rest { HasNoRest result.known }
{
    Note {
        known: Known::One(Typed::Value(number)),
        least: None,
    }
}

/// The number of the rule that a node breaks.
fn broken(note: Note) -> u32 {
    match note.least {
        None => 0,
        Some(fault) => fault.rule.number(),
    }
}

/// A note without a fault.
fn standing(types: &Types, notes: &NoteList, at: u32) -> Note
    requires notes { AreNotesWithin types.now notes.now }
    requires at { at < length notes.now }
    ensures within { IsNoteWithin types.now result }
    ensures below { IsRestBelow (length notes.now) result.known }
{
    notes.at(at)
}

/// The end of a list, and a list of one int.
fn one_int(alloc: Global, types: &Types) -> Result<NoteList, NoMemory>
    ensures count { IfOk result (λ notes. length notes ≡ 2) }
    ensures within { IfOk result (λ notes. AreNotesWithin types.now notes) }
{
    let mut notes = NoteList::new(alloc);
    let end = absent_note();
    notes.push(end)?;
    let list = list_note(value_note(types.int()), 0, end);
    notes.push(list)?;
    Ok(notes)
}

/// An array of ints, one whose length is a boolean, and `this`.
fn creations_fit(types: &mut Types) -> Result<bool, NoMemory> {
    let here = Within::outside();
    let int = value_note(types.int());
    let array = array_creation_note(types, here, PLACE, int, int)?;
    let boolean = value_note(types.boolean());
    let other = array_creation_note(types, here, PLACE, boolean, boolean)?;
    let this = this_note(types, here, PLACE, 0)?;
    Ok(
        array.known == Known::One(Typed::Value(6))
            && broken(other) == 27
            && this.known == Known::One(Typed::Value(8)),
    )
}

#[test]
fn types_that_are_new(rt: HostRuntime) -> Result<(), NoMemory> {
    let mut types = Types::new(rt.alloc())?;
    let fit = creations_fit(&mut types)?;
    assert!(rt; fit);
    Ok(())
}

/// The rules that calls with this list break in a program without methods.
fn broken_calls(
    alloc: Global,
    classes: &ClassTypes<'_>,
    notes: &NoteList,
    x: Note,
) -> Result<(u32, u32), NoMemory>
    requires classes { AreClassTypes classes.now }
    requires notes { AreNotesWithin classes.now.types.now notes.now }
    requires arguments { IsNoteWithin classes.now.types.now x }
    requires below { IsRestBelow (length notes.now) x.known }
{
    let here = Within::outside();
    let call = call_note(alloc, classes, notes, here, PLACE, None, x)?;
    let above = super_call_note(alloc, classes, notes, here, PLACE, None, x)?;
    Ok((broken(call), broken(above)))
}

/// The rules that creations and a call through an object break, if the object and the created type are `null`'s.
fn broken_creations(
    alloc: Global,
    classes: &ClassTypes<'_>,
    notes: &NoteList,
    x: Note,
) -> Result<(u32, u32, u32), NoMemory>
    requires classes { AreClassTypes classes.now }
    requires notes { AreNotesWithin classes.now.types.now notes.now }
    requires arguments { IsNoteWithin classes.now.types.now x }
    requires below { IsRestBelow (length notes.now) x.known }
{
    let here = Within::outside();
    let null = value_note(classes.types.null());
    let created = creation_note(alloc, classes, notes, here, PLACE, null, x)?;
    let call = constructor_call_note(alloc, classes, notes, here, PLACE, 0, x)?;
    let through = method_call_note(alloc, classes, notes, here, PLACE, b"m", None, null, x)?;
    Ok((broken(created), broken(call), broken(through)))
}

/// How many types the values of a list have, if all of them have one.
fn types_given(
    alloc: Global,
    types: &Types,
    notes: &NoteList,
    list: Known,
) -> Result<usize, NoMemory>
    requires notes { AreNotesWithin types.now notes.now }
    requires list { IsKnownWithin types.now list }
    requires below { IsRestBelow (length notes.now) list }
{
    match value_types(alloc, types, notes, list)? {
        None => Ok(0),
        Some(given) => Ok(given.len()),
    }
}

/// All these, where the list has one int.
fn rules_fit(alloc: Global, classes: &ClassTypes<'_>, notes: &NoteList) -> Result<bool, NoMemory>
    requires classes { AreClassTypes classes.now }
    requires notes { AreNotesWithin classes.now.types.now notes.now }
    requires two { length notes.now ≡ 2 }
{
    let x = standing(classes.types, notes, 1);
    let given = types_given(alloc, classes.types, notes, x.known)?;
    let calls = broken_calls(alloc, classes, notes, x)?;
    let creations = broken_creations(alloc, classes, notes, x)?;
    Ok(given == 1 && calls == (24, 33) && creations == (26, 34, 24))
}

/// The list is read beside the members and the types.
fn list_fits(alloc: Global, classes: &ClassTypes<'_>) -> Result<bool, NoMemory>
    requires { AreClassTypes classes.now }
{
    let notes = one_int(alloc, classes.types)?;
    rules_fit(alloc, classes, &notes)
}

fn read_fits(alloc: Global, sources: &Sources<'_>, types: &mut Types) -> Result<bool, NoMemory>
    requires { AreSources sources.now }
{
    let numbers = NodeTypes::read(alloc, sources.trees, sources.heads, types)?;
    let classes = ClassTypes {
        trees: sources.trees,
        types: &*types,
        members: sources.members,
        node_types: &numbers,
    };
    list_fits(alloc, &classes)
}

/// Calls and creations in a program without classes.
pub fn calls_fit(alloc: Global, sources: &Sources<'_>) -> Result<bool, NoMemory>
    requires { AreSources sources.now }
{
    let mut types = Types::new(alloc)?;
    read_fits(alloc, sources, &mut types)
}
