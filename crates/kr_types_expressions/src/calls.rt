// The notes of calls, from those of their parts.
ghost use Rattle.std.specs.Prelude.{◌≡◌, ◌<◌, ℕ, List, All, IfOk, IfSome, length, map, option_and_then, option_map};
ghost use Rattle.kr_types_meaning.specs.Rules as rules;
ghost use Rattle.kr_types_meaning.specs.Scopes as scopes;
ghost use Rattle.kr_types_meaning.specs.Noting as noting;
ghost use Rattle.kr_types_expressions.specs.Vocabulary.{AreClassTypes, Binding, count, HasNoRest, IsMethod, IsNoteWithin, IsVerdictWithin, method_named, method_shown, note_shown, scope_in, Setting, table_in, type_at, verdict_shown};
ghost use Rattle.kr_types_expressions.specs.Notes.{AreNotesWithin, IsRestBelow, typed_in};
ghost use Rattle.kr_types_expressions.specs.Parts.{with_list, with_one_and_list};

use crate::lists::value_types;
use crate::note_list::NoteList;
use crate::parts::part_type;
use kr_base::{NoMemory, Place};
use kr_classes_members::Method;
use kr_classes_table::{ClassId, TypeId};
use kr_types_judging::{
    ClassTypes, Judgement, Note, call_rule, conclude, earlier, object_call_rule, plain,
    static_rule, super_rule,
};
use kr_types_scopes::Within;
use std::alloc::Global;

/// A call without object of this method: T5, T24 and T32, if all arguments have types.
pub fn call_note(
    alloc: Global,
    classes: &ClassTypes<'_>,
    notes: &NoteList,
    here: Within,
    place: Place,
    found: Option<Method>,
    x: Note,
) -> Result<Note, NoMemory>
    requires classes { AreClassTypes classes.now }
    requires notes { AreNotesWithin classes.now.types.now notes.now }
    requires found { IfSome found (IsMethod classes.now.trees.now) }
    requires arguments { IsNoteWithin classes.now.types.now x }
    requires below { IsRestBelow (length notes.now) x.known }
    ensures within { IfOk result (λ n. IsNoteWithin classes.now.types.now n) }
    ensures no_rest { IfOk result (λ n. HasNoRest n.known) }
    ensures shown { IfOk result (λ n. (g : Setting) (bs : List Binding) → g.table ≡ table_in classes.now.trees.now → let look = typed_in classes.now.types.now notes.now in let s = scope_in g bs here in note_shown classes.now.types.now look n ≡ noting.list place (rules.call_rule s (option_map (method_shown classes.now.trees.now) found)) (note_shown classes.now.types.now look x)) }
{
    let arguments = value_types(alloc, classes.types, notes, x.known)?;
    match arguments {
        None => Ok(plain(x.least)),
        Some(arguments) => {
            let verdict = call_rule(classes, here, found, &arguments);
            Ok(conclude(place, verdict, x.least))
        }
    }
}

/// A call of `super.m`, by the method that the superclass has: T5, T24 and T33, if all arguments have types.
pub fn super_call_note(
    alloc: Global,
    classes: &ClassTypes<'_>,
    notes: &NoteList,
    here: Within,
    place: Place,
    found: Option<Method>,
    x: Note,
) -> Result<Note, NoMemory>
    requires classes { AreClassTypes classes.now }
    requires notes { AreNotesWithin classes.now.types.now notes.now }
    requires found { IfSome found (IsMethod classes.now.trees.now) }
    requires arguments { IsNoteWithin classes.now.types.now x }
    requires below { IsRestBelow (length notes.now) x.known }
    ensures within { IfOk result (λ n. IsNoteWithin classes.now.types.now n) }
    ensures no_rest { IfOk result (λ n. HasNoRest n.known) }
    ensures shown { IfOk result (λ n. (g : Setting) (bs : List Binding) (name : List ℕ) → g.table ≡ table_in classes.now.trees.now → option_map (method_shown classes.now.trees.now) found ≡ option_and_then (λ c. method_named g.table c name) (scopes.super_class (scope_in g bs here)) → let look = typed_in classes.now.types.now notes.now in note_shown classes.now.types.now look n ≡ noting.list place (rules.super_rule (scope_in g bs here) name) (note_shown classes.now.types.now look x)) }
{
    let arguments = value_types(alloc, classes.types, notes, x.known)?;
    match arguments {
        None => Ok(plain(x.least)),
        Some(arguments) => {
            let verdict = super_rule(classes, here, found, &arguments);
            Ok(conclude(place, verdict, x.least))
        }
    }
}

/// The verdict of T24 on a call after a class's name, if all arguments have types.
fn static_call_verdict(
    classes: &ClassTypes<'_>,
    here: Within,
    found: Option<Method>,
    arguments: Option<Vec<TypeId>>,
) -> Judgement
    requires classes { AreClassTypes classes.now }
    requires found { IfSome found (IsMethod classes.now.trees.now) }
    requires arguments { IfSome arguments (λ ts. All (λ t. t < count classes.now.types.now) ts.items) }
    ensures within { IsVerdictWithin classes.now.types.now result }
    ensures says { (g : Setting) (bs : List Binding) → g.table ≡ table_in classes.now.trees.now → verdict_shown classes.now.types.now result ≡ with_list (rules.static_rule (scope_in g bs here) (option_map (method_shown classes.now.trees.now) found)) (option_map (λ ts. map (type_at classes.now.types.now) ts.items) arguments) }
{
    match arguments {
        None => Judgement::fine(),
        Some(arguments) => static_rule(classes, here, found, &arguments),
    }
}

/// The verdict of T24, T25 and T32 on a call through an object, if the object and all arguments have types.
fn object_call_verdict(
    classes: &ClassTypes<'_>,
    here: Within,
    name: &[u8],
    object: Option<TypeId>,
    arguments: Option<Vec<TypeId>>,
) -> Judgement
    requires classes { AreClassTypes classes.now }
    requires object { IfSome object (λ t. t < count classes.now.types.now) }
    requires arguments { IfSome arguments (λ ts. All (λ t. t < count classes.now.types.now) ts.items) }
    ensures within { IsVerdictWithin classes.now.types.now result }
    ensures says { (g : Setting) (bs : List Binding) → g.table ≡ table_in classes.now.trees.now → verdict_shown classes.now.types.now result ≡ with_one_and_list (rules.object_call_rule (scope_in g bs here) name.now) (option_map (type_at classes.now.types.now) object) (option_map (λ ts. map (type_at classes.now.types.now) ts.items) arguments) }
{
    match object {
        None => Judgement::fine(),
        Some(object) => match arguments {
            None => Judgement::fine(),
            Some(arguments) => object_call_rule(classes, here, name, object, &arguments),
        },
    }
}

/// A call after a dot: first the node before the dot, which is a class if the name is one; then its arguments.
pub fn method_call_note(
    alloc: Global,
    classes: &ClassTypes<'_>,
    notes: &NoteList,
    here: Within,
    place: Place,
    name: &[u8],
    before: Option<ClassId>,
    x: Note,
    y: Note,
) -> Result<Note, NoMemory>
    requires classes { AreClassTypes classes.now }
    requires notes { AreNotesWithin classes.now.types.now notes.now }
    requires object { IsNoteWithin classes.now.types.now x }
    requires arguments { IsNoteWithin classes.now.types.now y }
    requires below { IsRestBelow (length notes.now) y.known }
    ensures within { IfOk result (λ n. IsNoteWithin classes.now.types.now n) }
    ensures no_rest { IfOk result (λ n. HasNoRest n.known) }
    ensures shown { IfOk result (λ n. (g : Setting) (bs : List Binding) → g.table ≡ table_in classes.now.trees.now → let look = typed_in classes.now.types.now notes.now in note_shown classes.now.types.now look n ≡ noting.method_of (scope_in g bs here) place name.now before (note_shown classes.now.types.now look x) (note_shown classes.now.types.now look y)) }
{
    let arguments = value_types(alloc, classes.types, notes, y.known)?;
    match before {
        Some(class) => {
            let found = classes.members.method_named(class, name);
            let verdict = static_call_verdict(classes, here, found, arguments);
            Ok(conclude(place, verdict, y.least))
        }
        None => {
            let object = part_type(x.known);
            let verdict = object_call_verdict(classes, here, name, object, arguments);
            Ok(conclude(place, verdict, earlier(x.least, y.least)))
        }
    }
}
