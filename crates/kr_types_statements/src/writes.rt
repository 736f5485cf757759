// The notes of assignments, from those of target and value.
ghost use Rattle.std.specs.Prelude.{◌≡◌, ℕ, List};
ghost use Rattle.kr_types_meaning.specs.Rules as rules;
ghost use Rattle.kr_types_statements.specs.Vocabulary.{AreMembers, Arena, Binding, HasNoRest, IsNoteWithin, known_shown, note_shown, one, scope_in, Setting, table_in, two, typed_shown, TypeList};

use kr_ast::BinaryOperator;
use kr_base::Place;
use kr_classes_members::Members;
use kr_classes_names::Types;
use kr_types_expressions::part_type;
use kr_types_judging::{
    Known, Note, Typed, assignment_rule, compound_rule, conclude, earlier, plain, step_rule,
};
use kr_types_scopes::Within;

/// The facts known of an expression that is assigned to; a list is no variable.
fn target_of(known: Known) -> Typed
    ensures { (l : TypeList) (look : ℕ → rules.Typed) → rules.is_variable (typed_shown l result) ≡ rules.is_variable (known_shown l look known) }
{
    match known {
        Known::One(typed) => typed,
        Known::Absent => Typed::Untyped,
        Known::More { .. } => Typed::Untyped,
    }
}

/// `++` or `--` (Java Language Specification 15.14.2, 15.14.3, 15.15.1, 15.15.2): T18, T19 and T39, if the target has a
/// type.
pub fn step_note(types: &Types, members: &Members, here: Within, place: Place, x: Note) -> Note
    requires { IsNoteWithin types.now x }
    ensures within { IsNoteWithin types.now result }
    ensures no_rest { HasNoRest result.known }
    ensures shown { (files : List Arena) (g : Setting) (bs : List Binding) (look : ℕ → rules.Typed) → AreMembers files members.now → g.table ≡ table_in files → note_shown types.now look result ≡ one place (rules.step_rule (scope_in g bs here) (note_shown types.now look x).typed) (note_shown types.now look x) }
{
    let target = target_of(x.known);
    match part_type(x.known) {
        None => plain(x.least),
        Some(a) => conclude(place, step_rule(types, members, here, target, a), x.least),
    }
}

/// An assignment: the target, then the value (Java Language Specification 15.26.1); T16, T19 and T39, if both have types.
pub fn assignment_note(
    types: &Types,
    members: &Members,
    here: Within,
    place: Place,
    x: Note,
    y: Note,
) -> Note
    requires first { IsNoteWithin types.now x }
    requires second { IsNoteWithin types.now y }
    ensures within { IsNoteWithin types.now result }
    ensures no_rest { HasNoRest result.known }
    ensures shown { (files : List Arena) (g : Setting) (bs : List Binding) (look : ℕ → rules.Typed) → AreMembers files members.now → g.table ≡ table_in files → note_shown types.now look result ≡ two place (rules.assignment_rule (scope_in g bs here) (note_shown types.now look x).typed) (note_shown types.now look x) (note_shown types.now look y) }
{
    let target = target_of(x.known);
    let least = earlier(x.least, y.least);
    match (part_type(x.known), part_type(y.known)) {
        (Some(a), Some(b)) => {
            let verdict = assignment_rule(types, members, here, target, a, b);
            conclude(place, verdict, least)
        }
        _ => plain(least),
    }
}

/// A compound assignment: the target, then the value (Java Language Specification 15.26.2); T17, T19 and T39, if both
/// have types.
pub fn compound_note(
    types: &Types,
    members: &Members,
    here: Within,
    place: Place,
    operator: BinaryOperator,
    x: Note,
    y: Note,
) -> Note
    requires first { IsNoteWithin types.now x }
    requires second { IsNoteWithin types.now y }
    ensures within { IsNoteWithin types.now result }
    ensures no_rest { HasNoRest result.known }
    ensures shown { (files : List Arena) (g : Setting) (bs : List Binding) (look : ℕ → rules.Typed) → AreMembers files members.now → g.table ≡ table_in files → note_shown types.now look result ≡ two place (rules.compound_rule (scope_in g bs here) operator (note_shown types.now look x).typed) (note_shown types.now look x) (note_shown types.now look y) }
{
    let target = target_of(x.known);
    let least = earlier(x.least, y.least);
    match (part_type(x.known), part_type(y.known)) {
        (Some(a), Some(b)) => {
            let verdict = compound_rule(types, members, here, operator, target, a, b);
            conclude(place, verdict, least)
        }
        _ => plain(least),
    }
}
