// The notes of operators, from those of their parts.
ghost use Rattle.std.specs.Prelude.{◌≡◌, ℕ, List};
ghost use Rattle.kr_types_meaning.specs.Rules as rules;
ghost use Rattle.kr_types_expressions.specs.Vocabulary.{AreMembers, Arena, Binding, HasNoRest, IsNoteWithin, note_shown, one, scope_in, Setting, table_in, two};

use crate::parts::part_type;
use kr_ast::{BinaryOperator, UnaryOperator};
use kr_base::Place;
use kr_classes_members::Members;
use kr_classes_names::Types;
use kr_types_judging::{
    Note, cast_rule, conclude, earlier, instance_rule, operator_rule, plain, unary_rule,
};
use kr_types_scopes::Within;

/// A unary operator: T13 and T14, if the operand has a type.
pub fn unary_note(types: &Types, place: Place, operator: UnaryOperator, x: Note) -> Note
    requires { IsNoteWithin types.now x }
    ensures within { IsNoteWithin types.now result }
    ensures no_rest { HasNoRest result.known }
    ensures shown { (look : ℕ → rules.Typed) → note_shown types.now look result ≡ one place (rules.unary_rule operator) (note_shown types.now look x) }
{
    match part_type(x.known) {
        None => plain(x.least),
        Some(a) => conclude(place, unary_rule(types, operator, a), x.least),
    }
}

/// A binary operator: T7 to T12, if both operands have types.
pub fn binary_note(
    types: &Types,
    members: &Members,
    here: Within,
    place: Place,
    operator: BinaryOperator,
    x: Note,
    y: Note,
) -> Note
    requires first { IsNoteWithin types.now x }
    requires second { IsNoteWithin types.now y }
    ensures within { IsNoteWithin types.now result }
    ensures no_rest { HasNoRest result.known }
    ensures shown { (files : List Arena) (g : Setting) (bs : List Binding) (look : ℕ → rules.Typed) → AreMembers files members.now → g.table ≡ table_in files → note_shown types.now look result ≡ two place (rules.operator_rule (scope_in g bs here) operator) (note_shown types.now look x) (note_shown types.now look y) }
{
    let least = earlier(x.least, y.least);
    match (part_type(x.known), part_type(y.known)) {
        (Some(a), Some(b)) => conclude(
            place,
            operator_rule(types, members, here, operator, a, b),
            least,
        ),
        _ => plain(least),
    }
}

/// `instanceof`: T21, if both parts have types.
pub fn instance_note(
    types: &Types,
    members: &Members,
    here: Within,
    place: Place,
    x: Note,
    y: Note,
) -> Note
    requires first { IsNoteWithin types.now x }
    requires second { IsNoteWithin types.now y }
    ensures within { IsNoteWithin types.now result }
    ensures no_rest { HasNoRest result.known }
    ensures shown { (files : List Arena) (g : Setting) (bs : List Binding) (look : ℕ → rules.Typed) → AreMembers files members.now → g.table ≡ table_in files → note_shown types.now look result ≡ two place (rules.instance_rule (scope_in g bs here)) (note_shown types.now look x) (note_shown types.now look y) }
{
    let least = earlier(x.least, y.least);
    match (part_type(x.known), part_type(y.known)) {
        (Some(a), Some(b)) => conclude(place, instance_rule(types, members, here, a, b), least),
        _ => plain(least),
    }
}

/// A cast: its type, then its operand; T20, if both have types.
pub fn cast_note(
    types: &Types,
    members: &Members,
    here: Within,
    place: Place,
    x: Note,
    y: Note,
) -> Note
    requires first { IsNoteWithin types.now x }
    requires second { IsNoteWithin types.now y }
    ensures within { IsNoteWithin types.now result }
    ensures no_rest { HasNoRest result.known }
    ensures shown { (files : List Arena) (g : Setting) (bs : List Binding) (look : ℕ → rules.Typed) → AreMembers files members.now → g.table ≡ table_in files → note_shown types.now look result ≡ two place (rules.cast_rule (scope_in g bs here)) (note_shown types.now look x) (note_shown types.now look y) }
{
    let least = earlier(x.least, y.least);
    match (part_type(x.known), part_type(y.known)) {
        (Some(a), Some(b)) => conclude(place, cast_rule(types, members, here, a, b), least),
        _ => plain(least),
    }
}
