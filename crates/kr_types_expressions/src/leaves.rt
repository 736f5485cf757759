// The notes of typed nodes without parts.
ghost use Rattle.std.specs.Prelude.{◌≡◌, ℕ, List};
ghost use Rattle.kr_types_meaning.specs.Rules as rules;
ghost use Rattle.kr_types_expressions.specs.Vocabulary.{AreMembers, Arena, Binding, Bits32, Bits64, BooleanType, HasNoRest, IsNoteWithin, leaf, note_shown, NullType, scope_in, Setting, table_in};

use kr_base::Place;
use kr_classes_members::Members;
use kr_classes_names::Types;
use kr_types_judging::{Judgement, Note, conclude, jump_rule, long_number_rule, number_rule};
use kr_types_scopes::Within;

/// A number.
pub fn number_note(types: &Types, members: &Members, here: Within, place: Place, value: u32) -> Note
    ensures within { IsNoteWithin types.now result }
    ensures no_rest { HasNoRest result.known }
    ensures shown { (files : List Arena) (g : Setting) (bs : List Binding) (look : ℕ → rules.Typed) → AreMembers files members.now → g.table ≡ table_in files → note_shown types.now look result ≡ leaf place (rules.number_rule (scope_in g bs here) Bits32 value) }
{
    let verdict = number_rule(types, members, here, value);
    conclude(place, verdict, None)
}

/// A number of a `long`.
pub fn long_number_note(
    types: &Types,
    members: &Members,
    here: Within,
    place: Place,
    value: u64,
) -> Note
    ensures within { IsNoteWithin types.now result }
    ensures no_rest { HasNoRest result.known }
    ensures shown { (files : List Arena) (g : Setting) (bs : List Binding) (look : ℕ → rules.Typed) → AreMembers files members.now → g.table ≡ table_in files → note_shown types.now look result ≡ leaf place (rules.number_rule (scope_in g bs here) Bits64 value) }
{
    let verdict = long_number_rule(types, members, here, value);
    conclude(place, verdict, None)
}

/// `true` or `false`.
pub fn truth_note(types: &Types, place: Place) -> Note
    ensures within { IsNoteWithin types.now result }
    ensures no_rest { HasNoRest result.known }
    ensures shown { (look : ℕ → rules.Typed) → note_shown types.now look result ≡ leaf place (rules.Fits (rules.Value BooleanType)) }
{
    let verdict = Judgement::value(types.boolean());
    conclude(place, verdict, None)
}

/// `null`
pub fn null_note(types: &Types, place: Place) -> Note
    ensures within { IsNoteWithin types.now result }
    ensures no_rest { HasNoRest result.known }
    ensures shown { (look : ℕ → rules.Typed) → note_shown types.now look result ≡ leaf place (rules.Fits (rules.Value NullType)) }
{
    let verdict = Judgement::value(types.null());
    conclude(place, verdict, None)
}

/// `break` or `continue`.
pub fn jump_note(types: &Types, members: &Members, here: Within, place: Place) -> Note
    ensures within { IsNoteWithin types.now result }
    ensures no_rest { HasNoRest result.known }
    ensures shown { (files : List Arena) (g : Setting) (bs : List Binding) (look : ℕ → rules.Typed) → AreMembers files members.now → g.table ≡ table_in files → note_shown types.now look result ≡ leaf place (rules.jump_rule (scope_in g bs here)) }
{
    let verdict = jump_rule(types, members, here);
    conclude(place, verdict, None)
}
