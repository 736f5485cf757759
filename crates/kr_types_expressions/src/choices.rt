// The notes of conditions and choices, from those of their parts.
ghost use Rattle.std.specs.Prelude.{◌≡◌, ℕ, List};
ghost use Rattle.kr_types_meaning.specs.Rules as rules;
ghost use Rattle.kr_types_expressions.specs.Vocabulary.{AreMembers, Arena, Binding, HasNoRest, IsNoteWithin, least_shown, note_shown, scope_in, Setting, table_in, test, three};

use crate::parts::part_type;
use kr_base::Place;
use kr_classes_members::Members;
use kr_classes_names::Types;
use kr_types_judging::{Fault, Note, choice_rule, conclude, condition_rule, earlier, plain};
use kr_types_scopes::Within;

/// A statement with a condition, and the first broken node in its other parts: T28, if the condition has a type.
pub fn condition_note(types: &Types, place: Place, x: Note, more: Option<Fault>) -> Note
    requires { IsNoteWithin types.now x }
    ensures within { IsNoteWithin types.now result }
    ensures no_rest { HasNoRest result.known }
    ensures shown { (look : ℕ → rules.Typed) → note_shown types.now look result ≡ test place (note_shown types.now look x) (least_shown more) }
{
    let least = earlier(x.least, more);
    match part_type(x.known) {
        None => plain(least),
        Some(a) => conclude(place, condition_rule(types, a), least),
    }
}

/// A choice: the condition, then both arms; T15, if all have types.
pub fn choice_note(
    types: &Types,
    members: &Members,
    here: Within,
    place: Place,
    x: Note,
    y: Note,
    z: Note,
) -> Note
    requires first { IsNoteWithin types.now x }
    requires second { IsNoteWithin types.now y }
    requires third { IsNoteWithin types.now z }
    ensures within { IsNoteWithin types.now result }
    ensures no_rest { HasNoRest result.known }
    ensures shown { (files : List Arena) (g : Setting) (bs : List Binding) (look : ℕ → rules.Typed) → AreMembers files members.now → g.table ≡ table_in files → note_shown types.now look result ≡ three place (rules.choice_rule (scope_in g bs here)) (note_shown types.now look x) (note_shown types.now look y) (note_shown types.now look z) }
{
    let sides = earlier(x.least, y.least);
    let least = earlier(sides, z.least);
    match (part_type(x.known), part_type(y.known), part_type(z.known)) {
        (Some(a), Some(b), Some(d)) => conclude(
            place,
            choice_rule(types, members, here, a, b, d),
            least,
        ),
        _ => plain(least),
    }
}
