// The notes of contracts, from those of their parts.
ghost use Rattle.std.specs.Prelude.{◌≡◌, ℕ, List};
ghost use Rattle.kr_types_meaning.specs.Rules as rules;
ghost use Rattle.kr_types_expressions.specs.Vocabulary.{AreMembers, Arena, Binding, HasNoRest, IsNoteWithin, note_shown, one, scope_in, Setting, table_in};

use crate::parts::part_type;
use kr_base::Place;
use kr_classes_members::Members;
use kr_classes_names::Types;
use kr_types_judging::{Note, conclude, contract_rule, old_rule, plain};
use kr_types_scopes::Within;

/// `\old(..)`: T38, if its part has a type.
pub fn old_note(types: &Types, members: &Members, here: Within, place: Place, x: Note) -> Note
    requires { IsNoteWithin types.now x }
    ensures within { IsNoteWithin types.now result }
    ensures no_rest { HasNoRest result.known }
    ensures shown { (files : List Arena) (g : Setting) (bs : List Binding) (look : ℕ → rules.Typed) → AreMembers files members.now → g.table ≡ table_in files → note_shown types.now look result ≡ one place (rules.old_rule (scope_in g bs here)) (note_shown types.now look x) }
{
    match part_type(x.known) {
        None => plain(x.least),
        Some(a) => conclude(place, old_rule(types, members, here, a), x.least),
    }
}

/// A line of a contract: T28 and T40, if the condition has a type.
pub fn contract_note(types: &Types, members: &Members, here: Within, place: Place, x: Note) -> Note
    requires { IsNoteWithin types.now x }
    ensures within { IsNoteWithin types.now result }
    ensures no_rest { HasNoRest result.known }
    ensures shown { (files : List Arena) (g : Setting) (bs : List Binding) (look : ℕ → rules.Typed) → AreMembers files members.now → g.table ≡ table_in files → note_shown types.now look result ≡ one place (rules.contract_rule (scope_in g bs here)) (note_shown types.now look x) }
{
    match part_type(x.known) {
        None => plain(x.least),
        Some(a) => conclude(place, contract_rule(types, members, here, a), x.least),
    }
}
