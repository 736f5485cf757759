// The notes of fields and constants after a dot.
ghost use Rattle.std.specs.Prelude.{◌≡◌, ℕ, List};
ghost use Rattle.kr_types_meaning.specs.Rules as rules;
ghost use Rattle.kr_types_meaning.specs.Noting as noting;
ghost use Rattle.kr_types_expressions.specs.Vocabulary.{AreClassTypes, Binding, HasNoRest, IsNoteWithin, note_shown, scope_in, Setting, table_in};

use crate::parts::part_type;
use kr_base::Place;
use kr_classes_table::ClassId;
use kr_types_judging::{ClassTypes, Note, access_rule, conclude, constant_rule, plain};
use kr_types_scopes::Within;

/// The note of a name after a dot; the node before the dot is a class if the name is one, and else an object: T22, if it
/// has a type.
pub fn field_note(
    classes: &ClassTypes<'_>,
    here: Within,
    place: Place,
    name: &[u8],
    before: Option<ClassId>,
    x: Note,
) -> Note
    requires classes { AreClassTypes classes.now }
    requires object { IsNoteWithin classes.now.types.now x }
    ensures within { IsNoteWithin classes.now.types.now result }
    ensures no_rest { HasNoRest result.known }
    ensures shown { (g : Setting) (bs : List Binding) (look : ℕ → rules.Typed) → g.table ≡ table_in classes.now.trees.now → note_shown classes.now.types.now look result ≡ noting.field_of (scope_in g bs here) place name.now before (note_shown classes.now.types.now look x) }
{
    match before {
        Some(class) => {
            let found = classes.members.field_named(class, name);
            let verdict = constant_rule(classes, found);
            conclude(place, verdict, None)
        }
        None => match part_type(x.known) {
            None => plain(x.least),
            Some(object) => conclude(place, access_rule(classes, here, name, object), x.least),
        },
    }
}
