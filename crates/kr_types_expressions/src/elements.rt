// The notes of array elements, from those of their parts.
ghost use Rattle.std.specs.Prelude.{◌≡◌, ℕ};
ghost use Rattle.kr_types_meaning.specs.Rules as rules;
ghost use Rattle.kr_types_expressions.specs.Vocabulary.{HasNoRest, IsNoteWithin, note_shown, two};

use crate::parts::part_type;
use kr_base::Place;
use kr_classes_names::Types;
use kr_types_judging::{Note, conclude, earlier, element_rule, plain};

/// An element of an array: the array, then the index; T23, if both have types.
pub fn element_note(types: &Types, place: Place, x: Note, y: Note) -> Note
    requires first { IsNoteWithin types.now x }
    requires second { IsNoteWithin types.now y }
    ensures within { IsNoteWithin types.now result }
    ensures no_rest { HasNoRest result.known }
    ensures shown { (look : ℕ → rules.Typed) → note_shown types.now look result ≡ two place rules.element_rule (note_shown types.now look x) (note_shown types.now look y) }
{
    let least = earlier(x.least, y.least);
    match (part_type(x.known), part_type(y.known)) {
        (Some(a), Some(b)) => conclude(place, element_rule(types, a, b), least),
        _ => plain(least),
    }
}
