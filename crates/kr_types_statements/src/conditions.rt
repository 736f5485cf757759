// The notes of statements with a condition, from those of their parts.
ghost use Rattle.std.specs.Prelude.{◌≡◌, ℕ};
ghost use Rattle.kr_types_meaning.specs.Rules as rules;
ghost use Rattle.kr_types_statements.specs.Vocabulary.{HasNoRest, IsNoteWithin, note_shown, sooner, test};

use kr_base::Place;
use kr_classes_names::Types;
use kr_types_expressions::condition_note;
use kr_types_judging::{Note, earlier};

/// `if` without `else`, `while` or `do`: the condition and the other part (Java Language Specification 14.9, 14.12, 14.13).
pub fn if_then_note(types: &Types, place: Place, condition: Note, x: Note) -> Note
    requires { IsNoteWithin types.now condition }
    ensures within { IsNoteWithin types.now result }
    ensures no_rest { HasNoRest result.known }
    ensures shown { (look : ℕ → rules.Typed) → note_shown types.now look result ≡ test place (note_shown types.now look condition) (note_shown types.now look x).least }
{
    condition_note(types, place, condition, x.least)
}

/// `if` with `else`: the condition and both arms (Java Language Specification 14.9).
pub fn if_else_note(types: &Types, place: Place, condition: Note, x: Note, y: Note) -> Note
    requires { IsNoteWithin types.now condition }
    ensures within { IsNoteWithin types.now result }
    ensures no_rest { HasNoRest result.known }
    ensures shown { (look : ℕ → rules.Typed) → note_shown types.now look result ≡ test place (note_shown types.now look condition) (sooner (note_shown types.now look x).least (note_shown types.now look y).least) }
{
    let arms = earlier(x.least, y.least);
    condition_note(types, place, condition, arms)
}

/// `for`: the initial statements, the condition, the updates and the body (Java Language Specification 14.14.1).
pub fn for_note(
    types: &Types,
    place: Place,
    initial: Note,
    condition: Note,
    updates: Note,
    body: Note,
) -> Note
    requires { IsNoteWithin types.now condition }
    ensures within { IsNoteWithin types.now result }
    ensures no_rest { HasNoRest result.known }
    ensures shown { (look : ℕ → rules.Typed) → note_shown types.now look result ≡ test place (note_shown types.now look condition) (sooner (sooner (note_shown types.now look initial).least (note_shown types.now look updates).least) (note_shown types.now look body).least) }
{
    let head = earlier(initial.least, updates.least);
    let all = earlier(head, body.least);
    condition_note(types, place, condition, all)
}
