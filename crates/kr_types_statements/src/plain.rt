// Nodes without a rule of their own: the first broken node of their parts.
ghost use Rattle.std.specs.Prelude.{◌≡◌, ℕ};
ghost use Rattle.kr_types_meaning.specs.Rules as rules;
ghost use Rattle.kr_types_statements.specs.Vocabulary.{HasNoRest, IsNoteWithin, note_shown, plain, sooner, TypeList};

use kr_types_judging::{Note, earlier, plain};

/// A block, or an expression as a statement.
pub fn one_part_note(x: Note) -> Note
    ensures within { (l : TypeList) → IsNoteWithin l result }
    ensures no_rest { HasNoRest result.known }
    ensures shown { (l : TypeList) (look : ℕ → rules.Typed) → note_shown l look result ≡ plain (note_shown l look x).least }
{
    plain(x.least)
}

/// A declaration of locals, of fields or of a method.
pub fn two_parts_note(x: Note, y: Note) -> Note
    ensures within { (l : TypeList) → IsNoteWithin l result }
    ensures no_rest { HasNoRest result.known }
    ensures shown { (l : TypeList) (look : ℕ → rules.Typed) → note_shown l look result ≡ plain (sooner (note_shown l look x).least (note_shown l look y).least) }
{
    plain(earlier(x.least, y.least))
}

/// The signature of a method.
pub fn three_parts_note(x: Note, y: Note, z: Note) -> Note
    ensures within { (l : TypeList) → IsNoteWithin l result }
    ensures no_rest { HasNoRest result.known }
    ensures shown { (l : TypeList) (look : ℕ → rules.Typed) → note_shown l look result ≡ plain (sooner (sooner (note_shown l look x).least (note_shown l look y).least) (note_shown l look z).least) }
{
    let front = earlier(x.least, y.least);
    plain(earlier(front, z.least))
}
