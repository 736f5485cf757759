// The notes of lists, from those of the first part and of the rest; the types of a list's values.
ghost use Rattle.std.specs.Prelude.{◌≡◌, ◌<◌, ℕ, [], IfOk, IfSome, None, All, length, map, option_map};
ghost use Rattle.kr_types_meaning.specs.Rules as rules;
ghost use Rattle.kr_types_meaning.specs.Noting as noting;
ghost use Rattle.kr_types_expressions.specs.Vocabulary.{count, HasNoRest, IsKnownWithin, IsNoteWithin, joined, known_shown, note_shown, type_at, type_in, TypeList};
ghost use Rattle.kr_types_expressions.specs.Links.{IsLinked};
ghost use Rattle.kr_types_expressions.specs.Notes.{AreNotesWithin, IsRestBelow, typed_in};
ghost use Rattle.kr_types_expressions.specs.Parts.{values_in};

use crate::note_list::NoteList;
use crate::parts::part_type;
use kr_base::NoMemory;
use kr_classes_names::Types;
use kr_classes_table::TypeId;
use kr_types_judging::{Known, Note, Typed, earlier};
use std::alloc::Global;

/// The end of a list, and a part that is absent.
pub fn absent_note() -> Note
    ensures within { (l : TypeList) → IsNoteWithin l result }
    ensures no_rest { HasNoRest result.known }
    ensures shown { (l : TypeList) (look : ℕ → rules.Typed) → note_shown l look result ≡ noting.note (rules.Values []) None }
{
    Note {
        known: Known::Absent,
        least: None,
    }
}

/// The facts known of a list, from the type of its first part and the facts known of its rest.
fn list_known(first: Option<TypeId>, rest: u32, behind: Known) -> Known
    ensures within { (l : TypeList) → IfSome first (λ t. t < count l) → IsKnownWithin l result }
    ensures below { (i : ℕ) → rest < i → IsRestBelow i result }
    ensures shown { (l : TypeList) (look : ℕ → rules.Typed) (x : rules.Typed) → option_map (type_at l) first ≡ type_in x → look rest ≡ known_shown l look behind → known_shown l look result ≡ joined x (known_shown l look behind) }
    ensures linked { (l : TypeList) (look : ℕ → rules.Typed) → look rest ≡ known_shown l look behind → IsLinked look behind → IsLinked look result }
{
    match first {
        None => Known::One(Typed::Untyped),
        Some(first) => match behind {
            Known::One(_) => Known::One(Typed::Untyped),
            Known::Absent => Known::More { first, rest },
            Known::More { .. } => Known::More { first, rest },
        },
    }
}

/// A list of a first part, and of a rest by its node.
pub fn list_note(x: Note, rest: u32, y: Note) -> Note
    ensures within { (l : TypeList) → IsNoteWithin l x → IsNoteWithin l result }
    ensures below { (i : ℕ) → rest < i → IsRestBelow i result.known }
    ensures linked { (l : TypeList) (look : ℕ → rules.Typed) → look rest ≡ (note_shown l look y).typed → IsLinked look y.known → IsLinked look result.known }
    ensures shown { (l : TypeList) (look : ℕ → rules.Typed) → look rest ≡ (note_shown l look y).typed → note_shown l look result ≡ noting.both (note_shown l look x) (note_shown l look y) }
{
    let first = part_type(x.known);
    let known = list_known(first, rest, y.known);
    Note {
        known,
        least: earlier(x.least, y.least),
    }
}

/// The types of a list's values; none where one of them has no type.
pub fn value_types(
    alloc: Global,
    types: &Types,
    notes: &NoteList,
    list: Known,
) -> Result<Option<Vec<TypeId>>, NoMemory>
    requires notes { AreNotesWithin types.now notes.now }
    requires list { IsKnownWithin types.now list }
    requires below { IsRestBelow (length notes.now) list }
    ensures within { IfOk result (λ found. IfSome found (λ ts. All (λ t. t < count types.now) ts.items)) }
    ensures shown { IfOk result (λ found. option_map (λ ts. map (type_at types.now) ts.items) found ≡ values_in (known_shown types.now (typed_in types.now notes.now) list)) }
{
    let mut found = Vec::new(alloc);
    let mut at = list;
    while let Known::More { first, rest } = at {
        found.push(first)?;
        at = notes.at(rest).known;
    }
    match at {
        Known::Absent => Ok(Some(found)),
        _ => Ok(None),
    }
}
