// The note of a node: the facts known of it, and the first broken node in it.
ghost use Rattle.std.specs.Prelude.{◌≡◌, ℕ};
ghost use Rattle.kr_types_meaning.specs.Rules as rules;
ghost use Rattle.kr_types_judging.specs.Vocabulary.{comes_before, concluded, plain, sooner, TypeList};
ghost use Rattle.kr_types_judging.specs.Shown.{HasNoRest, IsNoteWithin, IsVerdictWithin, fault_shown, least_shown, note_shown, verdict_shown};

use crate::known::{Judgement, Known, Typed};
use crate::rules::TypingRule;
use kr_base::Place;

/// A broken rule and its place.
#[derive(Clone, Copy, PartialEq, Eq)]
pub struct Fault {
    pub place: Place,
    pub rule: TypingRule,
}

/// The note of a node.
#[derive(Clone, Copy)]
pub struct Note {
    pub known: Known,
    pub least: Option<Fault>,
}

/// Whether a fault comes before another: file, line, column, rule.
fn is_before(f: Fault, g: Fault) -> bool
    ensures { result ≡ comes_before (fault_shown f) (fault_shown g) }
{
    if f.place.file != g.place.file {
        return f.place.file < g.place.file;
    }
    if f.place.line != g.place.line {
        return f.place.line < g.place.line;
    }
    if f.place.col != g.place.col {
        return f.place.col < g.place.col;
    }
    f.rule.number() < g.rule.number()
}

/// The first of two.
#[inline(always)]
pub fn earlier(a: Option<Fault>, b: Option<Fault>) -> Option<Fault>
    ensures { least_shown result ≡ sooner (least_shown a) (least_shown b) }
{
    match (a, b) {
        (None, _) => b,
        (_, None) => a,
        (Some(f), Some(g)) => { if is_before(g, f) { b } else { a } }
    }
}

/// A node of which a rule says this, with the first broken node in its parts.
pub fn conclude(place: Place, verdict: Judgement, least: Option<Fault>) -> Note
    ensures within { (l : TypeList) → IsVerdictWithin l verdict → IsNoteWithin l result }
    ensures no_rest { HasNoRest result.known }
    ensures shown { (l : TypeList) (look : ℕ → rules.Typed) → note_shown l look result ≡ concluded place (verdict_shown l verdict) (least_shown least) }
{
    match verdict {
        Judgement::Fits(typed) => Note {
            known: Known::One(typed),
            least,
        },
        Judgement::Breaks(rule) => Note {
            known: Known::One(Typed::Untyped),
            least: earlier(least, Some(Fault { place, rule })),
        },
    }
}

/// A node without a rule of its own.
pub fn plain(least: Option<Fault>) -> Note
    ensures within { (l : TypeList) → IsNoteWithin l result }
    ensures no_rest { HasNoRest result.known }
    ensures shown { (l : TypeList) (look : ℕ → rules.Typed) → note_shown l look result ≡ plain (least_shown least) }
{
    Note {
        known: Known::One(Typed::Untyped),
        least,
    }
}
