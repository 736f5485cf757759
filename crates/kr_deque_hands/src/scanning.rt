// Scans of spans, that count nothing.
ghost use Rattle.std.specs.Prelude.{◌≡◌, ◌<◌, ◌≤◌, List, ℕ, true, IfOk};
ghost use Rattle.kr_base.specs.declared.span.Bound.TheVariants.{At};
ghost use Rattle.kr_survey.specs.Scans.{IsScan};
ghost use Rattle.kr_survey.specs.Spans.{is_ahead};
ghost use Rattle.kr_survey.specs.Listings.{IsPieceOf};
ghost use Rattle.kr_deque_hands.specs.Turns.{Splits, Halves, Ends, IsPart};

use kr_base::{Bound, Cut, NoMemory, Span, Steps, inside_law};
use kr_survey::{Part, Piece, Survey, scan_law};
use std::marker::Brand;
use std::sync::ledger::{Blank, Ledger};

/// The most entries that a piece has.
const BATCH: u32 = 256;

fn scan_counted<S: Survey, L: Ledger>(
    survey: &S,
    scratch: &mut S::Scratch,
    span: &Span,
    blank: Blank,
) -> Result<Part<S::Row>, NoMemory>
    requires ledger { blank.name ≡ L.name }
    requires parts { blank.parts ≡ L.parts }
    requires some { 0 < L.parts }
    requires made { S.made survey.now scratch.old }
    ensures part { IfOk result (IsScan (S.all survey.now) span.now.after span.now.upto 256) }
    ensures made { S.made survey.now scratch.new }
{
    let mut runs = Steps::<L>::start(blank);
    survey.scan_with(scratch, &span.after, &span.upto, BATCH, &mut runs)
}

// A scan whose runs nobody counts.
fn scan_uncounted<S: Survey>(
    survey: &S,
    scratch: &mut S::Scratch,
    span: &Span,
) -> Result<Part<S::Row>, NoMemory>
    requires made { S.made survey.now scratch.old }
    ensures part { IfOk result (IsScan (S.all survey.now) span.now.after span.now.upto 256) }
    ensures made { S.made survey.now scratch.new }
{
    scan_counted::<S, Brand>(survey, scratch, span, Blank::new(1))
}

/// A copy of a span.
pub fn copy(span: &Span) -> Result<Span, NoMemory>
    ensures { IfOk result (λ copy. copy ≡ span.now) }
{
    let after = span.after.try_clone()?;
    Ok(Span {
        after,
        upto: span.upto.try_clone()?,
    })
}

// How a scan of a span ended, by where it came to: the span of its piece, the spent entry's key, and what is left of the span.
fn end_of(
    whole: Span,
    reach: Bound,
    spent: bool,
) -> Result<(Span, Option<Cut>, Option<Span>), NoMemory>
    requires { spent ≡ true → (key : List ℕ) × (reach ≡ At key) }
    ensures { IfOk result (λ r. Ends spent whole reach r.1 r.0 r.2) }
{
    match reach {
        Bound::End => Ok((whole, None, None)),
        Bound::At(key) => {
            if spent {
                return Ok((whole, Some(key), None));
            }
            if !whole.upto.is_above_cut(&key) {
                return Ok((whole, None, None));
            }
            let after = key.try_clone()?;
            let first = Span {
                after: whole.after,
                upto: Bound::At(key),
            };
            let rest = Span {
                after,
                upto: whole.upto,
            };
            Ok((first, None, Some(rest)))
        }
    }
}

// The piece of a span that a scan gives, and what is left of the span.
fn piece_of<R: Drop>(whole: Span, part: Part<R>) -> Result<(Piece<R>, Option<Span>), NoMemory>
    requires { part.spent ≡ true → (key : List ℕ) × (part.reach ≡ At key) }
    ensures { IfOk result (λ r. IsPart whole part r.0 r.1) }
{
    let Part {
        reach,
        rows,
        tried,
        spent,
    } = part;
    let (span, spent, rest) = end_of(whole, reach, spent)?;
    let piece = Piece {
        span,
        rows,
        tried,
        spent,
    };
    Ok((piece, rest))
}

/// The piece of the first 256 entries of a span, and the rest of the span after it, if there is any. A spent entry ends
/// it: then the piece covers the whole span.
pub fn scan_piece<S: Survey<Row: Drop>>(
    survey: &S,
    scratch: &mut S::Scratch,
    span: &Span,
) -> Result<(Piece<S::Row>, Option<Span>), NoMemory>
    requires ahead { is_ahead span.now ≡ true }
    requires made { S.made survey.now scratch.old }
    ensures piece { IfOk result (λ r. IsPieceOf (S.all survey.now) r.0) }
    ensures parts { IfOk result (λ r. Splits span.now r.0.span r.1) }
    ensures few { IfOk result (λ r. r.0.tried ≤ 256) }
    ensures made { S.made survey.now scratch.new }
{
    survey.ascends();
    scan_law::<S::Row>();
    let whole = copy(span)?;
    let part = scan_uncounted(survey, scratch, span)?;
    piece_of(whole, part)
}

/// The two parts of a span, cut at the cut of its mark, where it has one.
pub fn halves(span: &Span) -> Result<Option<(Span, Span)>, NoMemory>
    requires { is_ahead span.now ≡ true }
    ensures { IfOk result (Halves span.now) }
{
    inside_law();
    let whole = copy(span)?;
    match span.after.inside(&span.upto)? {
        None => Ok(None),
        Some(cut) => {
            let after = cut.try_clone()?;
            Ok(Some((
                Span {
                    after: whole.after,
                    upto: Bound::At(cut),
                },
                Span {
                    after,
                    upto: whole.upto,
                },
            )))
        }
    }
}
