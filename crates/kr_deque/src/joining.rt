// Pieces joined by their spans.
ghost use Rattle.std.specs.Prelude.{◌≡◌, ◌↔◌, true, false, map, All, IfOk, IfErr, IsSortedBy, IsPermutation};
ghost use Rattle.std.specs.Ordering.{nat_cmp};
ghost use Rattle.std.specs.Cmp.Lexicographic.{slice_cmp};
ghost use Rattle.kr_base.specs.Bounds.{less};
ghost use Rattle.kr_base.specs.Cuts.{is_before};
ghost use Rattle.kr_deque.specs.declared.joining.JoinRefusal.TheVariants.{NoMemory as Lacking};
ghost use Rattle.kr_survey.specs.Spans.{is_ahead};
ghost use Rattle.kr_deque.specs.Checking.{Follows, Ends, Checks};
ghost use Rattle.kr_survey.specs.Listings.{IsListingOf};
ghost use Rattle.kr_deque_hands.specs.Pieces.{AllAhead, spans_of};
ghost use Rattle.kr_deque.specs.Joined.{Joins};

mod summing;

use kr_base::{Bound, Cut, NoMemory, Span};
use kr_survey::{Listing, Piece};
use std::alloc::Global;
use std::cmp::Ordering;
use summing::listing_of;

/// Why pieces don't make up the asked span: nothing begins at a cut where one has to, or what begins there is there
/// already; or memory was refused.
#[derive(Drop)]
pub enum JoinRefusal {
    Gap(Cut),
    Double(Cut),
    NoMemory(NoMemory),
}

impl From<NoMemory> for JoinRefusal {
    ghost from_gives = { λ why refusal. refusal ≡ Lacking why };

    fn from(why: NoMemory) -> JoinRefusal {
        JoinRefusal::NoMemory(why)
    }
}

// The cut that a bound is.
#[tactic(auto, unfolding(kr_base::specs::Bounds::less))]
fn cut_of(at: &Bound) -> Result<Cut, NoMemory>
    requires { less at.now Bound.End ≡ true }
    ensures { IfOk result (λ cut. at.now ≡ Bound.At cut) }
{
    match at {
        Bound::At(cut) => cut.try_clone(),
        Bound::End => unreachable!(),
    }
}

// Whether the next span goes on from a bound.
fn check_next(asked: &Span, at: &Bound, next: &Span) -> Result<(), JoinRefusal>
    requires { is_ahead next.now ≡ true }
    ensures { Follows asked.now at.now next.now result }
{
    if at.is_below_cut(&next.after) && at.is_below(&asked.upto) {
        return match cut_of(at) {
            Ok(cut) => Err(JoinRefusal::Gap(cut)),
            Err(why) => Err(JoinRefusal::NoMemory(why)),
        };
    }
    if at.is_above_cut(&next.after) || asked.upto.is_below(&next.upto) {
        return match next.after.try_clone() {
            Ok(cut) => Err(JoinRefusal::Double(cut)),
            Err(why) => Err(JoinRefusal::NoMemory(why)),
        };
    }
    Ok(())
}

// Whether spans that came to a bound came to the asked end.
fn check_end(asked: &Span, at: &Bound) -> Result<(), JoinRefusal>
    requires { less asked.now.upto at.now ≡ false }
    ensures { Ends asked.now at.now result }
{
    if at.is_below(&asked.upto) {
        return match cut_of(at) {
            Ok(cut) => Err(JoinRefusal::Gap(cut)),
            Err(why) => Err(JoinRefusal::NoMemory(why)),
        };
    }
    Ok(())
}

// Checks pieces in the order of their spans, from a bound that is the asked start.
fn check_from<R>(asked: &Span, start: &Bound, pieces: &[Piece<R>]) -> Result<(), JoinRefusal>
    requires start { start.now ≡ Bound.At asked.now.after }
    requires asked { is_ahead asked.now ≡ true }
    requires ahead { AllAhead (spans_of pieces.now) }
    requires sorted { IsSortedBy (λ p q. is_before p.span.after q.span.after) pieces.now }
    ensures { Checks asked.now (spans_of pieces.now) result }
{
    let mut at = start;
    for piece in pieces {
        match check_next(asked, at, &piece.span) {
            Ok(()) => at = &piece.span.upto,
            Err(refusal) => return Err(refusal),
        }
    }
    check_end(asked, at)
}

// Checks pieces from the asked start.
fn check<R>(asked: &Span, pieces: &[Piece<R>]) -> Result<(), JoinRefusal>
    requires asked { is_ahead asked.now ≡ true }
    requires ahead { AllAhead (spans_of pieces.now) }
    requires sorted { IsSortedBy (λ p q. is_before p.span.after q.span.after) pieces.now }
    ensures { Checks asked.now (spans_of pieces.now) result }
{
    match asked.after.try_clone() {
        Ok(cut) => check_from(asked, &Bound::At(cut), pieces),
        Err(why) => Err(JoinRefusal::NoMemory(why)),
    }
}

// Puts pieces into the order of where their spans begin.
fn sort<R: Drop>(pieces: &mut Vec<Piece<R>>)
    ensures same { IsPermutation pieces.old.items pieces.new.items }
    ensures sorted { IsSortedBy (λ p q. is_before p.span.after q.span.after) pieces.new.items }
{
    pieces.sort_unstable_by(
        |p: &Piece<R>, q: &Piece<R>| -> Ordering
            ensures { result ≡ slice_cmp nat_cmp p.now.span.after q.now.span.after }
        { p.span.after.compare(&q.span.after) },
    );
}

/// Joins the pieces of an asked span, whatever their order. All are checked, those after a spent one too, and the first
/// break decides: a `Gap` at a cut where one has to begin and none does, a `Double` where one begins inside another one,
/// before the asked span, or ends past it. The listing is cut after the first spent piece.
pub fn join_pieces<R: Drop>(
    alloc: Global,
    asked: &Span,
    pieces: Vec<Piece<R>>,
) -> Result<Listing<R>, JoinRefusal>
    requires asked { is_ahead asked.now ≡ true }
    requires ahead { AllAhead (spans_of pieces.items) }
    ensures { Joins asked.now pieces.items result }
{
    let mut pieces = pieces;
    sort(&mut pieces);
    match check(asked, pieces.as_slice()) {
        Ok(()) => match listing_of(alloc, pieces) {
            Ok(listing) => Ok(listing),
            Err(why) => Err(JoinRefusal::NoMemory(why)),
        },
        Err(refusal) => Err(refusal),
    }
}
