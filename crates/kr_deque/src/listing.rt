// A span listed by workers over deques.
ghost use Rattle.std.specs.Prelude.{◌≡◌, ◌+◌, ◌<◌, ◌≤◌, ◌∷◌, [], true, None, length, All, IfOk, OnOk, IfErr};
ghost use Rattle.kr_survey.specs.Joins.{joined, lists};
ghost use Rattle.kr_base.specs.declared.span.Bound.TheVariants.{At};
ghost use Rattle.kr_survey.specs.Spans.{is_ahead, covering, one, has_key, AreParts, Adjoins};
ghost use Rattle.kr_deque_hands.specs.Pieces.{spans_of, AllAhead, ArePiecesOf};
ghost use Rattle.kr_survey.specs.Listings.{listed_in, Lists};
ghost use Rattle.kr_deque_hands.specs.Building.{EachAhead};
ghost use Rattle.kr_deque_hands.specs.Hands.{IsHandOf, AreHandsOf, Works};
ghost use Rattle.kr_deque.specs.Found.{AllWorked, IsFound};

use crate::cutting::spans_for;
use crate::{JoinRefusal, join_pieces, joined_law, parts_law};
use kr_base::{NoMemory, Span};
use kr_deque_hands::{Gathered, Hand, Work, scan_piece, work_at};
use kr_io::Gate;
use kr_survey::{Listing, Piece, Rows, Survey};
use std::alloc::Global;
use std::sync::Wait;
use std::thread;
use std::thread::Threads;

// A worker for each hand, in threads of their own.
fn work_each<R: Drop + Send, S: Survey<Row = R> + Sync, G: Gate + Sync, W: Threads + Wait + Sync>(
    rt: &W,
    work: &Work,
    survey: &S,
    hands: &mut [Hand<R>],
    gate: &G,
)
    requires { All (λ h. IsHandOf work.now h) hands.old }
    ensures { AllWorked (S.all survey.now) hands.old hands.new }
{
    let count = hands.len();
    if count == 0 {
        return;
    }
    thread::for_each_mut(
        rt,
        hands,
        count,
        &|_i: usize, hand: &mut Hand<R>|
            requires { IsHandOf work.now hand.old }
            ensures { Works (S.all survey.entry.now) hand.old [] hand.new [] }
        { work_at(rt, work, survey, hand, gate) },
    );
}

// All workers at once, each with its hand.
fn work_all<R: Drop + Send, S: Survey<Row = R> + Sync, G: Gate + Sync, W: Threads + Wait + Sync>(
    rt: &W,
    work: &Work,
    survey: &S,
    hands: &mut [Hand<R>],
    gate: &G,
)
    requires { AreHandsOf work.now hands.old }
    ensures { AllWorked (S.all survey.now) hands.old hands.new }
{
    work_each(rt, work, survey, hands, gate);
}

// Scans a span that was left, piece by piece.
fn scan_rest<S: Survey<Row: Drop>, W: Wait>(
    rt: &W,
    survey: &S,
    scratch: &mut S::Scratch,
    pieces: &mut Vec<Piece<S::Row>>,
    span: Span,
) -> Result<(), NoMemory>
    requires ahead { is_ahead span ≡ true }
    requires made { S.made survey.now scratch.old }
    ensures found { OnOk result (IsFound (S.all survey.now) pieces.old.items (span ∷ []) pieces.new.items) }
    ensures made { S.made survey.now scratch.new }
{
    let mut span = span;
    for _ in rt.forever() {
        match scan_piece(survey, scratch, &span) {
            Err(why) => return Err(why),
            Ok((piece, rest)) => {
                match pieces.push(piece) {
                    Ok(()) => {}
                    Err(failed) => return Err(NoMemory::from(failed)),
                }
                match rest {
                    None => return Ok(()),
                    Some(rest) => span = rest,
                }
            }
        }
    }
    unreachable!()
}

// Scans all spans that were left.
fn scan_left<S: Survey<Row: Drop>, W: Wait>(
    rt: &W,
    survey: &S,
    pieces: &mut Vec<Piece<S::Row>>,
    left: Vec<Span>,
) -> Result<(), NoMemory>
    requires { AllAhead left.items }
    ensures { OnOk result (IsFound (S.all survey.now) pieces.old.items left.items pieces.new.items) }
{
    let mut scratch = survey.scratch()?;
    for span in left {
        match scan_rest(rt, survey, &mut scratch, pieces, span) {
            Ok(()) => {}
            Err(why) => return Err(why),
        }
    }
    Ok(())
}

// Joins pieces that make up the span.
fn join_all<S: Survey<Row: Drop>>(
    alloc: Global,
    survey: &S,
    span: &Span,
    pieces: Vec<Piece<S::Row>>,
) -> Result<Listing<S::Row>, NoMemory>
    requires ahead { is_ahead span.now ≡ true }
    requires all_ahead { AllAhead (spans_of pieces.items) }
    requires honest { ArePiecesOf (S.all survey.now) pieces.items }
    requires parts { AreParts (spans_of pieces.items) span.now }
    ensures { IfOk result (Lists (listed_in (S.all survey.now) span.now)) }
{
    survey.ascends();
    parts_law();
    joined_law::<S::Row>();
    match join_pieces(alloc, span, pieces) {
        Ok(listing) => Ok(listing),
        Err(JoinRefusal::NoMemory(why)) => Err(why),
        Err(JoinRefusal::Gap(_)) => unreachable!(),
        Err(JoinRefusal::Double(_)) => unreachable!(),
    }
}

// The pieces of a span that begins before it ends.
fn pieces_of<S: Survey<Row: Drop + Send> + Sync, G: Gate + Sync, W: Threads + Wait + Sync>(
    rt: &W,
    alloc: Global,
    survey: &S,
    span: &Span,
    workers: u32,
    gate: &G,
) -> Result<Vec<Piece<S::Row>>, NoMemory>
    requires workers { (0 < workers) × (workers ≤ 64) }
    requires ahead { is_ahead span.now ≡ true }
    ensures ahead { IfOk result (λ pieces. AllAhead (spans_of pieces.items)) }
    ensures honest { IfOk result (λ pieces. ArePiecesOf (S.all survey.now) pieces.items) }
    ensures parts { IfOk result (λ pieces. AreParts (spans_of pieces.items) span.now) }
{
    let spans = spans_for(alloc, span, workers)?;
    let (work, mut hands) = Work::start(alloc, spans)?;
    work_all::<S::Row, S, G, W>(rt, &work, survey, hands.as_mut_slice(), gate);
    let Gathered { mut pieces, left } = work.gather(hands)?;
    match scan_left(rt, survey, &mut pieces, left) {
        Ok(()) => Ok(pieces),
        Err(why) => Err(why),
    }
}

// The listing of a span without keys.
fn nothing<R>(alloc: Global) -> Listing<R>
    ensures { (result.rows ≡ []) × (result.tried ≡ 0) × (result.spent ≡ None) }
{
    Listing {
        rows: Rows::new(Vec::new(alloc)),
        tried: 0,
        spent: None,
    }
}

/// The listing of a span, by so many workers over deques, in threads of their own: rows, number of entries and spent key are
/// those of the survey's entries there, whatever the schedule. Spans that are left when workers run out of memory are scanned by the caller.
pub fn list_deque<S: Survey<Row: Drop + Send> + Sync, G: Gate + Sync, W: Threads + Wait + Sync>(
    rt: &W,
    alloc: Global,
    survey: &S,
    span: Span,
    workers: u32,
    gate: &G,
) -> Result<Listing<S::Row>, NoMemory>
    requires workers { (0 < workers) × (workers ≤ 64) }
    ensures { IfOk result (Lists (listed_in (S.all survey.now) span)) }
{
    if !span.upto.is_above_cut(&span.after) {
        return Ok(nothing(alloc));
    }
    let pieces = pieces_of(rt, alloc, survey, &span, workers, gate)?;
    join_all(alloc, survey, &span, pieces)
}
