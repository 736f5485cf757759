// A worker with its hand.
ghost use Rattle.std.specs.Prelude.{◌≡◌, ◌∷◌, [], true, false, None, Some, is_some, length, IfOk, IfErr, IfSome, ◌+◌, ◌<◌, ◌≤◌};
ghost use Rattle.kr_survey.specs.Spans.{is_ahead};
ghost use Rattle.kr_deque_hands.specs.Pieces.{AllAhead};
ghost use Rattle.kr_survey.specs.Listings.{IsPieceOf};
ghost use Rattle.kr_deque_hands.specs.Turns.{Splits, listed, in_hand};
ghost use Rattle.kr_deque_hands.specs.Hands.{own, stolen, is_shut, IsHandOf, Works, IsRestSame, Stays};

use crate::hand::{Hand, PUSHES};
use crate::rule::Looked;
use crate::scanning::{halves, scan_piece};
use crate::task::Task;
use crate::work::Work;
use kr_base::{NoMemory, Span};
use kr_io::Gate;
use kr_survey::{Piece, Survey};
use std::sync::Wait;

/// How often a hand looks again where no hand is at work: one may not have begun yet.
const LOOKS_AGAIN: u32 = 100;

impl<R: Drop> Hand<R> {
    // Whether nothing lies on the hand's own deque, as far as it sees.
    #[tactic(auto, using(crate::proofs::Carrying::stays_same))]
    fn is_bare(&mut self) -> bool
        ensures stays { Stays self.old self.new }
        ensures rest { IsRestSame self.old self.new }
        ensures own { own self.new ≡ own self.old }
        ensures stolen { stolen self.new ≡ stolen self.old }
    {
        self.deque.len_as::<Looked>() == 0
    }

    // Memory was refused: the hand is marked, and keeps what it held.
    #[tactic(auto, using(crate::proofs::Carrying::works_left))]
    fn leave(&mut self, span: Span, why: NoMemory)
        requires unmarked { self.old.refused ≡ None }
        requires ahead { is_ahead span ≡ true }
        ensures works { (all : _) → Works all self.old (span ∷ []) self.new [] }
        ensures marked { is_some self.new.refused ≡ true }
    {
        match self.left.push(span) {
            Ok(()) => {}
            Err(_) => unreachable!(),
        }
        self.refused = Some(why);
    }

    // Pushes a span, for which the hand has a push left.
    #[tactic(auto, using(crate::proofs::Carrying::works_pushed))]
    fn put(&mut self, span: Span)
        requires unmarked { self.old.refused ≡ None }
        requires ahead { is_ahead span ≡ true }
        requires room { length (own self.old).pushed < 4096 }
        ensures works { (all : _) → Works all self.old (span ∷ []) self.new [] }
        ensures unmarked { self.new.refused ≡ None }
        ensures count { length (own self.new).pushed ≡ length (own self.old).pushed + 1 }
    {
        match self.push(span) {
            Ok(()) => {}
            Err(_) => unreachable!(),
        }
    }

    // Of what is left of a span the second part is pushed, where it has a cut and nothing else lies on the hand's own deque; the
    // first part, or all of it, comes back: there the scan goes on. With fewer than two pushes left all of it comes back.
    fn lay_out(&mut self, rest: Span) -> Result<Option<Span>, ()>
        requires unmarked { self.old.refused ≡ None }
        requires ahead { is_ahead rest ≡ true }
        ensures works { (all : _) → Works all self.old (rest ∷ []) self.new (in_hand result) }
        ensures unmarked { IfOk result (λ rest. (self.new.refused ≡ None) × AllAhead (listed rest)) }
        ensures marked { IfErr result (λ _. is_some self.new.refused ≡ true) }
    {
        if self.pushes > PUSHES - 2 {
            return Ok(Some(rest));
        }
        if !self.is_bare() {
            return Ok(Some(rest));
        }
        match halves(&rest) {
            Err(why) => {
                self.leave(rest, why);
                Err(())
            }
            Ok(None) => Ok(Some(rest)),
            Ok(Some((first, second))) => {
                self.put(second);
                Ok(Some(first))
            }
        }
    }

    // Keeps a piece of a span, and lays out what is left of it.
    fn keep(&mut self, span: Span, piece: Piece<R>, rest: Option<Span>) -> Result<Option<Span>, ()>
        requires unmarked { self.old.refused ≡ None }
        requires ahead { is_ahead span ≡ true }
        requires parts { Splits span piece.span rest }
        requires few { piece.tried ≤ 256 }
        ensures works { (all : _) → IsPieceOf all piece → Works all self.old (span ∷ []) self.new (in_hand result) }
        ensures unmarked { IfOk result (λ rest. (self.new.refused ≡ None) × AllAhead (listed rest)) }
        ensures marked { IfErr result (λ _. is_some self.new.refused ≡ true) }
    {
        match self.pieces.push(piece) {
            Err(failed) => {
                self.leave(span, NoMemory::from(failed));
                Err(())
            }
            Ok(()) => match rest {
                None => Ok(None),
                Some(rest) => self.lay_out(rest),
            },
        }
    }
}

// A batch of a span: its piece is kept, and what is left of it pushed, or comes back.
fn scan_on<S: Survey<Row: Drop>>(
    survey: &S,
    scratch: &mut S::Scratch,
    hand: &mut Hand<S::Row>,
    span: Span,
) -> Result<Option<Span>, ()>
    requires unmarked { hand.old.refused ≡ None }
    requires ahead { is_ahead span ≡ true }
    requires made { S.made survey.now scratch.old }
    ensures works { Works (S.all survey.now) hand.old (span ∷ []) hand.new (in_hand result) }
    ensures unmarked { IfOk result (λ rest. (hand.new.refused ≡ None) × AllAhead (listed rest)) }
    ensures marked { IfErr result (λ _. is_some hand.new.refused ≡ true) }
    ensures made { S.made survey.now scratch.new }
{
    match scan_piece(survey, scratch, &span) {
        Err(why) => {
            hand.leave(span, why);
            Err(())
        }
        Ok((piece, rest)) => hand.keep(span, piece, rest),
    }
}

// Scans a span until nothing of it is in hand. Whether no memory was refused.
fn scan_all<S: Survey<Row: Drop>, W: Wait>(
    rt: &W,
    survey: &S,
    scratch: &mut S::Scratch,
    hand: &mut Hand<S::Row>,
    span: Span,
) -> bool
    requires unmarked { hand.old.refused ≡ None }
    requires ahead { is_ahead span ≡ true }
    requires made { S.made survey.now scratch.old }
    ensures works { Works (S.all survey.now) hand.old (span ∷ []) hand.new [] }
    ensures unmarked { result ≡ true → hand.new.refused ≡ None }
    ensures marked { result ≡ false → is_some hand.new.refused ≡ true }
    ensures made { S.made survey.now scratch.new }
{
    let mut span = span;
    for _ in rt.forever() {
        match scan_on(survey, scratch, hand, span) {
            Ok(Some(rest)) => span = rest,
            Ok(None) => return true,
            Err(()) => return false,
        }
    }
    unreachable!()
}

// Makes sure that nothing lies on the hand's own deque: it pushes a mark there and takes it back. Where a thief took the mark, it
// pushes one more. A span that comes before the mark is answered. With no mark left, which takes 4,000 of them, it sleeps.
#[tactic(auto, using(crate::proofs::Carrying::works_none))]
fn shut<R: Drop, W: Wait>(rt: &W, work: &Work, hand: &mut Hand<R>) -> Option<Span>
    requires unmarked { hand.old.refused ≡ None }
    ensures works { (all : _) → Works all hand.old [] hand.new (listed result) }
    ensures unmarked { IfSome result (λ _. hand.new.refused ≡ None) }
    ensures ahead { AllAhead (listed result) }
    ensures shut { result ≡ None → hand.new.refused ≡ None → is_shut hand.new ≡ true }
{
    if hand.shut {
        return None;
    }
    for _ in rt.forever() {
        match hand.mark() {
            None => work.sleep(rt),
            Some(number) => match hand.take() {
                Some(Task::Whole(span)) => return Some(span),
                Some(Task::Mark(taken)) => {
                    if taken == number {
                        hand.close();
                        return None;
                    }
                }
                None => {}
            },
        }
    }
    unreachable!()
}

// The first span of the next hand's deque, where there is one.
#[tactic(auto, using(crate::proofs::Carrying::works_stolen, crate::proofs::Carrying::works_same, crate::proofs::Carrying::works_none))]
fn steal_next<R: Drop, W: Wait>(rt: &W, work: &Work, hand: &mut Hand<R>) -> Option<Span>
    requires hand { IsHandOf work.now hand.old }
    ensures works { (all : _) → Works all hand.old [] hand.new (listed result) }
    ensures refused { hand.new.refused ≡ hand.old.refused }
    ensures ahead { AllAhead (listed result) }
{
    if hand.next.is_none() {
        return None;
    }
    match hand.steal(rt, work) {
        Some(span) => Some(span),
        None => None,
    }
}

// How often it was seen in a row that no hand is at work, after one look more.
fn idle_looks(work: &Work, looks: u32) -> u32 {
    if work.is_idle() {
        looks.saturating_add(1)
    } else {
        0
    }
}

// The first span of the next hand's deque. Where there is none, it looks again as long as another hand is at work, and sleeps
// between two looks after a while.
fn seek<R: Drop, W: Wait>(rt: &W, work: &Work, hand: &mut Hand<R>) -> Option<Span>
    requires hand { IsHandOf work.now hand.old }
    ensures works { (all : _) → Works all hand.old [] hand.new (listed result) }
    ensures refused { hand.new.refused ≡ hand.old.refused }
    ensures ahead { AllAhead (listed result) }
{
    let mut looks: u32 = 0;
    let mut pauses: u32 = 0;
    work.rest();
    for _ in rt.forever() {
        match steal_next(rt, work, hand) {
            Some(span) => {
                work.begin();
                return Some(span);
            }
            None => {
                looks = idle_looks(work, looks);
                if looks > LOOKS_AGAIN {
                    work.begin();
                    return None;
                }
                work.pause(rt, pauses);
                pauses = pauses.saturating_add(1);
            }
        }
    }
    unreachable!()
}

// The first span of the hand's own deque, else of the next hand's. Where there is none, nothing lies on the hand's own deque.
fn obtain<R: Drop, W: Wait>(rt: &W, work: &Work, hand: &mut Hand<R>) -> Option<Span>
    requires hand { IsHandOf work.now hand.old }
    requires unmarked { hand.old.refused ≡ None }
    ensures works { (all : _) → Works all hand.old [] hand.new (listed result) }
    ensures unmarked { IfSome result (λ _. hand.new.refused ≡ None) }
    ensures ahead { AllAhead (listed result) }
    ensures shut { result ≡ None → hand.new.refused ≡ None → is_shut hand.new ≡ true }
{
    match hand.pop() {
        Some(span) => Some(span),
        None => match seek(rt, work, hand) {
            Some(span) => Some(span),
            None => shut(rt, work, hand),
        },
    }
}

// Takes spans, passes the gate and scans, until nothing is found or memory is refused.
fn work_on<S: Survey<Row: Drop>, G: Gate, W: Wait>(
    rt: &W,
    work: &Work,
    survey: &S,
    scratch: &mut S::Scratch,
    hand: &mut Hand<S::Row>,
    gate: &G,
)
    requires hand { IsHandOf work.now hand.old }
    requires unmarked { hand.old.refused ≡ None }
    requires made { S.made survey.now scratch.old }
    ensures works { Works (S.all survey.now) hand.old [] hand.new [] }
    ensures done { hand.new.refused ≡ None → is_shut hand.new ≡ true }
{
    let mut turn: u64 = 0;
    for _ in rt.forever() {
        match obtain(rt, work, hand) {
            None => return,
            Some(span) => {
                gate.pass(hand.number, turn);
                turn = turn.saturating_add(1);
                if !scan_all(rt, survey, scratch, hand, span) {
                    return;
                }
            }
        }
    }
}

/// Works with a hand that is lent.
#[tactic(auto, using(crate::proofs::Carrying::works_none, crate::proofs::Carrying::works_same, crate::proofs::Carrying::stays_same))]
pub fn work_at<S: Survey<Row: Drop>, G: Gate, W: Wait>(
    rt: &W,
    work: &Work,
    survey: &S,
    hand: &mut Hand<S::Row>,
    gate: &G,
)
    requires { IsHandOf work.now hand.old }
    ensures works { Works (S.all survey.now) hand.old [] hand.new [] }
    ensures done { hand.new.refused ≡ None → is_shut hand.new ≡ true }
    ensures marked { is_some hand.old.refused ≡ true → hand.new ≡ hand.old }
{
    if hand.gave_up() {
        return;
    }
    work.begin();
    match survey.scratch() {
        Ok(scratch) => {
            let mut scratch = scratch;
            work_on(rt, work, survey, &mut scratch, hand, gate);
        }
        Err(why) => hand.refused = Some(why),
    }
    work.rest();
}

/// A worker with its hand: it takes the first span of its own deque, or steals the first of the next hand's, passes the gate,
/// scans at most 256 entries and keeps their piece. It goes on with what is left of the span; where nothing lies on its own deque,
/// and it has two pushes left at least, it pushes the second part of it there, cut at the cut of its mark. It ends where it finds
/// no span and no other hand is at work, and then nothing lies on its own deque; or where memory is refused: then the hand is marked and keeps what it held. A marked hand comes back as it is. It may
/// wait.
pub fn work_deque<S: Survey<Row: Drop>, G: Gate, W: Wait>(
    rt: &W,
    work: &Work,
    survey: &S,
    hand: Hand<S::Row>,
    gate: &G,
) -> Hand<S::Row>
    requires { IsHandOf work.now hand }
    ensures works { Works (S.all survey.now) hand [] result [] }
    ensures done { result.refused ≡ None → is_shut result ≡ true }
    ensures marked { is_some hand.refused ≡ true → result ≡ hand }
{
    let mut hand = hand;
    work_at(rt, work, survey, &mut hand, gate);
    hand
}
