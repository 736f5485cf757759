// The pieces that all hands found, and the spans that are left, once all passes are joined again.
ghost use Rattle.std.specs.Prelude.{◌≡◌, ◌+◌, ◌++◌, [], true, None, Some, length, slice_get, IfOk, OnOk, MatchOption, ℕ, List};
ghost use Rattle.crossbeam_deque.specs.Handles.{view, IsPassOf, worker_deque, worker_flavor, worker_view};
ghost use Rattle.kr_deque_hands.specs.Hands.{own, stolen, stolen_in, following, AllSettled, AllSound, AllDone, given_at, AreHandsOf};
ghost use Rattle.kr_deque_hands.specs.Gathering.{Drains, IsShared, TakesIn, IsCollected, IsSoundlyFound, found_at, pieces_in, came_of, taken_of};
ghost use Rattle.kr_survey.specs.Spans.{how_many};

use crate::hand::Hand;
use crate::rule::{Owner, Popped, Roles, Theft, Total};
use crate::task::Task;
use crate::work::Work;
use kr_base::{NoMemory, Span};
use kr_survey::Piece;
use std::mem;

/// The pieces that all hands found, and the spans that were left: those that a hand gave back when it ran out of memory, and those
/// still on a deque.
#[derive(Drop)]
pub struct Gathered<R> {
    pub pieces: Vec<Piece<R>>,
    pub left: Vec<Span>,
}

// Takes all that a deque holds, once its owner has its thief's part again.
#[tactic(auto, using(crate::proofs::Turns::pops, crate::proofs::Turns::finds, crate::proofs::Turns::learns, crate::proofs::Draining::draining_none, crate::proofs::Draining::draining_more, crate::proofs::Draining::draining_mark, crate::proofs::Draining::draining_less, crate::proofs::Draining::draining_fewer, crate::proofs::Draining::draining_all))]
fn drain(deque: Owner, left: &mut Vec<Span>) -> Result<(), NoMemory>
    requires fifo { worker_flavor deque ≡ 0 }
    requires both { ((worker_view deque).log.owner ≡ true) × ((worker_view deque).log.thief ≡ true) }
    ensures { OnOk result (Drains (worker_view deque) (worker_view deque).log.stolen left.old.items left.new.items) }
{
    let mut deque = deque;
    let _ = deque.len_as::<Total>();
    while let Some(task) = deque.pop_as::<Popped>() {
        match task {
            Task::Whole(span) => left.push(span)?,
            Task::Mark(_) => {}
        }
    }
    Ok(())
}

// Joins the thief's part of a deque to its owner's, and takes all that it holds.
#[tactic(auto, using(crate::proofs::Turns::merges))]
fn close(deque: Owner, thief: Option<Theft>, left: &mut Vec<Span>) -> Result<(), NoMemory>
    requires fifo { worker_flavor deque ≡ 0 }
    requires owner { (worker_view deque).log.owner ≡ true }
    requires thief { MatchOption thief ((worker_view deque).log.thief ≡ true) (λ p. IsPassOf (worker_deque deque) p × ((view p).log.thief ≡ true)) }
    ensures { OnOk result (Drains (worker_view deque) (stolen_in thief (worker_view deque).log) left.old.items left.new.items) }
{
    match thief {
        None => drain(deque, left),
        Some(pass) => {
            let mut deque = deque;
            deque.absorb::<Roles>(pass);
            drain(deque, left)
        }
    }
}

impl<R: Drop> Gathered<R> {
    // Takes over what a hand found, and gives its deque back, and its way to the next one.
    fn take_in(&mut self, hand: Hand<R>) -> Result<(Owner, Option<Theft>), NoMemory>
        ensures { IfOk result (λ r. TakesIn hand self.old self.new r.0 r.1) }
    {
        let Hand {
            deque,
            next,
            mut pieces,
            mut left,
            ..
        } = hand;
        self.pieces.append(&mut pieces)?;
        self.left.append(&mut left)?;
        Ok((deque, next))
    }

    // Takes in all hands, from the back: a deque is open until the way of the hand before it is there.
    fn collect(&mut self, work: &Work, hands: Vec<Hand<R>>) -> Result<(), NoMemory>
        requires { AreHandsOf work.now hands.items }
        ensures { OnOk result (IsCollected hands.items self.old self.new) }
    {
        let _ = work;
        let mut hands = hands;
        let Some(last) = hands.pop() else {
            return Ok(());
        };
        let (mut deque, first) = match self.take_in(last) {
            Ok(both) => both,
            Err(why) => return Err(why),
        };
        while let Some(hand) = hands.pop() {
            let (before, next) = match self.take_in(hand) {
                Ok(both) => both,
                Err(why) => return Err(why),
            };
            let open = mem::replace(&mut deque, before);
            match close(open, next, &mut self.left) {
                Ok(()) => {}
                Err(why) => return Err(why),
            }
        }
        match close(deque, first, &mut self.left) {
            Ok(()) => Ok(()),
            Err(why) => Err(why),
        }
    }
}

impl Work {
    /// All pieces that the hands found, and the spans that are left: those that nobody took, those that hands gave back when they
    /// ran out of memory, and those still on a deque. Where
    /// each hand's worker came to its end, and none gave up, nothing is left.
    pub fn gather<R: Drop>(self, hands: Vec<Hand<R>>) -> Result<Gathered<R>, NoMemory>
        requires { AreHandsOf self hands.items }
        ensures pieces { IfOk result (λ gathered. gathered.pieces.items ≡ pieces_in hands.items) }
        ensures left { (p : _) → IfOk result (λ gathered. how_many p gathered.left.items + taken_of p hands.items ≡ came_of p hands.items) }
        ensures parts { AllSettled hands.items → (key : List ℕ) → IfOk result (λ gathered. found_at key gathered ≡ given_at key hands.items) }
        ensures shared { (i : ℕ) → (h : _) → (k : _) → slice_get hands.items i ≡ Some h → slice_get hands.items (following (length hands.items) i) ≡ Some k → IfOk result (λ gathered. IsShared (own k) (stolen h) gathered.left.items) }
        ensures sound { (all : _) → AllSound all hands.items → IfOk result (IsSoundlyFound all) }
        ensures none { AllDone hands.items → IfOk result (λ gathered. gathered.left.items ≡ []) }
    {
        let mut gathered = Gathered {
            pieces: Vec::new(self.alloc),
            left: Vec::new(self.alloc),
        };
        match gathered.collect(&self, hands) {
            Ok(()) => Ok(gathered),
            Err(why) => Err(why),
        }
    }
}
