// Taking from deques, and pushing on the hand's own.
ghost use Rattle.std.specs.Prelude.{◌≡◌, ◌+◌, ◌<◌, ◌≤◌, ◌++◌, ◌∷◌, [], true, false, length, vec_len, vec_capacity, None, is_some, IfSome, IfNone, MatchOption, MatchResult};
ghost use Rattle.crossbeam_deque.specs.Handles.{view, IsPassOf, SamePass, stealer_deque, worker_flavor, worker_view, worker_index, worker_capacity};
ghost use Rattle.kr_survey.specs.Spans.{is_ahead};
ghost use Rattle.kr_deque_hands.specs.Logs.{IsFirst, MayBeEmpty, IsPopped, turn, marks, view_of, popped_more, pushed_more, stolen_more};
ghost use Rattle.kr_deque_hands.specs.Hands.{own, is_shut, stolen, IsSure, IsHandOf, IsRestSame, Stays};

use crate::hand::{Hand, LOOKS, MARKS, PUSHES};
use crate::rule::{Front, Popped, Pushed, Stolen, Theft};
use crate::task::Task;
use crate::work::Work;
use crossbeam_deque::Steal;
use kr_base::Span;
use std::sync::Wait;

impl<R> Hand<R> {
    /// Whether the hand keeps a refusal of memory. Only a call of its worker puts one here, which no clause says.
    pub fn gave_up(&self) -> bool
        ensures { result ≡ is_some self.now.refused }
    {
        self.refused.is_some()
    }

    /// The first task of the hand's own deque.
    #[tactic(auto, using(crate::proofs::Turns::pops, crate::proofs::Turns::finds, crate::proofs::Carrying::stays_same))]
    pub(crate) fn take(&mut self) -> Option<Task>
        ensures stays { Stays self.old self.new }
        ensures rest { IsRestSame self.old self.new }
        ensures stolen { stolen self.new ≡ stolen self.old }
        ensures popped { MatchOption result ((worker_view self.new.deque ≡ worker_view self.old.deque) × MayBeEmpty (own self.old)) (λ t. IsPopped (worker_view self.old.deque) (t ∷ []) (worker_view self.new.deque)) }
    {
        self.deque.pop_as::<Popped>()
    }

    // The first span of the hand's own deque, with the marks before it.
    #[tactic(auto, using(crate::proofs::Draining::first_same))]
    fn first(&mut self) -> Option<Span>
        ensures stays { Stays self.old self.new }
        ensures rest { IsRestSame self.old self.new }
        ensures stolen { stolen self.new ≡ stolen self.old }
        ensures popped { MatchOption result ((own self.new ≡ own self.old) × MayBeEmpty (own self.old)) (λ s. (own self.new ≡ popped_more (own self.old) s) × (is_ahead s ≡ true) × IsFirst (own self.old) s) }
    {
        while let Some(task) = self.take() {
            match task {
                Task::Whole(span) => return Some(span),
                Task::Mark(_) => {}
            }
        }
        None
    }

    // Makes sure that nothing lies on the hand's own deque: it pushes a mark there and takes it back, and once more where a
    // thief took the mark. A span that comes before the mark is answered.
    #[tactic(auto, using(crate::proofs::Draining::first_same))]
    fn look(&mut self) -> Option<Span>
        ensures stays { Stays self.old self.new }
        ensures rest { IsRestSame self.old self.new }
        ensures stolen { stolen self.new ≡ stolen self.old }
        ensures popped { MatchOption result ((own self.new ≡ own self.old) × IsSure self.new) (λ s. (own self.new ≡ popped_more (own self.old) s) × (is_ahead s ≡ true) × IsFirst (own self.old) s) }
    {
        while !self.shut && self.marks < LOOKS {
            match self.mark() {
                None => return None,
                Some(number) => match self.take() {
                    Some(Task::Whole(span)) => return Some(span),
                    Some(Task::Mark(taken)) => {
                        if taken == number {
                            self.close();
                        }
                    }
                    None => {}
                },
            }
        }
        None
    }

    /// The first span of the hand's own deque. `None` only where that was empty; of its first 3,000 marks the hand uses one to
    /// make sure.
    #[tactic(auto, using(crate::proofs::Draining::first_same))]
    pub fn pop(&mut self) -> Option<Span>
        ensures stays { Stays self.old self.new }
        ensures rest { IsRestSame self.old self.new }
        ensures stolen { stolen self.new ≡ stolen self.old }
        ensures popped { MatchOption result ((own self.new ≡ own self.old) × MayBeEmpty (own self.old) × IsSure self.new) (λ s. (own self.new ≡ popped_more (own self.old) s) × (is_ahead s ≡ true) × IsFirst (own self.old) s) }
    {
        match self.first() {
            Some(span) => Some(span),
            None => self.look(),
        }
    }

    /// Puts a span at the back of the hand's own deque. It hands the span back, all as before, exactly where the hand has
    /// made 4,096 pushes.
    #[tactic(auto, using(crate::proofs::Turns::pushes, crate::proofs::Carrying::stays_same))]
    pub fn push(&mut self, span: Span) -> Result<(), Span>
        requires { is_ahead span ≡ true }
        ensures stays { Stays self.old self.new }
        ensures rest { IsRestSame self.old self.new }
        ensures stolen { stolen self.new ≡ stolen self.old }
        ensures pushed { MatchResult result (λ _. (own self.new ≡ pushed_more (own self.old) span) × (length (own self.old).pushed < 4096)) (λ back. (back ≡ span) × (own self.new ≡ own self.old) × (length (own self.old).pushed ≡ 4096)) }
    {
        if self.pushes >= PUSHES {
            return Err(span);
        }
        match self.deque.push_as::<Pushed>(Task::Whole(span)) {
            Ok(()) => {
                self.pushes += 1;
                self.shut = false;
                Ok(())
            }
            Err(_) => unreachable!(),
        }
    }

    /// Puts a mark at the back of the hand's own deque, if it has one left. Says its number.
    #[tactic(auto, using(crate::proofs::Turns::marked, crate::proofs::Carrying::stays_same))]
    pub(crate) fn mark(&mut self) -> Option<u64>
        ensures stays { Stays self.old self.new }
        ensures rest { IsRestSame self.old self.new }
        ensures stolen { stolen self.new ≡ stolen self.old }
        ensures own { own self.new ≡ own self.old }
        ensures turn { IfSome result (λ number. turn (worker_view self.new.deque) ≡ number + 1) }
        ensures count { MatchOption result (3000 ≤ (worker_view self.new.deque).marks.pushed) (λ _. (worker_view self.new.deque).marks.pushed ≡ (worker_view self.old.deque).marks.pushed + 1) }
    {
        if self.marks >= MARKS {
            return None;
        }
        let number = u64::from(self.pushes) + u64::from(self.marks);
        match self.deque.push_as::<Pushed>(Task::Mark(number)) {
            Ok(()) => {
                self.marks += 1;
                self.shut = false;
                Some(number)
            }
            Err(_) => unreachable!(),
        }
    }

    /// Keeps in mind that nothing lies on the hand's own deque.
    #[tactic(auto, using(crate::proofs::Carrying::stays_same))]
    pub(crate) fn close(&mut self)
        requires { is_shut self.old ≡ true }
        ensures stays { Stays self.old self.new }
        ensures rest { IsRestSame self.old self.new }
        ensures deque { self.new.deque ≡ self.old.deque }
        ensures next { self.new.next ≡ self.old.next }
        ensures shut { is_shut self.new ≡ true }
    {
        self.shut = true;
    }

    /// The first span of the next hand's deque; after the last hand comes hand 0. It tries again until it has an answer, and
    /// so may wait. `None` only where that deque was empty, or held a mark alone.
    #[tactic(auto, using(crate::proofs::Carrying::stays_passed))]
    pub fn steal<W: Wait>(&mut self, rt: &W, work: &Work) -> Option<Span>
        requires hand { IsHandOf work.now self.old }
        requires two { is_some self.old.next ≡ true }
        ensures stays { Stays self.old self.new }
        ensures rest { IsRestSame self.old self.new }
        ensures own { own self.new ≡ own self.old }
        ensures stolen { MatchOption result (stolen self.new ≡ stolen self.old) (λ s. (stolen self.new ≡ stolen self.old ++ s ∷ []) × (is_ahead s ≡ true)) }
    {
        let count = work.fronts.len();
        let number = self.number as usize + 1;
        let number = if number == count { 0 } else { number };
        let Some(front) = work.fronts.get(number) else {
            unreachable!()
        };
        let Some(pass) = self.next.as_mut() else {
            unreachable!()
        };
        steal_from(rt, front, pass)
    }
}

// The first span of a deque, by its thief.
#[tactic(auto, using(crate::proofs::Turns::steals))]
fn steal_from<W: Wait>(rt: &W, front: &Front, pass: &mut Theft) -> Option<Span>
    requires table { IsPassOf (stealer_deque front.now) pass.old }
    requires thief { (view pass.old).log.thief ≡ true }
    ensures same { SamePass pass.old pass.new }
    ensures stolen { MatchOption result (view pass.new ≡ view pass.old) (λ s. (view pass.new ≡ view_of (stolen_more (view pass.old).log s) (view pass.old).marks) × (is_ahead s ≡ true)) }
{
    for _ in rt.forever() {
        match front.steal_as::<Stolen>(pass) {
            Steal::Success(Task::Whole(span)) => return Some(span),
            Steal::Success(Task::Mark(_)) => return None,
            Steal::Empty => return None,
            Steal::Retry => {}
        }
    }
    unreachable!()
}
