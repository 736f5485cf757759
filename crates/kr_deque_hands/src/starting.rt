// Deques with their spans, and a hand for each.
ghost use Rattle.std.specs.Prelude.{◌≡◌, ◌+◌, ◌<◌, ◌≤◌, ◌++◌, ◌∷◌, [], true, false, None, Some, length, is_none, IfOk, IfSome, OnOk, MatchOption};
ghost use Rattle.crossbeam_deque.specs.Handles.{view, IsPassOf, worker_deque, stealer_deque, worker_flavor, worker_view, worker_index, worker_capacity, SameWorker};
ghost use Rattle.kr_survey.specs.Joins.{lists};
ghost use Rattle.kr_survey.specs.Spans.{is_ahead};
ghost use Rattle.kr_deque_hands.specs.Pieces.{AllAhead};
ghost use Rattle.kr_deque_hands.specs.Logs.{log, view_of, no_marks, given_more};
ghost use Rattle.kr_deque_hands.specs.Hands.{own, IsFresh, AllFresh, AreHandsOf};
ghost use Rattle.kr_deque_hands.specs.Building.{IsFilled, EachAhead, givens, IsBuilt};

use crate::hand::Hand;
use crate::rule::{Front, Given, Owner, Roles, Theft};
use crate::task::Task;
use crate::work::Work;
use kr_base::{NoMemory, Span};
use std::alloc::Global;
use std::mem;
use std::sync::Condvar;
use std::sync::atomic::AtomicU64;

// Gives a deque a span, for which it has room.
#[tactic(auto, using(crate::proofs::Turns::gives))]
fn give(deque: &mut Owner, span: Span)
    requires ahead { is_ahead span ≡ true }
    requires owner { (worker_view deque.old).log.owner ≡ true }
    requires none { (worker_view deque.old).log.pushed ≡ [] }
    requires marks { (worker_view deque.old).marks ≡ no_marks }
    requires room { worker_index deque.old < worker_capacity deque.old }
    ensures same { SameWorker deque.old deque.new × (worker_index deque.new ≡ worker_index deque.old + 1) }
    ensures given { worker_view deque.new ≡ view_of (given_more (worker_view deque.old).log span) no_marks }
{
    match deque.push_as::<Given>(Task::Whole(span)) {
        Ok(()) => {}
        Err(_) => unreachable!(),
    }
}

// Gives a deque spans in their order.
fn fill(deque: &mut Owner, spans: Vec<Span>)
    requires ahead { AllAhead spans.items }
    requires view { worker_view deque.old ≡ view_of (log true true [] [] [] []) no_marks }
    requires room { (worker_index deque.old ≡ 0) × (length spans.items ≤ worker_capacity deque.old) }
    ensures same { SameWorker deque.old deque.new × (worker_index deque.new ≡ length spans.items) }
    ensures view { worker_view deque.new ≡ view_of (log true true spans.items [] [] []) no_marks }
{
    for span in spans {
        give(deque, span);
    }
}

// A deque with these spans, and room for all that a hand may push.
#[tactic(auto, using(crate::proofs::Turns::begins))]
fn deque_of(alloc: Global, spans: Vec<Span>) -> Result<Owner, NoMemory>
    requires { AllAhead spans.items }
    ensures { IfOk result (IsFilled true spans.items) }
{
    let count = spans.len();
    if count > 0xffff_ffff {
        return Err(NoMemory::at_limit(spans.as_slice()));
    }
    match Owner::fifo_as(alloc, count + 8096) {
        Ok(deque) => {
            let mut deque = deque;
            fill(&mut deque, spans);
            Ok(deque)
        }
        Err(why) => Err(NoMemory::from(why)),
    }
}

// Adds the way to the front of a deque.
fn add_front(fronts: &mut Vec<Front>, deque: &Owner) -> Result<(), NoMemory>
    ensures { OnOk result ((front : _) × (stealer_deque front ≡ worker_deque deque.now) × (fronts.new.items ≡ fronts.old.items ++ front ∷ [])) }
{
    let front = deque.stealer()?;
    fronts.push(front)?;
    Ok(())
}

// A hand with nothing found.
fn hand_of<R: Drop>(
    alloc: Global,
    number: u32,
    deque: Owner,
    next: Option<Theft>,
) -> Result<Hand<R>, NoMemory>
    requires filled { IsFilled (is_none next) (worker_view deque).log.given deque }
    requires next { IfSome next (λ p. view p ≡ view_of (log false true [] [] [] []) no_marks) }
    ensures { IfOk result (λ hand. (hand.number ≡ number) × (hand.deque ≡ deque) × (hand.next ≡ next) × IsFresh hand) }
{
    let left = Vec::with_capacity(alloc, 2)?;
    Ok(Hand {
        number,
        deque,
        next,
        pushes: 0,
        marks: 0,
        pieces: Vec::new(alloc),
        left,
        refused: None,
        shut: false,
    })
}

// Hands that are made one after another: each gets its way to the next deque once that is there.
#[derive(Drop)]
pub struct Building<R> {
    alloc: Global,
    fronts: Vec<Front>,
    hands: Vec<Hand<R>>,
    last: Owner,
    first: Theft,
}

// The first deque, and the way to it, which the last hand gets.
#[tactic(auto, using(crate::proofs::Turns::forks, crate::proofs::Made::begun, crate::proofs::Made::filled_half))]
fn begin<R: Drop>(alloc: Global, spans: Vec<Span>) -> Result<Building<R>, NoMemory>
    requires { AllAhead spans.items }
    ensures { IfOk result (IsBuilt (spans.items ∷ [])) }
{
    let mut last = deque_of(alloc, spans)?;
    let mut fronts = Vec::new(alloc);
    match add_front(&mut fronts, &last) {
        Ok(()) => {}
        Err(why) => return Err(why),
    }
    let first = last.another::<Roles>();
    Ok(Building {
        alloc,
        fronts,
        hands: Vec::new(alloc),
        last,
        first,
    })
}

impl<R: Drop> Building<R> {
    // Gives the deque that waits its way to another one, which waits then.
    fn link(&mut self, deque: Owner, next: Theft) -> Result<(), NoMemory>
        requires last { IsFilled false (worker_view self.old.last).log.given self.old.last }
        requires next { view next ≡ view_of (log false true [] [] [] []) no_marks }
        requires few { length self.old.hands.items < 64 }
        ensures { OnOk result ((hand : _) × (hand.number ≡ length self.old.hands.items) × (hand.deque ≡ self.old.last) × (hand.next ≡ Some next) × IsFresh hand × (self.new.hands.items ≡ self.old.hands.items ++ hand ∷ []) × (self.new.last ≡ deque) × (self.new.first ≡ self.old.first) × (self.new.fronts.items ≡ self.old.fronts.items)) }
    {
        let number = self.hands.len() as u32;
        let before = mem::replace(&mut self.last, deque);
        match hand_of(self.alloc, number, before, Some(next)) {
            Ok(hand) => {
                self.hands.push(hand)?;
                Ok(())
            }
            Err(why) => Err(why),
        }
    }

    // One deque more.
    #[tactic(auto, using(crate::proofs::Turns::forks))]
    fn add(&mut self, spans: Vec<Span>) -> Result<(), NoMemory>
        requires ahead { AllAhead spans.items }
        requires few { length self.old.hands.items < 64 }
        requires built { (lists : _) × IsBuilt lists self.old }
        ensures { (lists : _) → IsBuilt lists self.old → OnOk result (IsBuilt (lists ++ spans.items ∷ []) self.new) }
    {
        let mut deque = deque_of(self.alloc, spans)?;
        match add_front(&mut self.fronts, &deque) {
            Ok(()) => {}
            Err(why) => return Err(why),
        }
        let next = deque.another::<Roles>();
        match self.link(deque, next) {
            Ok(()) => Ok(()),
            Err(why) => Err(why),
        }
    }
}

// A deque for each list, the first one's list apart.
fn build<R: Drop>(
    alloc: Global,
    first: Vec<Span>,
    spans: Vec<Vec<Span>>,
) -> Result<Building<R>, NoMemory>
    requires first { AllAhead first.items }
    requires ahead { EachAhead spans.items }
    requires few { length spans.items < 64 }
    ensures { IfOk result (IsBuilt (first.items ∷ lists spans.items)) }
{
    let mut building = begin(alloc, first)?;
    for list in spans {
        match building.add(list) {
            Ok(()) => {}
            Err(why) => return Err(why),
        }
    }
    Ok(building)
}

// The work of these deques, at which no hand is yet.
fn work_of(alloc: Global, fronts: Vec<Front>) -> Work
    ensures { result.fronts ≡ fronts }
{
    Work {
        alloc,
        fronts,
        busy: AtomicU64::new(0),
        bed: Condvar::new(),
    }
}

// The last hand gets its way to the first deque.
fn finish<R: Drop>(building: Building<R>) -> Result<(Work, Vec<Hand<R>>), NoMemory>
    requires some { 0 < length building.hands.items }
    requires few { length building.hands.items < 64 }
    requires built { (lists : _) × IsBuilt lists building }
    ensures hands { (lists : _) → IsBuilt lists building → IfOk result (λ r. AreHandsOf r.0 r.1.items) }
    ensures given { (lists : _) → IsBuilt lists building → IfOk result (λ r. givens r.1.items ≡ lists) }
    ensures fresh { (lists : _) → IsBuilt lists building → IfOk result (λ r. AllFresh r.1.items) }
{
    let Building {
        alloc,
        fronts,
        hands,
        last,
        first,
    } = building;
    let mut hands = hands;
    let number = hands.len() as u32;
    match hand_of(alloc, number, last, Some(first)) {
        Ok(hand) => {
            hands.push(hand)?;
            Ok((work_of(alloc, fronts), hands))
        }
        Err(why) => Err(why),
    }
}

// One deque, whose hand has nobody to steal from.
fn alone<R: Drop>(alloc: Global, spans: Vec<Span>) -> Result<(Work, Vec<Hand<R>>), NoMemory>
    requires { AllAhead spans.items }
    ensures hands { IfOk result (λ r. AreHandsOf r.0 r.1.items) }
    ensures given { IfOk result (λ r. givens r.1.items ≡ spans.items ∷ []) }
    ensures fresh { IfOk result (λ r. AllFresh r.1.items) }
{
    let deque = deque_of(alloc, spans)?;
    let mut fronts = Vec::new(alloc);
    match add_front(&mut fronts, &deque) {
        Ok(()) => {}
        Err(why) => return Err(why),
    }
    let mut hands = Vec::new(alloc);
    match hand_of(alloc, 0, deque, None) {
        Ok(hand) => {
            hands.push(hand)?;
            Ok((work_of(alloc, fronts), hands))
        }
        Err(why) => Err(why),
    }
}

impl Work {
    /// One deque and one hand for each list of spans, with room for the list, for 4,096 pushes more and for 4,000 marks.
    /// The spans are pushed in order.
    pub fn start<R: Drop>(
        alloc: Global,
        spans: Vec<Vec<Span>>,
    ) -> Result<(Work, Vec<Hand<R>>), NoMemory>
        requires count { (0 < length spans.items) × (length spans.items ≤ 64) }
        requires ahead { EachAhead spans.items }
        ensures hands { IfOk result (λ r. AreHandsOf r.0 r.1.items) }
        ensures given { IfOk result (λ r. givens r.1.items ≡ lists spans.items) }
        ensures fresh { IfOk result (λ r. AllFresh r.1.items) }
    {
        let mut spans = spans;
        let first = spans.remove(0);
        let count = spans.len();
        if count == 0 {
            return alone(alloc, first);
        }
        let building = build(alloc, first, spans)?;
        finish(building)
    }
}
