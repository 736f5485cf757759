// Spans that hands take of two deques, of which the first one holds two spans; and how many spans a hand may push.
ghost use Rattle.std.specs.Prelude.{◌≡◌, ◌∷◌, [], true, length, nat_lt, IfOk};
ghost use Rattle.kr_survey.specs.Spans.{is_ahead};
ghost use Rattle.kr_deque_hands.specs.Building.{EachAhead};
ghost use Rattle.kr_deque_hands.specs.Hands.{IsHandOf, AreHandsOf};

use crate::tests::spans::{ahead_of, begins_at};
use crate::tests::surveys::{Watched, keys, looked_at};
use kr_base::{Cut, NoMemory, Span};
use kr_deque::{Hand, OpenGate, Work, work_deque};
use std::alloc::Global;
use std::process::Abort;
use std::sync::Wait;
use std::sync::atomic::Ordering;
use std::test::Fail;

// A list of two spans, and an empty one.
fn lists_of(alloc: Global, first: Span, second: Span) -> Result<Vec<Vec<Span>>, NoMemory>
    requires first { is_ahead first ≡ true }
    requires second { is_ahead second ≡ true }
    ensures count { IfOk result (λ spans. length spans.items ≡ 2) }
    ensures ahead { IfOk result (λ spans. EachAhead spans.items) }
{
    let mut list = Vec::new(alloc);
    list.push(first)?;
    list.push(second)?;
    let mut spans = Vec::new(alloc);
    spans.push(list)?;
    spans.push(Vec::new(alloc))?;
    Ok(spans)
}

// Two hands, of which the first has the span up to 0.2 and the one from there to 1.
fn two_hands<R: Drop>(rt: &impl Abort, alloc: Global) -> Result<(Work, Vec<Hand<R>>), NoMemory>
    ensures hands { IfOk result (λ r. AreHandsOf r.0 r.1.items) }
    ensures count { IfOk result (λ r. length r.1.items ≡ 2) }
{
    let first = ahead_of(rt, alloc, &[], &[0, 2])?;
    let second = ahead_of(rt, alloc, &[0, 2], &[1])?;
    let spans = lists_of(alloc, first, second)?;
    Work::start(alloc, spans)
}

// Hand 1 steals the first span, hand 0 pops the second, and then there is none.
fn take_turns<W: Wait>(rt: &W, work: &Work, owner: &mut Hand<u32>, thief: &mut Hand<u32>) -> bool
    requires owner { IsHandOf work.now owner.old }
    requires thief { IsHandOf work.now thief.old }
    requires two { nat_lt 1 (length work.now.fronts.items) ≡ true }
{
    let stolen = thief.steal(rt, work);
    let popped = owner.pop();
    let none = thief.steal(rt, work).is_none();
    begins_at(&stolen, &[]) && begins_at(&popped, &[0, 2]) && none && owner.pop().is_none()
}

// Whether so many spans are pushed.
fn push_many(
    rt: &impl Abort,
    alloc: Global,
    hand: &mut Hand<u32>,
    count: u32,
) -> Result<bool, NoMemory> {
    for number in 0..count {
        let span = ahead_of(rt, alloc, &[0, number], &[1])?;
        if hand.push(span).is_err() {
            return Ok(false);
        }
    }
    Ok(true)
}

// Whether the last of 4,097 spans alone comes back.
fn pushes_all(rt: &impl Abort, alloc: Global, hand: &mut Hand<u32>) -> Result<bool, NoMemory> {
    let all = push_many(rt, alloc, hand, 4096)?;
    let last = ahead_of(rt, alloc, &[0, 9], &[1])?;
    let back = hand.push(last).err();
    Ok(all && begins_at(&back, &[0, 9]) && !hand.gave_up())
}

// Both, by the owner and the thief of a deque.
fn takes_and_pushes<W: Wait + Abort>(
    rt: &W,
    alloc: Global,
    work: &Work,
    owner: &mut Hand<u32>,
    thief: &mut Hand<u32>,
) -> Result<bool, NoMemory>
    requires owner { IsHandOf work.now owner.old }
    requires thief { IsHandOf work.now thief.old }
    requires two { nat_lt 1 (length work.now.fronts.items) ≡ true }
{
    if !take_turns(rt, work, owner, thief) {
        return Ok(false);
    }
    pushes_all(rt, alloc, owner)
}

fn taken<W: Wait + Abort>(rt: &W, alloc: Global) -> Result<bool, NoMemory> {
    let (work, mut hands) = two_hands::<u32>(rt, alloc)?;
    match hands.pop() {
        None => Ok(false),
        Some(thief) => match hands.pop() {
            None => Ok(false),
            Some(owner) => {
                let mut thief = thief;
                let mut owner = owner;
                takes_and_pushes(rt, alloc, &work, &mut owner, &mut thief)
            }
        },
    }
}

#[test]
fn takes(rt: HostRuntime) -> Result<(), Fail> {
    assert!(rt; taken(&rt, rt.alloc())?);
    Ok(())
}

// Whether so many spans, each pushed on an empty deque, are popped, and after each there is none.
fn pops_each(
    rt: &impl Abort,
    alloc: Global,
    hand: &mut Hand<u32>,
    count: u32,
) -> Result<bool, NoMemory> {
    for number in 0..count {
        let span = ahead_of(rt, alloc, &[0, number], &[1])?;
        let pushed = hand.push(span).is_ok();
        if !pushed || !begins_at(&hand.pop(), &[0, number]) || hand.pop().is_some() {
            return Ok(false);
        }
    }
    Ok(true)
}

// The same of a hand to which nothing was given.
fn popped(rt: &impl Abort, alloc: Global) -> Result<bool, NoMemory> {
    let (_, mut hands) = two_hands::<u32>(rt, alloc)?;
    match hands.pop() {
        None => Ok(false),
        Some(hand) => {
            let mut hand = hand;
            pops_each(rt, alloc, &mut hand, 3100)
        }
    }
}

// More often than the hand makes sure by a mark that nothing is left.
#[test]
fn pops(rt: HostRuntime) -> Result<(), Fail> {
    assert!(rt; popped(&rt, rt.alloc())?);
    Ok(())
}

// Whether hand 1 alone does all the work, and reaches its end.
fn worked<W: Wait + Abort>(rt: &W, alloc: Global, survey: &Watched) -> Result<bool, NoMemory> {
    let (work, mut hands) = two_hands::<Cut>(rt, alloc)?;
    match hands.pop() {
        None => Ok(false),
        Some(hand) => {
            let mut hand = work_deque(rt, &work, survey, hand, &OpenGate);
            let scanned = survey.scanned.load(Ordering::SeqCst);
            Ok(scanned == 600 && !hand.gave_up() && hand.pop().is_none())
        }
    }
}

#[test]
fn works(rt: HostRuntime) -> Result<(), Fail> {
    let survey = looked_at(keys(&rt, rt.alloc(), 600, 2000)?, 0, 0);
    assert!(rt; worked(&rt, rt.alloc(), &survey)?);
    Ok(())
}

// Whether two spans that nobody took are left.
fn left_of(rt: &impl Abort, alloc: Global) -> Result<bool, NoMemory> {
    let (work, hands) = two_hands::<u32>(rt, alloc)?;
    match work.gather(hands) {
        Ok(found) => Ok(found.pieces.is_empty() && found.left.len() == 2),
        Err(why) => Err(why),
    }
}

#[test]
fn leaves(rt: HostRuntime) -> Result<(), Fail> {
    assert!(rt; left_of(&rt, rt.alloc())?);
    Ok(())
}
