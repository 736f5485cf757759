// A run that goes on from its position, with a checkpoint before each first read.
ghost use Rattle.std.specs.Prelude.{◌≡◌, ◌<◌, ◌≤◌, ◌^◌, ◌∷◌, [], ℕ, List, ◌+◌, IfOk, IfSome, MatchOption, None, OnOk, Some, false, length, slice_get, take, true};
ghost use Rattle.std.specs.List.{All};
ghost use Rattle.kr_judge_replay.specs.Vocabulary.{bare, Follow, heap_of, hold_at, HoldsAs, IsPredicateOf, IsSameBut, IsVector, IsWellFormed, Numbering, problem_with, Program, SlotPlace, slots, slots_for, space_of, start, This};
ghost use Rattle.kr_judge_replay.specs.Foretelling.{Decides, IsForetold, ReadOn};
ghost use Rattle.kr_judge_replay.specs.Going.{Alike, Gives, HasGone, IsHeld, IsLast, IsRunTo, Stays};
ghost use Rattle.kr_judge_replay.specs.Kept.{AreShared, GoesOn, Kept, Shares};

use crate::checks::{Checks, Start};
use crate::fresh::{refresh, restore};
use crate::pauses::pause_of;
use kr_base::{Countdown, NoMemory, Permit, Steps};
use kr_judge::{Accesses, Predicate, begin, release_made};
use kr_mean::Stop;
use kr_run::{Step, advance};
use kr_run_frames::{Stack, Task};
use kr_run_state::{Halt, World, ended};
use kr_space_layout::Layout;
use kr_value::Value;
use kr_vector::Vector;
use std::alloc::Global;
use std::sync::ledger::Ledger;

/// The candidate that is run: its vector, with the layout and the predicate of its problem.
#[derive(Clone, Copy)]
pub(crate) struct Input<'a> {
    pub layout: &'a Layout,
    pub predicate: &'a Predicate,
    pub vector: &'a Vector,
}

/// The last run, and the candidate's changes since: its accesses; whether it is known; that the candidate has its indices at
/// `fresh` of the first slots of its order, and at all slots but those from `low` on and below `high`.
#[derive(Clone, Copy)]
pub(crate) struct Last<'a> {
    pub accesses: &'a Accesses,
    pub is_known: bool,
    pub fresh: usize,
    pub low: u32,
    pub high: u32,
}

/// Keeps a run's position, if the next step reads a place for the first time.
#[inline(always)]
fn consider(
    alloc: Global,
    input: Input<'_>,
    world: &World,
    checks: &mut Checks,
    condition: usize,
    task: &Task,
    stack: &Stack,
) -> Result<(), NoMemory>
    requires well { IsWellFormed (bare input.layout.now) }
    requires vector { IsVector (space_of (bare input.layout.now)) input.vector.now }
    requires goes_on { GoesOn input.layout.now input.predicate.now input.vector.now condition stack.now task.now world.now }
    requires kept { All (Kept input.layout.now input.predicate.now input.vector.now) checks.old }
    ensures kept { All (Kept input.entry.layout.now input.entry.predicate.now input.entry.vector.now) checks.new }
{
    let Some(action) = pause_of(&input.predicate.code, world, stack, task) else {
        return Ok(());
    };
    checks.keep(alloc, condition, action, stack, world)?;
    Ok(())
}

/// Runs a condition on until it gives a value.
fn give(
    alloc: Global,
    input: Input<'_>,
    world: &mut World,
    checks: &mut Checks,
    condition: usize,
    task: Task,
    stack: &mut Stack,
) -> Result<Value, Halt>
    requires well { IsWellFormed (bare input.layout.now) }
    requires vector { IsVector (space_of (bare input.layout.now)) input.vector.now }
    requires goes_on { GoesOn input.layout.now input.predicate.now input.vector.now condition stack.old task world.old }
    requires kept { All (Kept input.layout.now input.predicate.now input.vector.now) checks.old }
    ensures gives { Gives input.entry.layout.now input.entry.predicate.now input.entry.vector.now condition result world.new }
    ensures stays { Stays input.entry.layout.now input.entry.vector.now result world.new }
    ensures kept { All (Kept input.entry.layout.now input.entry.predicate.now input.entry.vector.now) checks.new }
{
    let mut next = task;
    let mut left = Countdown::start();
    'steps: while !left.is_over() {
        left.count();
        match advance(alloc, &input.predicate.code, world, stack, &mut next) {
            Err(halt) => return Err(halt),
            Ok(stepped) => match stepped {
                Step::Finished(given) => return Ok(given),
                Step::More => {}
            },
        }
        match consider(alloc, input, world, checks, condition, &next, stack) {
            Ok(()) => {}
            Err(why) => return Err(Halt::Memory(why)),
        }
    }
    Err(Halt::Memory(left.at_end()))
}

/// The node of a condition, if there is one.
fn condition_at(predicate: &Predicate, condition: usize) -> Option<u32>
    ensures { result ≡ slice_get predicate.now.conditions.items condition }
{
    predicate.conditions.get(condition).copied()
}

/// The node of the first condition.
fn first_condition(predicate: &Predicate) -> u32
    requires { 0 < length predicate.now.conditions.items }
    ensures { slice_get predicate.now.conditions.items 0 ≡ Some result }
{
    predicate.conditions[0]
}

/// A condition: its position, and its node.
#[derive(Clone, Copy)]
struct Condition {
    at: usize,
    node: u32,
}

/// The condition after the one at a position, if there is one.
fn condition_after(predicate: &Predicate, condition: usize) -> Option<Condition>
    ensures { MatchOption result (slice_get predicate.now.conditions.items (condition + 1) ≡ None) (λ following. (following.at ≡ condition + 1) × (slice_get predicate.now.conditions.items following.at ≡ Some following.node)) }
{
    if condition >= predicate.conditions.len() {
        return None;
    }
    let at = condition + 1;
    match predicate.conditions.get(at) {
        None => None,
        Some(node) => Some(Condition { at, node: *node }),
    }
}

/// Runs on: whether all conditions hold. It uses up the permit of the run.
fn go_on(
    alloc: Global,
    input: Input<'_>,
    world: &mut World,
    checks: &mut Checks,
    condition: usize,
    task: Task,
    stack: &mut Stack,
    permit: Permit,
) -> Result<bool, Halt>
    requires well { IsWellFormed (bare input.layout.now) }
    requires vector { IsVector (space_of (bare input.layout.now)) input.vector.now }
    requires goes_on { GoesOn input.layout.now input.predicate.now input.vector.now condition stack.old task world.old }
    requires kept { All (Kept input.layout.now input.predicate.now input.vector.now) checks.old }
    ensures means { HoldsAs input.entry.predicate.now.code result world.new (This ∷ []) (λ d. hold_at d input.entry.predicate.now.conditions.items (start (bare input.entry.layout.now) input.entry.vector.now)) }
    ensures stays { Stays input.entry.layout.now input.entry.vector.now result world.new }
    ensures kept { All (Kept input.entry.layout.now input.entry.predicate.now input.entry.vector.now) checks.new }
{
    drop(permit);
    let mut at = condition;
    let mut next = task;
    let mut left = Countdown::start();
    'conditions: while !left.is_over() {
        left.count();
        match give(alloc, input, world, checks, at, next, stack) {
            Err(halt) => return Err(halt),
            Ok(given) => match given {
                Value::Bool(truth) => {
                    if !truth {
                        return Ok(false);
                    }
                    match condition_after(input.predicate, at) {
                        None => return Ok(true),
                        Some(following) => {
                            at = following.at;
                            next = Task::Evaluate(following.node);
                            stack.clear();
                        }
                    }
                }
                Value::Int(_) => return Err(Halt::Ended(Stop::Stuck)),
                Value::Null => return Err(Halt::Ended(Stop::Stuck)),
                Value::Ref(_) => return Err(Halt::Ended(Stop::Stuck)),
            },
        }
    }
    Err(Halt::Memory(left.at_end()))
}

/// The checkpoints alone that a candidate holds to, if what they are of is known.
fn settle(checks: &mut Checks, is_known: bool, accesses: &Accesses, fresh: usize)
    ensures front { (n : ℕ) × (checks.new ≡ take n checks.old) }
    ensures known { is_known ≡ false → checks.new ≡ [] }
    ensures fresh { fresh ≡ 0 → checks.new ≡ [] }
    ensures held { All (IsHeld accesses.now fresh) checks.new }
{
    if is_known {
        checks.cut(accesses, fresh);
    } else {
        checks.clear();
    }
}

/// Where a candidate's run goes on, or begins.
fn stand(
    alloc: Global,
    input: Input<'_>,
    checks: &Checks,
    world: &mut World,
    stack: &mut Stack,
    node: u32,
) -> Result<Start, NoMemory>
    requires well { IsWellFormed (bare input.layout.now) }
    requires vector { IsVector (space_of (bare input.layout.now)) input.vector.now }
    requires small { length (slots (bare input.layout.now)) < 2 ^ 31 }
    requires candidates { world.old.candidates ≡ heap_of (bare input.layout.now) input.vector.now }
    requires frozen { world.old.is_frozen ≡ true }
    requires first { slice_get input.predicate.now.conditions.items 0 ≡ Some node }
    requires kept { All (Kept input.layout.now input.predicate.now input.vector.now) checks.now }
    requires shared { All (Shares input.layout.now input.predicate.now input.vector.now world.old.reads) checks.now }
    ensures goes_on { IfOk result (λ start. GoesOn input.entry.layout.now input.entry.predicate.now input.entry.vector.now start.condition stack.new start.task world.new) }
    ensures shared { IfOk result (λ start. (places : List SlotPlace) → All (Shares input.entry.layout.now input.entry.predicate.now input.entry.vector.now places) checks.now → AreShared input.entry.layout.now input.entry.predicate.now input.entry.vector.now places start.count) }
{
    match checks.wake(alloc, world, stack)? {
        Some(start) => Ok(start),
        None => {
            begin(alloc, input.layout, input.vector, world)?;
            stack.clear();
            Ok(Start {
                condition: 0,
                task: Task::Evaluate(node),
                count: 0,
            })
        }
    }
}

/// How a run has ended, and how many of the places that it has read were read from the start by the run before, too.
#[derive(Clone, Copy)]
pub(crate) struct Went {
    pub end: Result<bool, Stop>,
    pub shared: usize,
}

/// How a run ends whose condition gives a value, where that decides it.
#[inline(always)]
fn decided(predicate: &Predicate, condition: usize, value: Value) -> Option<Result<bool, Stop>>
    ensures { IfSome result (λ end. Decides predicate.now condition value end) }
{
    match value {
        Value::Bool(truth) => {
            if !truth {
                return Some(Ok(false));
            }
            let Some(following) = condition.checked_add(1) else {
                return None;
            };
            match condition_at(predicate, following) {
                None => Some(Ok(true)),
                Some(_) => None,
            }
        }
        Value::Int(_) => None,
        Value::Null => None,
        Value::Ref(_) => None,
    }
}

/// The end of a run that goes on from the last checkpoint, where that is known at once: then neither the checkpoint's stack nor
/// the objects that it has made are copied.
fn foretell(
    predicate: &Predicate,
    checks: &mut Checks,
    world: &mut World,
) -> Result<Option<Went>, NoMemory>
    ensures same { checks.new ≡ checks.old }
    ensures candidates { world.new.candidates ≡ world.old.candidates }
    ensures reads { OnOk result (ReadOn checks.old world.old.reads world.new.reads) }
    ensures foretold { IfOk result (λ found. IfSome found (λ went. IsForetold predicate.now checks.old world.old world.new went)) }
{
    match checks.foresee(&predicate.code, world)? {
        None => Ok(None),
        Some(foreseen) => match decided(predicate, foreseen.condition, foreseen.value) {
            None => Ok(None),
            Some(end) => Ok(Some(Went {
                end,
                shared: foreseen.count,
            })),
        },
    }
}

/// The run of a candidate, with checkpoints of the last run, in a world and on a stack whose room is used: how it ends, and
/// the places that the world then has read. If the last run is known, `known` is its vector, and the world has its heap. Large
/// room is given back.
fn attempt(
    alloc: Global,
    input: Input<'_>,
    last: Last<'_>,
    known: &mut Vector,
    checks: &mut Checks,
    world: &mut World,
    stack: &mut Stack,
    permit: Permit,
) -> Result<Went, NoMemory>
    requires well { IsWellFormed (bare input.layout.now) }
    requires vector { IsVector (space_of (bare input.layout.now)) input.vector.now }
    requires small { length (slots (bare input.layout.now)) < 2 ^ 31 }
    requires some { 0 < length input.predicate.now.conditions.items }
    requires long { length known.old ≡ length (slots (bare input.layout.now)) }
    requires follow { Follow (slots_for (bare input.layout.now)) last.accesses.now }
    requires last { last.is_known ≡ true → IsLast input.layout.now input.predicate.now known.old checks.old world.old last.accesses.now }
    requires same { last.is_known ≡ true → IsSameBut known.old input.vector.now last.low last.high }
    requires high { last.high ≤ length (slots (bare input.layout.now)) }
    requires alike { last.is_known ≡ true → Alike input.layout.now known.old input.vector.now last.fresh last.accesses.now }
    ensures ends { IfOk result (λ went. (program : Program) (n : Numbering) → IsPredicateOf (problem_with program input.entry.layout.now) input.entry.predicate.now n → IsRunTo (problem_with program input.entry.layout.now) input.entry.vector.now went.end world.new.reads) }
    ensures went { IfOk result (λ went. HasGone input.entry.layout.now input.entry.predicate.now input.entry.vector.now went known.new checks.new world.new last.entry.accesses.now) }
    ensures long { length known.new ≡ length known.old }
{
    let node = first_condition(input.predicate);
    settle(checks, last.is_known, last.accesses, last.fresh);
    refresh(
        alloc,
        input.layout,
        input.vector,
        last.is_known,
        known,
        last.low,
        last.high,
        &mut world.candidates,
    )?;
    match foretell(input.predicate, checks, world)? {
        Some(went) => return Ok(went),
        None => {}
    }
    world.is_frozen = true;
    let start = stand(alloc, input, checks, world, stack, node)?;
    let shared = start.count;
    let answer = go_on(
        alloc,
        input,
        world,
        checks,
        start.condition,
        start.task,
        stack,
        permit,
    );
    let end = ended(answer)?;
    restore(
        alloc,
        input.layout,
        input.vector,
        world.is_frozen,
        &mut world.candidates,
    )?;
    stack.release();
    release_made(alloc, &mut world.made);
    Ok(Went { end, shared })
}

/// Such a run, which counts itself, also where memory is refused. No other function of the crate starts the machine, or wakes
/// a checkpoint.
pub(crate) fn run<L: Ledger>(
    alloc: Global,
    input: Input<'_>,
    last: Last<'_>,
    known: &mut Vector,
    checks: &mut Checks,
    world: &mut World,
    stack: &mut Stack,
    runs: &mut Steps<L>,
) -> Result<Went, NoMemory>
    requires well { IsWellFormed (bare input.layout.now) }
    requires vector { IsVector (space_of (bare input.layout.now)) input.vector.now }
    requires small { length (slots (bare input.layout.now)) < 2 ^ 31 }
    requires some { 0 < length input.predicate.now.conditions.items }
    requires long { length known.old ≡ length (slots (bare input.layout.now)) }
    requires follow { Follow (slots_for (bare input.layout.now)) last.accesses.now }
    requires last { last.is_known ≡ true → IsLast input.layout.now input.predicate.now known.old checks.old world.old last.accesses.now }
    requires same { last.is_known ≡ true → IsSameBut known.old input.vector.now last.low last.high }
    requires high { last.high ≤ length (slots (bare input.layout.now)) }
    requires alike { last.is_known ≡ true → Alike input.layout.now known.old input.vector.now last.fresh last.accesses.now }
    ensures ends { IfOk result (λ went. (program : Program) (n : Numbering) → IsPredicateOf (problem_with program input.entry.layout.now) input.entry.predicate.now n → IsRunTo (problem_with program input.entry.layout.now) input.entry.vector.now went.end world.new.reads) }
    ensures went { IfOk result (λ went. HasGone input.entry.layout.now input.entry.predicate.now input.entry.vector.now went known.new checks.new world.new last.entry.accesses.now) }
    ensures long { length known.new ≡ length known.old }
    ensures runs { runs.new ≡ runs.old + 1 }
{
    let permit = runs.tick();
    attempt(alloc, input, last, known, checks, world, stack, permit)
}
