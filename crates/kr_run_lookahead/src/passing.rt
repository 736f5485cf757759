// The outcome of a frame that receives a value, or a flow, where that is known at once.
ghost use Rattle.std.specs.Prelude.{◌≡◌, IfSome, false, true};
ghost use Rattle.kr_value.specs.declared.value.Value.TheVariants.{Bool as Truth};
ghost use Rattle.kr_mean.specs.declared.flow.Flow.TheVariants.{Next};
ghost use Rattle.kr_mean.specs.Meaning.{choose, then_on, then_round};
ghost use Rattle.kr_mean.specs.Operators.{operated as operated_step, operated_alone as alone_step};
ghost use Rattle.kr_mean.specs.Steps.{bind, give, say};
ghost use Rattle.kr_code.specs.Doing.{Doing, all_at};
ghost use Rattle.kr_code.specs.Steps.{load_named};
ghost use Rattle.kr_code.specs.Tables.{listed};
ghost use Rattle.kr_run_frames.specs.Frames.{got, led, repeated, test_of, tested, turned};
ghost use Rattle.kr_run_known.specs.Knowing.{Knows};
ghost use Rattle.kr_run_lookahead.specs.Flows.{KnowsFlow};

use crate::flows::{Led, known_flow, known_flow_of};
use kr_code::{Code, Nodes};
use kr_mean::{BinaryOperation, Flow, UnaryOperation};
use kr_run_frames::{FlowFrame, Loop, TestFrame, ValueFrame};
use kr_run_known::{Known, field, look_at};
use kr_run_state::{World, alone, binary};
use kr_value::Value;

/// The field of a name.
#[inline(always)]
fn loaded(code: &Code, world: &World, name: u32, object: Value, fuel: u64) -> Option<Known>
    ensures { IfSome result (λ k. Knows code.now world.now fuel k (λ d. load_named code.now name object)) }
{
    match field(code, world, name, object) {
        None => None,
        Some(value) => Some(Known { value, fuel }),
    }
}

/// An operator with its operand.
#[inline(always)]
pub(crate) fn operated_alone(
    code: &Code,
    world: &World,
    operation: UnaryOperation,
    given: Value,
    fuel: u64,
) -> Option<Known>
    ensures { IfSome result (λ k. Knows code.now world.now fuel k (λ d. say (alone_step operation given))) }
{
    match alone(operation, given) {
        Err(_) => None,
        Ok(value) => Some(Known { value, fuel }),
    }
}

/// An operator with its operands.
#[inline(always)]
fn operated(
    code: &Code,
    world: &World,
    operation: BinaryOperation,
    left: Value,
    right: Value,
    fuel: u64,
) -> Option<Known>
    ensures { IfSome result (λ k. Knows code.now world.now fuel k (λ d. say (operated_step operation left right))) }
{
    match binary(operation, left, right) {
        Err(_) => None,
        Ok(value) => Some(Known { value, fuel }),
    }
}

/// An operator with its left operand: the right one is looked at.
#[inline(always)]
fn with_right(
    code: &Code,
    world: &World,
    operation: BinaryOperation,
    right: u32,
    given: Value,
    fuel: u64,
) -> Option<Known>
    ensures { IfSome result (λ k. Knows code.now world.now fuel k (λ d. bind (d.value right) (λ w. say (operated_step operation given w)))) }
{
    match look_at(code, world, right, fuel) {
        None => None,
        Some(found) => operated(code, world, operation, given, found.value, found.fuel),
    }
}

/// A conjunction with its left operand.
#[inline(always)]
fn both(code: &Code, world: &World, right: u32, given: Value, fuel: u64) -> Option<Known>
    ensures { IfSome result (λ k. Knows code.now world.now fuel k (λ d. choose given (d.value right) (give (Truth false)))) }
{
    match given {
        Value::Bool(true) => look_at(code, world, right, fuel),
        Value::Bool(false) => Some(Known {
            value: Value::Bool(false),
            fuel,
        }),
        _ => None,
    }
}

/// A disjunction with its left operand.
#[inline(always)]
fn either(code: &Code, world: &World, right: u32, given: Value, fuel: u64) -> Option<Known>
    ensures { IfSome result (λ k. Knows code.now world.now fuel k (λ d. choose given (give (Truth true)) (d.value right))) }
{
    match given {
        Value::Bool(true) => Some(Known {
            value: Value::Bool(true),
            fuel,
        }),
        Value::Bool(false) => look_at(code, world, right, fuel),
        _ => None,
    }
}

/// A frame that makes a value of a value receives one.
#[inline(always)]
pub(crate) fn value_from(
    code: &Code,
    world: &World,
    frame: &ValueFrame,
    given: Value,
    fuel: u64,
) -> Option<Known>
    ensures { IfSome result (λ k. Knows code.now world.now fuel k (λ d. got code.now d frame.now given)) }
{
    match frame {
        ValueFrame::Load(name) => loaded(code, world, *name, given, fuel),
        ValueFrame::Unary(operation) => operated_alone(code, world, *operation, given, fuel),
        ValueFrame::Left(operation, right) => {
            with_right(code, world, *operation, *right, given, fuel)
        }
        ValueFrame::Right(operation, left) => operated(code, world, *operation, *left, given, fuel),
        ValueFrame::AndThen(right) => both(code, world, *right, given, fuel),
        ValueFrame::OrElse(right) => either(code, world, *right, given, fuel),
        _ => None,
    }
}

/// A statement, where a value holds, and nothing else.
#[inline(always)]
fn chosen(code: &Code, world: &World, then: u32, given: Value, fuel: u64) -> Option<Led>
    ensures { IfSome result (λ l. KnowsFlow code.now world.now fuel l (λ d. choose given (d.exec then) (give Next))) }
{
    match given {
        Value::Bool(true) => known_flow(code, world, then, fuel),
        Value::Bool(false) => Some(Led {
            flow: Flow::Next,
            fuel,
        }),
        _ => None,
    }
}

/// One of two statements.
#[inline(always)]
fn branched(
    code: &Code,
    world: &World,
    then: u32,
    otherwise: u32,
    given: Value,
    fuel: u64,
) -> Option<Led>
    ensures { IfSome result (λ l. KnowsFlow code.now world.now fuel l (λ d. choose given (d.exec then) (d.exec otherwise))) }
{
    match given {
        Value::Bool(true) => known_flow(code, world, then, fuel),
        Value::Bool(false) => known_flow(code, world, otherwise, fuel),
        _ => None,
    }
}

/// A loop's test that doesn't hold.
#[inline(always)]
fn left_loop(code: &Code, world: &World, turn: Loop, given: Value, fuel: u64) -> Option<Led>
    ensures { IfSome result (λ l. KnowsFlow code.now world.now fuel l (λ d. turned code.now d turn given)) }
{
    match given {
        Value::Bool(false) => Some(Led {
            flow: Flow::Next,
            fuel,
        }),
        _ => None,
    }
}

/// A frame that goes on after a value receives one.
#[inline(always)]
pub(crate) fn flow_from(
    code: &Code,
    world: &World,
    frame: &TestFrame,
    given: Value,
    fuel: u64,
) -> Option<Led>
    ensures { IfSome result (λ l. KnowsFlow code.now world.now fuel l (λ d. tested code.now d frame.now given)) }
{
    match frame {
        TestFrame::Then(then) => chosen(code, world, *then, given, fuel),
        TestFrame::Branch(then, otherwise) => {
            branched(code, world, *then, *otherwise, given, fuel)
        }
        TestFrame::Discard => Some(Led {
            flow: Flow::Next,
            fuel,
        }),
        TestFrame::Return => Some(Led {
            flow: Flow::Gave(given),
            fuel,
        }),
        TestFrame::Test(turn) => left_loop(code, world, *turn, given, fuel),
        _ => None,
    }
}

/// The test of a loop's round, if it has one.
#[inline(always)]
fn test_at(turn: Loop) -> Option<u32>
    ensures { IfSome result (λ e. (d : Doing) → test_of d turn ≡ d.value e) }
{
    match turn {
        Loop::While(condition, _) => Some(condition),
        Loop::For(condition, _, _) => condition,
    }
}

/// A loop's next round, where its test doesn't hold: the unit, and the test.
#[inline(always)]
fn ended(code: &Code, world: &World, turn: Loop, fuel: u64) -> Option<Led>
    ensures { IfSome result (λ l. KnowsFlow code.now world.now fuel l (λ d. repeated code.now d turn)) }
{
    if fuel == 0 {
        return None;
    }
    match test_at(turn) {
        None => None,
        Some(condition) => match look_at(code, world, condition, fuel - 1) {
            None => None,
            Some(found) => left_loop(code, world, turn, found.value, found.fuel),
        },
    }
}

/// Statements that are left, unless the one before them has led elsewhere.
#[inline(always)]
fn rest(code: &Code, world: &World, others: Nodes, flow: Flow, fuel: u64) -> Option<Led>
    ensures { IfSome result (λ l. KnowsFlow code.now world.now fuel l (λ d. then_on flow (all_at d (listed code.now others)))) }
{
    match flow {
        Flow::Next => known_flow_of(code, world, others, fuel),
        _ => Some(Led { flow, fuel }),
    }
}

/// A loop, after one of its rounds.
#[inline(always)]
fn again(code: &Code, world: &World, turn: Loop, flow: Flow, fuel: u64) -> Option<Led>
    ensures { IfSome result (λ l. KnowsFlow code.now world.now fuel l (λ d. then_round flow (repeated code.now d turn))) }
{
    match flow {
        Flow::Next => ended(code, world, turn, fuel),
        Flow::Continued => ended(code, world, turn, fuel),
        Flow::Broke => Some(Led {
            flow: Flow::Next,
            fuel,
        }),
        _ => Some(Led { flow, fuel }),
    }
}

/// A frame receives a flow.
#[inline(always)]
pub(crate) fn flow_onward(
    code: &Code,
    world: &World,
    frame: &FlowFrame,
    flow: Flow,
    fuel: u64,
) -> Option<Led>
    ensures { IfSome result (λ l. KnowsFlow code.now world.now fuel l (λ d. led code.now d frame.now flow)) }
{
    match frame {
        FlowFrame::Rest(others) => rest(code, world, *others, flow, fuel),
        FlowFrame::Again(turn) => again(code, world, *turn, flow, fuel),
        FlowFrame::Update(_) => None,
        FlowFrame::First(_) => None,
    }
}
