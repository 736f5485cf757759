// A value leaves bodies: it passes frames that need neither the locals nor `this`, which are those of a caller then.
ghost use Rattle.std.specs.Prelude.{◌≡◌, ℕ, suc, IfSome, drop, true};
ghost use Rattle.kr_value.specs.declared.value.Value.{Value as Argument};
ghost use Rattle.kr_mean.specs.declared.flow.Flow.TheVariants as flows;
ghost use Rattle.kr_run_lookahead.specs.declared.leaving.Point.TheVariants as points;
ghost use Rattle.kr_code.specs.declared.code.Code.{Code};
ghost use Rattle.kr_code.specs.Doing.{Doing, IsMeaning};
ghost use Rattle.kr_run_frames.specs.Frames.{got, tested};
ghost use Rattle.kr_mean.specs.Steps.{State, give};
ghost use Rattle.kr_run_lookahead.specs.Leaving.{PassesOn, TellsAt};

use kr_code::{Code, Expression, Statement};
use kr_run_frames::{Stack, TestFrame, ValueFrame, Waiting};
use kr_run_known::{Known, expression_at, statement_at};
use kr_run_state::{alone, binary};
use kr_value::Value;

/// An outcome for a frame: a value, or the value that a body gives.
#[derive(Clone, Copy)]
pub(crate) enum Point {
    Comes(Value),
    Gives(Value),
}

/// An outcome, and the fuel that is left.
#[derive(Clone, Copy)]
pub(crate) struct Stand {
    pub(crate) point: Point,
    pub(crate) fuel: u64,
}

/// A frame that makes a value of a value receives one.
#[inline(always)]
fn value_left(frame: &ValueFrame, given: Value) -> Option<Value>
    ensures { IfSome result (λ v. (code : Code) (d : Doing) (s : State) → got code d frame.now given s ≡ give v s) }
{
    match frame {
        ValueFrame::Unary(operation) => match alone(*operation, given) {
            Ok(value) => Some(value),
            Err(_) => None,
        },
        ValueFrame::Right(operation, left) => match binary(*operation, *left, given) {
            Ok(value) => Some(value),
            Err(_) => None,
        },
        ValueFrame::AndThen(_) => match given {
            Value::Bool(false) => Some(Value::Bool(false)),
            _ => None,
        },
        ValueFrame::OrElse(_) => match given {
            Value::Bool(true) => Some(Value::Bool(true)),
            _ => None,
        },
        _ => None,
    }
}

/// The literal that an expression is, if it is one.
#[inline(always)]
fn literal_at(code: &Code, node: u32) -> Option<Value>
    ensures { IfSome result (λ v. (d : Doing) (s : State) (n : ℕ) → IsMeaning code.now d → s.fuel ≡ suc n → d.value node s ≡ give v (record s { fuel = n })) }
{
    match expression_at(code, node) {
        None => None,
        Some(expression) => match expression {
            Expression::Literal(value) => Some(*value),
            _ => None,
        },
    }
}

/// The literal that a statement returns, if it is such a `return`: its two units are spent.
#[inline(always)]
pub(crate) fn literal_returned(code: &Code, node: u32, fuel: u64) -> Option<Known>
    ensures { IfSome result (λ k. (d : Doing) (s : State) → IsMeaning code.now d → s.fuel ≡ fuel → d.exec node s ≡ give (flows.Gave k.value) (record s { fuel = k.fuel })) }
{
    if fuel < 2 {
        return None;
    }
    match statement_at(code, node) {
        None => None,
        Some(statement) => match statement {
            Statement::Return(returned) => match literal_at(code, *returned) {
                None => None,
                Some(value) => Some(Known {
                    value,
                    fuel: fuel - 2,
                }),
            },
            _ => None,
        },
    }
}

/// A frame that goes on after a value receives one: the value that the body gives, and the fuel that is left.
#[inline(always)]
fn test_left(code: &Code, frame: &TestFrame, given: Value, fuel: u64) -> Option<Known>
    ensures { IfSome result (λ k. (d : Doing) (s : State) → IsMeaning code.now d → s.fuel ≡ fuel → tested code.now d frame.now given s ≡ give (flows.Gave k.value) (record s { fuel = k.fuel })) }
{
    match frame {
        TestFrame::Return => Some(Known { value: given, fuel }),
        TestFrame::Then(then) => match given {
            Value::Bool(true) => literal_returned(code, *then, fuel),
            _ => None,
        },
        _ => None,
    }
}

/// A frame receives a value.
#[inline(always)]
fn comes_on(code: &Code, waiting: &Waiting, given: Value, fuel: u64) -> Option<Stand>
    ensures { IfSome result (λ b. PassesOn code.now waiting.now (record { point = points.Comes given; fuel = fuel }) b) }
{
    match waiting {
        Waiting::Value(frame) => match value_left(frame, given) {
            Some(value) => Some(Stand {
                point: Point::Comes(value),
                fuel,
            }),
            None => None,
        },
        Waiting::Test(frame) => match test_left(code, frame, given, fuel) {
            Some(known) => Some(Stand {
                point: Point::Gives(known.value),
                fuel: known.fuel,
            }),
            None => None,
        },
        _ => None,
    }
}

/// A frame receives the value that a body gives.
#[inline(always)]
fn gives_on(code: &Code, waiting: &Waiting, given: Value, fuel: u64) -> Option<Stand>
    ensures { IfSome result (λ b. PassesOn code.now waiting.now (record { point = points.Gives given; fuel = fuel }) b) }
{
    match waiting {
        Waiting::Flow(_) => Some(Stand {
            point: Point::Gives(given),
            fuel,
        }),
        Waiting::Scope(_) => Some(Stand {
            point: Point::Gives(given),
            fuel,
        }),
        Waiting::Leave(false, _, _) => Some(Stand {
            point: Point::Comes(given),
            fuel,
        }),
        _ => None,
    }
}

/// The frames below a frame receive its outcome.
#[inline(always)]
fn pass_on(code: &Code, waiting: &Waiting, stand: Stand) -> Option<Stand>
    ensures { IfSome result (λ b. PassesOn code.now waiting.now stand b) }
{
    match stand.point {
        Point::Comes(given) => comes_on(code, waiting, given, stand.fuel),
        Point::Gives(given) => gives_on(code, waiting, given, stand.fuel),
    }
}

/// Whether a frame is of a statement in a body, which ends where the body gives a value.
#[inline(always)]
fn is_in_body(waiting: &Waiting) -> bool
    ensures { result ≡ true → (code : Code) (u : Argument) (n : ℕ) → PassesOn code waiting.now (record { point = points.Gives u; fuel = n }) (record { point = points.Gives u; fuel = n }) }
{
    match waiting {
        Waiting::Flow(_) => true,
        Waiting::Scope(_) => true,
        _ => false,
    }
}

/// Where a body ends, below so many frames or further down: the value that it gives passes the frames between them.
#[inline(always)]
fn body_end(stack: &Stack, depth: usize) -> usize
    ensures { (code : Code) (u : Argument) (n : ℕ) (v : Argument) → TellsAt code (drop result stack.now) (record { point = points.Gives u; fuel = n }) v → TellsAt code (drop depth stack.now) (record { point = points.Gives u; fuel = n }) v }
{
    let mut at = depth;
    'frames: while at < stack.len() {
        match stack.frame_at(at) {
            None => return at,
            Some(waiting) => {
                if !is_in_body(waiting) {
                    return at;
                }
                at += 1;
            }
        }
    }
    at
}

/// The value that the run gives where the frames below so many receive the value of a body.
pub(crate) fn left_ahead(
    code: &Code,
    stack: &Stack,
    depth: usize,
    given: Value,
    fuel: u64,
) -> Option<Value>
    ensures { IfSome result (λ v. TellsAt code.now (drop depth stack.now) (record { point = points.Gives given; fuel = fuel }) v) }
{
    let mut stand = Stand {
        point: Point::Gives(given),
        fuel,
    };
    let mut at = body_end(stack, depth);
    'frames: while at < stack.len() {
        match stack.frame_at(at) {
            None => return None,
            Some(waiting) => match pass_on(code, waiting, stand) {
                None => return None,
                Some(next) => {
                    stand = next;
                    at += 1;
                }
            },
        }
    }
    match stand.point {
        Point::Comes(value) => Some(value),
        Point::Gives(_) => None,
    }
}
