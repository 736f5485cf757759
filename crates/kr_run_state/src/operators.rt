// Operators on values.
ghost use Rattle.std.specs.Prelude.{◌≡◌};
ghost use Rattle.kr_mean.specs.Steps.{say};
ghost use Rattle.kr_mean.specs.Operators as meaning;
ghost use Rattle.kr_run_state.specs.Worlds.{state_at, Agrees};

use crate::{Halt, World};
use kr_classes_operators::{apply, apply_alone, convert};
use kr_classes_table::OperatorError;
use kr_mean::{BinaryOperation, Kind, Stop, UnaryOperation};
use kr_value::{Value, Width};

/// A zero divisor traps.
#[inline(always)]
fn said(given: Result<Value, OperatorError>) -> Result<Value, Stop>
    ensures { result ≡ meaning.said given }
{
    match given {
        Ok(value) => Ok(value),
        Err(OperatorError::ZeroDivisor) => Err(Stop::Trapped(Kind::ArithmeticException)),
        Err(OperatorError::NotDefined) => Err(Stop::Stuck),
    }
}

/// The result, which a compound assignment converts to the width of its target.
#[inline(always)]
fn into(width: Option<Width>, given: Result<Value, OperatorError>) -> Result<Value, OperatorError>
    ensures { result ≡ meaning.into width given }
{
    match width {
        None => given,
        Some(width) => match given {
            Ok(value) => Ok(convert(width, value)),
            Err(error) => Err(error),
        },
    }
}

/// The result of an operator on two operands.
#[inline(always)]
pub fn binary(operation: BinaryOperation, left: Value, right: Value) -> Result<Value, Stop>
    ensures { result ≡ meaning.operated operation left right }
{
    said(into(
        operation.assigned,
        apply(operation.width, operation.operator, left, right),
    ))
}

/// The result of an operator on one operand.
#[inline(always)]
pub fn alone(operation: UnaryOperation, value: Value) -> Result<Value, Stop>
    ensures { result ≡ meaning.operated_alone operation value }
{
    said(apply_alone(operation.width, operation.operator, value))
}

/// Two operands.
#[inline(always)]
pub fn operated(
    world: &World,
    operation: BinaryOperation,
    left: Value,
    right: Value,
) -> Result<Value, Halt>
    ensures { Agrees result world.now world.now (λ x. say (meaning.operated operation left right) (state_at world.now x)) }
{
    match binary(operation, left, right) {
        Ok(value) => Ok(value),
        Err(end) => Err(Halt::Ended(end)),
    }
}

/// One operand.
#[inline(always)]
pub fn operated_alone(world: &World, operation: UnaryOperation, value: Value) -> Result<Value, Halt>
    ensures { Agrees result world.now world.now (λ x. say (meaning.operated_alone operation value) (state_at world.now x)) }
{
    match alone(operation, value) {
        Ok(value) => Ok(value),
        Err(end) => Err(Halt::Ended(end)),
    }
}
