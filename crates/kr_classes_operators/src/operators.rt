// The operators, on the values for which they are defined.
ghost use Rattle.std.specs.Prelude.{◌≡◌};
ghost use Rattle.kr_classes_table.specs.Numbers.{Bits32, Bits64, wider as wider_of};
ghost use Rattle.kr_classes_table.specs.Operators.{apply as applied, apply_alone as applied_alone, converted, of_booleans, of_references, of_wholes, operator_width as width_by};

use crate::numbers::{
    both_bits, complemented, difference, different_bits, either_bits, left_shift, narrowed,
    negated, product, quotient, remainder, right_shift, sum, unsigned_right_shift,
};
use kr_ast::{BinaryOperator, UnaryOperator};
use kr_classes_table::OperatorError;
use kr_value::{Value, Width};

/// An operator on two numbers of a width.
#[inline(always)]
fn of_numbers(
    width: Width,
    operator: BinaryOperator,
    a: i64,
    b: i64,
) -> Result<Value, OperatorError>
    ensures { result ≡ of_wholes width operator a b }
{
    match operator {
        BinaryOperator::Multiply => Ok(Value::Int(product(width, a, b))),
        BinaryOperator::Divide => {
            if b == 0 {
                Err(OperatorError::ZeroDivisor)
            } else {
                Ok(Value::Int(quotient(width, a, b)))
            }
        }
        BinaryOperator::Remainder => {
            if b == 0 {
                Err(OperatorError::ZeroDivisor)
            } else {
                Ok(Value::Int(remainder(width, a, b)))
            }
        }
        BinaryOperator::Add => Ok(Value::Int(sum(width, a, b))),
        BinaryOperator::Subtract => Ok(Value::Int(difference(width, a, b))),
        BinaryOperator::ShiftLeft => Ok(Value::Int(left_shift(width, a, b))),
        BinaryOperator::ShiftRight => Ok(Value::Int(right_shift(width, a, b))),
        BinaryOperator::ShiftRightUnsigned => Ok(Value::Int(unsigned_right_shift(width, a, b))),
        BinaryOperator::Less => Ok(Value::Bool(a < b)),
        BinaryOperator::Greater => Ok(Value::Bool(b < a)),
        BinaryOperator::LessOrEqual => Ok(Value::Bool(a <= b)),
        BinaryOperator::GreaterOrEqual => Ok(Value::Bool(b <= a)),
        BinaryOperator::Equal => Ok(Value::Bool(a == b)),
        BinaryOperator::NotEqual => Ok(Value::Bool(a != b)),
        BinaryOperator::BitAnd => Ok(Value::Int(both_bits(width, a, b))),
        BinaryOperator::BitXor => Ok(Value::Int(different_bits(width, a, b))),
        BinaryOperator::BitOr => Ok(Value::Int(either_bits(width, a, b))),
        BinaryOperator::And | BinaryOperator::Or => Err(OperatorError::NotDefined),
    }
}

/// An operator on two ints: a function of its own, which knows the width.
#[inline(never)]
fn of_ints(operator: BinaryOperator, a: i64, b: i64) -> Result<Value, OperatorError>
    ensures { result ≡ of_wholes Bits32 operator a b }
{
    of_numbers(Width::Bits32, operator, a, b)
}

/// An operator on two longs.
#[inline(never)]
fn of_longs(operator: BinaryOperator, a: i64, b: i64) -> Result<Value, OperatorError>
    ensures { result ≡ of_wholes Bits64 operator a b }
{
    of_numbers(Width::Bits64, operator, a, b)
}

/// An operator on two booleans.
#[inline(never)]
fn of_truths(operator: BinaryOperator, a: bool, b: bool) -> Result<Value, OperatorError>
    ensures { result ≡ of_booleans operator a b }
{
    match operator {
        BinaryOperator::Equal => Ok(Value::Bool(a == b)),
        BinaryOperator::NotEqual | BinaryOperator::BitXor => Ok(Value::Bool(a != b)),
        BinaryOperator::BitAnd | BinaryOperator::And => Ok(Value::Bool(a && b)),
        BinaryOperator::BitOr | BinaryOperator::Or => Ok(Value::Bool(a || b)),
        _ => Err(OperatorError::NotDefined),
    }
}

/// An operator on two references, by whether they are equal.
#[inline(always)]
fn of_objects(operator: BinaryOperator, same: bool) -> Result<Value, OperatorError>
    ensures { result ≡ of_references operator same }
{
    match operator {
        BinaryOperator::Equal => Ok(Value::Bool(same)),
        BinaryOperator::NotEqual => Ok(Value::Bool(!same)),
        _ => Err(OperatorError::NotDefined),
    }
}

/// An operator on two numbers.
#[inline(always)]
fn of_two(width: Width, operator: BinaryOperator, a: i64, b: i64) -> Result<Value, OperatorError>
    ensures { result ≡ of_wholes width operator a b }
{
    match width {
        Width::Bits32 => of_ints(operator, a, b),
        Width::Bits64 => of_longs(operator, a, b),
    }
}

/// An operator on two values, of which numbers have this width.
#[inline(always)]
pub fn apply(
    width: Width,
    operator: BinaryOperator,
    a: Value,
    b: Value,
) -> Result<Value, OperatorError>
    ensures { result ≡ applied width operator a b }
{
    match (a, b) {
        (Value::Int(a), Value::Int(b)) => of_two(width, operator, a, b),
        (Value::Bool(a), Value::Bool(b)) => of_truths(operator, a, b),
        (Value::Null, Value::Null) => of_objects(operator, true),
        (Value::Null, Value::Ref(_)) | (Value::Ref(_), Value::Null) => of_objects(operator, false),
        (Value::Ref(a), Value::Ref(b)) => of_objects(operator, a == b),
        _ => Err(OperatorError::NotDefined),
    }
}

/// An operator on a number of a width.
#[inline(always)]
fn of_number(width: Width, operator: UnaryOperator, a: i64) -> Result<Value, OperatorError>
    ensures { result ≡ applied_alone width operator (Value.Int a) }
{
    match operator {
        UnaryOperator::Plus => Ok(Value::Int(narrowed(width, a))),
        UnaryOperator::Minus => Ok(Value::Int(negated(width, a))),
        UnaryOperator::Complement => Ok(Value::Int(complemented(width, a))),
        UnaryOperator::Not => Err(OperatorError::NotDefined),
    }
}

/// An operator on one value, a number of this width or another one.
#[inline(always)]
pub fn apply_alone(width: Width, operator: UnaryOperator, a: Value) -> Result<Value, OperatorError>
    ensures { result ≡ applied_alone width operator a }
{
    match (operator, a) {
        (_, Value::Int(a)) => of_number(width, operator, a),
        (UnaryOperator::Not, Value::Bool(a)) => Ok(Value::Bool(!a)),
        _ => Err(OperatorError::NotDefined),
    }
}

/// The value, where a number leaves that of a width.
#[inline(always)]
pub fn convert(width: Width, a: Value) -> Value
    ensures { result ≡ converted width a }
{
    match a {
        Value::Int(a) => Value::Int(narrowed(width, a)),
        _ => a,
    }
}

/// The width of the numbers of both.
pub fn wider(a: Width, b: Width) -> Width
    ensures { result ≡ wider_of a b }
{
    match a {
        Width::Bits32 => b,
        Width::Bits64 => Width::Bits64,
    }
}

/// The width of the numbers of an operator, from those of its operands: of a shift the left one's.
pub fn operator_width(operator: BinaryOperator, a: Width, b: Width) -> Width
    ensures { result ≡ width_by operator a b }
{
    match operator {
        BinaryOperator::ShiftLeft
        | BinaryOperator::ShiftRight
        | BinaryOperator::ShiftRightUnsigned => a,
        _ => wider(a, b),
    }
}
