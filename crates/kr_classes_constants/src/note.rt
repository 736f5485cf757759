// The outcome of a possibly constant expression, from those of its operands.
ghost use Rattle.std.specs.Prelude.{◌≡◌, Some, None, unwrap_or};
ghost use Rattle.kr_classes_table.specs.Constants.{cast_value, value_in};
ghost use Rattle.kr_classes_table.specs.Numbers.{Bits32};
ghost use Rattle.kr_classes_constants.specs.Outcomes.{binary_outcome, binary_sized, cast_outcome, cast_sized, conditional_outcome, conditional_sized, found_shown, known_outcome, note_shown, sized, unary_outcome, unary_sized};

use kr_ast::{BinaryOperator, UnaryOperator};
use kr_classes_operators::{apply, apply_alone, convert, operator_width, wider};
use kr_classes_table::OperatorError;
use kr_value::{Value, Width};

/// The outcome of an expression.
#[derive(Clone, Copy)]
pub(crate) enum Note {
    /// It is no constant expression.
    NotConstant,
    /// It is one, but a zero divisor is met.
    NoValue,
    Value(Value),
}

impl Note {
    /// The note of a constant expression with this result of its operator.
    pub(crate) fn of(given: Result<Value, OperatorError>) -> Note
        ensures { note_shown result ≡ Some (value_in given) }
    {
        match given {
            Err(_) => Note::NoValue,
            Ok(value) => Note::Value(value),
        }
    }

    /// The note of a name that means a constant with this value, or none.
    pub(crate) fn of_known(value: Option<Value>) -> Note
        ensures { note_shown result ≡ known_outcome value }
    {
        match value {
            None => Note::NotConstant,
            Some(value) => Note::Value(value),
        }
    }
}

/// A note, with the width of the expression's numbers.
#[derive(Clone, Copy)]
pub(crate) struct Found {
    pub(crate) width: Width,
    pub(crate) note: Note,
}

impl Found {
    /// A value of a width.
    pub(crate) fn value(width: Width, value: Value) -> Found
        ensures { found_shown result ≡ sized width (Some (Some value)) }
    {
        Found {
            width,
            note: Note::Value(value),
        }
    }

    /// Of an expression that isn't constant nothing is known.
    pub(crate) fn none() -> Found
        ensures { found_shown result ≡ sized Bits32 None }
    {
        Found {
            width: Width::Bits32,
            note: Note::NotConstant,
        }
    }
}

/// At the width of the operand.
fn unary_note(width: Width, operator: UnaryOperator, operand: Note) -> Note
    ensures { note_shown result ≡ unary_outcome width operator (note_shown operand) }
{
    match operand {
        Note::NotConstant => Note::NotConstant,
        Note::NoValue => Note::NoValue,
        Note::Value(value) => Note::of(apply_alone(width, operator, value)),
    }
}

pub(crate) fn unary_found(operator: UnaryOperator, operand: Found) -> Found
    ensures { found_shown result ≡ unary_sized operator (found_shown operand) }
{
    Found {
        width: operand.width,
        note: unary_note(operand.width, operator, operand.note),
    }
}

/// The right operand counts only where it is needed.
fn binary_note(width: Width, operator: BinaryOperator, left: Note, right: Note) -> Note
    ensures { note_shown result ≡ binary_outcome width operator (note_shown left) (note_shown right) }
{
    match (operator, left, right) {
        (_, Note::NotConstant, _) | (_, _, Note::NotConstant) => Note::NotConstant,
        (BinaryOperator::And, Note::Value(Value::Bool(false)), _) => left,
        (BinaryOperator::Or, Note::Value(Value::Bool(true)), _) => left,
        (_, Note::Value(a), Note::Value(b)) => Note::of(apply(width, operator, a, b)),
        _ => Note::NoValue,
    }
}

/// At the width of the operands.
pub(crate) fn binary_found(operator: BinaryOperator, left: Found, right: Found) -> Found
    ensures { found_shown result ≡ binary_sized operator (found_shown left) (found_shown right) }
{
    let width = operator_width(operator, left.width, right.width);
    Found {
        width,
        note: binary_note(width, operator, left.note, right.note),
    }
}

fn conditional_note(condition: Note, holds: Note, fails: Note) -> Note
    ensures { note_shown result ≡ conditional_outcome (note_shown condition) (note_shown holds) (note_shown fails) }
{
    match (condition, holds, fails) {
        (Note::NotConstant, _, _) | (_, Note::NotConstant, _) | (_, _, Note::NotConstant) => {
            Note::NotConstant
        }
        (Note::Value(Value::Bool(true)), _, _) => holds,
        (Note::Value(Value::Bool(false)), _, _) => fails,
        _ => Note::NoValue,
    }
}

/// Of the width of both arms.
pub(crate) fn conditional_found(condition: Found, holds: Found, fails: Found) -> Found
    ensures { found_shown result ≡ conditional_sized (found_shown condition) (found_shown holds) (found_shown fails) }
{
    Found {
        width: wider(holds.width, fails.width),
        note: conditional_note(condition.note, holds.note, fails.note),
    }
}

/// A number is converted to this width, if there is one.
fn cast(width: Option<Width>, value: Value) -> Value
    ensures { result ≡ cast_value width value }
{
    match width {
        None => value,
        Some(width) => convert(width, value),
    }
}

fn cast_note(width: Option<Width>, operand: Note) -> Note
    ensures { note_shown result ≡ cast_outcome width (note_shown operand) }
{
    match operand {
        Note::NotConstant => Note::NotConstant,
        Note::NoValue => Note::NoValue,
        Note::Value(value) => Note::Value(cast(width, value)),
    }
}

/// That of `int` where there is none.
fn width_or(width: Option<Width>) -> Width
    ensures { result ≡ unwrap_or width Bits32 }
{
    match width {
        None => Width::Bits32,
        Some(width) => width,
    }
}

/// A cast to a primitive type, of numbers of this width or another one.
pub(crate) fn cast_found(width: Option<Width>, operand: Found) -> Found
    ensures { found_shown result ≡ cast_sized width (found_shown operand) }
{
    Found {
        width: width_or(width),
        note: cast_note(width, operand.note),
    }
}
