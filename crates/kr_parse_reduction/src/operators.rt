// The operators of kept tokens.
ghost use Rattle.std.specs.Prelude.{◌≡◌};
ghost use Rattle.kr_parse_grammar.specs.Made.{the_primitive, the_unary, the_step_before, the_step_behind, the_binary, the_compound};

use kr_ast::{BinaryOperator, Primitive, StepOperator, UnaryOperator};
use kr_lex::Kind;

/// The primitive type of a token, `void` for any other.
pub(crate) fn primitive_of(kind: Kind) -> Primitive
    ensures { result ≡ the_primitive kind }
{
    match kind {
        Kind::Int => Primitive::Int,
        Kind::Long => Primitive::Long,
        Kind::Boolean => Primitive::Boolean,
        _ => Primitive::Void,
    }
}

/// The operator of a kept token before its operand.
pub(crate) fn unary_of(kind: Kind) -> UnaryOperator
    ensures { result ≡ the_unary kind }
{
    match kind {
        Kind::Plus => UnaryOperator::Plus,
        Kind::Minus => UnaryOperator::Minus,
        Kind::Tilde => UnaryOperator::Complement,
        _ => UnaryOperator::Not,
    }
}

/// The operator of a token after its operand.
pub(crate) fn step_behind_of(kind: Kind) -> StepOperator
    ensures { result ≡ the_step_behind kind }
{
    match kind {
        Kind::PlusPlus => StepOperator::IncrementBehind,
        _ => StepOperator::DecrementBehind,
    }
}

/// `++` and `--` before their operand.
pub(crate) fn step_before_of(kind: Kind) -> StepOperator
    ensures { result ≡ the_step_before kind }
{
    match kind {
        Kind::PlusPlus => StepOperator::IncrementBefore,
        _ => StepOperator::DecrementBefore,
    }
}

/// Between two operands.
pub(crate) fn binary_of(kind: Kind) -> BinaryOperator
    ensures { result ≡ the_binary kind }
{
    match kind {
        Kind::Star => BinaryOperator::Multiply,
        Kind::Slash => BinaryOperator::Divide,
        Kind::Percent => BinaryOperator::Remainder,
        Kind::Plus => BinaryOperator::Add,
        Kind::Minus => BinaryOperator::Subtract,
        Kind::LessLess => BinaryOperator::ShiftLeft,
        Kind::GreaterGreater => BinaryOperator::ShiftRight,
        Kind::GreaterGreaterGreater => BinaryOperator::ShiftRightUnsigned,
        Kind::Less => BinaryOperator::Less,
        Kind::Greater => BinaryOperator::Greater,
        Kind::LessEqual => BinaryOperator::LessOrEqual,
        Kind::GreaterEqual => BinaryOperator::GreaterOrEqual,
        Kind::EqualEqual => BinaryOperator::Equal,
        Kind::ExclamationEqual => BinaryOperator::NotEqual,
        Kind::Ampersand => BinaryOperator::BitAnd,
        Kind::Caret => BinaryOperator::BitXor,
        Kind::Bar => BinaryOperator::BitOr,
        Kind::AmpersandAmpersand => BinaryOperator::And,
        _ => BinaryOperator::Or,
    }
}

/// The operator of a compound assignment.
pub(crate) fn compound_of(kind: Kind) -> BinaryOperator
    ensures { result ≡ the_compound kind }
{
    match kind {
        Kind::PlusEqual => BinaryOperator::Add,
        Kind::MinusEqual => BinaryOperator::Subtract,
        Kind::StarEqual => BinaryOperator::Multiply,
        Kind::SlashEqual => BinaryOperator::Divide,
        Kind::PercentEqual => BinaryOperator::Remainder,
        Kind::AmpersandEqual => BinaryOperator::BitAnd,
        Kind::BarEqual => BinaryOperator::BitOr,
        Kind::CaretEqual => BinaryOperator::BitXor,
        Kind::LessLessEqual => BinaryOperator::ShiftLeft,
        Kind::GreaterGreaterEqual => BinaryOperator::ShiftRight,
        _ => BinaryOperator::ShiftRightUnsigned,
    }
}
