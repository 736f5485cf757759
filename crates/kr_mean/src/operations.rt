// Operators with the width of the numbers on which they work.

use kr_ast::{BinaryOperator, StepOperator, UnaryOperator};
use kr_value::Width;

/// An operator on two operands: numbers are promoted to this width. A compound assignment converts the result to the width of its
/// target.
#[derive(Clone, Copy)]
pub struct BinaryOperation {
    pub operator: BinaryOperator,
    pub width: Width,
    pub assigned: Option<Width>,
}

/// An operator on one operand.
#[derive(Clone, Copy)]
pub struct UnaryOperation {
    pub operator: UnaryOperator,
    pub width: Width,
}

/// `++` or `--` of a variable.
#[derive(Clone, Copy)]
pub struct StepOperation {
    pub operator: StepOperator,
    pub width: Width,
}
