// Why an operator gives nothing.

/// Its divisor is zero (Java Language Specification 15.17.2), or it isn't defined for its operands.
#[derive(Clone, Copy, PartialEq, Eq)]
pub enum OperatorError {
    ZeroDivisor,
    NotDefined,
}
