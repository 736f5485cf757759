// Operators by the typing rule that they follow.

/// The kind of a binary operator.
#[derive(Clone, Copy, PartialEq, Eq)]
pub enum OperatorKind {
    /// `* / % + -`
    Arithmetic,
    /// `<< >> >>>`
    Shift,
    /// `< > <= >=`
    Comparison,
    /// `== !=`
    Equality,
    /// `& ^ |`
    Bitwise,
    /// `&& ||`
    Logical,
}
