// The results of expressions.

/// An object of a heap, by the number of objects made before it.
pub type Obj = u32;

/// A value of a primitive type, or a reference (Java Language Specification 4.2, 4.3). The type of a number says how many
/// bits it may have, the number itself doesn't.
#[derive(Clone, Copy, PartialEq, Eq)]
pub enum Value {
    Int(i64),
    Bool(bool),
    Null,
    Ref(Obj),
}
