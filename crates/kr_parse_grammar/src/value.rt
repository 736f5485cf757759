// The kinds of trees and modifiers that the parser distinguishes.

/// The larger constructs that a tree can still become part of: expressions by their form, types, declarations of
/// locals.
#[derive(Clone, Copy, PartialEq, Eq)]
pub enum Form {
    /// assignable: a variable, a field or an element
    Target,
    /// a call or the creation of an object
    Invocation,
    ArrayCreation,
    Type,
    Local,
    Other,
}

/// The modifiers of a member that matter.
#[derive(Clone, Copy, PartialEq, Eq)]
pub struct Modifiers {
    pub is_static: bool,
    pub is_final: bool,
    pub overrides: bool,
}

/// The shape of the values on top, as far as a choice of the parser depends on it.
#[derive(Clone, Copy, PartialEq, Eq)]
pub enum Tag {
    Target,
    Invocation,
    ArrayCreation,
    Type,
    /// a type above the name of the type that it is an argument of
    InnerType,
    Local,
    Word,
    Pair,
    /// the name of the class, in a position for a constructor
    Constructor,
    /// modifiers of what may be a nested class
    Nestable,
    /// modifiers of what can only be a method
    Overriding,
    Other,
}
