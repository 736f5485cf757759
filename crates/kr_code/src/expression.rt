// Expressions whose names, types and calls are resolved.

use crate::CollectionCall;
use kr_base::Place;
use kr_classes_table::{ClassId, FieldId, MethodId, NameId, TypeId};
use kr_mean::{BinaryOperation, StepOperation, UnaryOperation};
use kr_value::Value;

/// Nodes that follow one another: so many links of the code, from one on.
#[derive(Clone, Copy)]
pub struct Nodes {
    pub first: u32,
    pub count: u32,
}

/// The target of a call with arguments.
#[derive(Clone, Copy)]
pub enum Callee {
    /// Nothing that is known: the run is stuck after the arguments.
    Unknown,
    /// A static method.
    Static(MethodId),
    /// The method that `this`'s class has in place of this one.
    Own(MethodId),
    /// The superclass's method on `this`, if it has one.
    Super(Option<MethodId>),
    /// The constructors of a class, on a new object.
    New(ClassId),
    /// A new `HashSet`, which takes no arguments.
    NewSet,
    /// A new `LinkedList`, which takes no arguments.
    NewList,
}

/// The target of a write.
#[derive(Clone, Copy)]
pub enum Variable {
    Unknown,
    Local(u32),
    /// A field of `this`, by its name, and as one that is stored.
    Own {
        name: NameId,
        field: FieldId,
    },
    /// A field of an object.
    Of {
        object: u32,
        name: NameId,
        field: FieldId,
    },
    /// An element of an array, whose type has a number.
    Element {
        array: u32,
        index: u32,
        class: TypeId,
    },
}

/// An expression over the indices of its parts.
#[derive(Clone, Copy)]
pub enum Expression {
    /// Nothing that has a meaning.
    Stuck,
    Literal(Value),
    This,
    Local(u32),
    /// A field of `this`, by its name.
    OwnField(NameId),
    /// A field of an object, or an array's length.
    FieldOf {
        object: u32,
        name: NameId,
    },
    Element {
        array: u32,
        index: u32,
    },
    Call {
        callee: Callee,
        arguments: Nodes,
    },
    /// The method that an object's class has in place of this one.
    CallOn {
        object: u32,
        method: MethodId,
        arguments: Nodes,
    },
    /// A static method that is called through an object.
    StaticCallOn {
        object: u32,
        method: MethodId,
        arguments: Nodes,
    },
    /// A call on a collection.
    CallCollection {
        object: u32,
        call: CollectionCall,
        arguments: Nodes,
    },
    /// The array type's number, if it has one, and what an element begins with.
    NewArray {
        class: Option<u32>,
        default: Value,
        length: u32,
    },
    Unary {
        operation: UnaryOperation,
        operand: u32,
    },
    And {
        left: u32,
        right: u32,
    },
    Or {
        left: u32,
        right: u32,
    },
    Binary {
        operation: BinaryOperation,
        left: u32,
        right: u32,
    },
    InstanceOf {
        operand: u32,
        class: TypeId,
    },
    Conditional {
        condition: u32,
        then: u32,
        otherwise: u32,
    },
    Cast {
        class: TypeId,
        operand: u32,
    },
    /// A cast to `boolean`, by which a value stays as it is.
    Convert {
        to: TypeId,
        operand: u32,
    },
    Assign {
        variable: Variable,
        value: u32,
    },
    Compound {
        operation: BinaryOperation,
        variable: Variable,
        value: u32,
    },
    Step {
        operation: StepOperation,
        variable: Variable,
    },
    Result,
    Old(Place),
}
