// The nodes of a tree, over the indices of their parts.

use kr_base::Place;

/// A range of the tree's text: `start` inclusive, `end` exclusive.
#[derive(Clone, Copy)]
pub struct Name {
    pub start: u32,
    pub end: u32,
}

/// A primitive type, or that of a method without a result.
#[derive(Clone, Copy, PartialEq, Eq)]
pub enum Primitive {
    Int,
    Long,
    Boolean,
    Void,
}

/// An operator before its operand (Java Language Specification 15.15.3 to 15.15.6).
#[derive(Clone, Copy, PartialEq, Eq)]
pub enum UnaryOperator {
    Plus,
    Minus,
    Complement,
    Not,
}

/// `++` and `--`, before or after their operand (15.14.2, 15.14.3, 15.15.1, 15.15.2).
#[derive(Clone, Copy, PartialEq, Eq)]
pub enum StepOperator {
    IncrementBefore,
    DecrementBefore,
    IncrementBehind,
    DecrementBehind,
}

/// An operator between two operands (15.17 to 15.24).
#[derive(Clone, Copy, PartialEq, Eq)]
pub enum BinaryOperator {
    Multiply,
    Divide,
    Remainder,
    Add,
    Subtract,
    ShiftLeft,
    ShiftRight,
    ShiftRightUnsigned,
    Less,
    Greater,
    LessOrEqual,
    GreaterOrEqual,
    Equal,
    NotEqual,
    BitAnd,
    BitXor,
    BitOr,
    And,
    Or,
}

/// A node over the indices of its parts. An absent part is a `Nil`.
#[derive(Clone, Copy)]
pub enum Node {
    // lists, and absent parts
    Nil,
    Cons {
        first: u32,
        rest: u32,
    },

    // types
    PrimitiveType {
        primitive: Primitive,
    },
    NamedType {
        name: Name,
    },
    /// `Outer.Inner`
    QualifiedType {
        outer: Name,
        name: Name,
    },
    /// `Head<Argument>`
    GenericType {
        head: u32,
        argument: u32,
    },
    /// `Head<>`, of an object creation alone
    DiamondType {
        head: u32,
    },
    ArrayType {
        element: u32,
    },

    // expressions
    Number {
        value: u32,
    },
    /// A number of a `long`, which ends in `l` or `L`.
    LongNumber {
        value: u64,
    },
    Truth {
        value: bool,
    },
    Null,
    This,
    Variable {
        name: Name,
    },
    FieldAccess {
        object: u32,
        name: Name,
    },
    ArrayAccess {
        array: u32,
        index: u32,
    },
    /// `name(..)`
    Call {
        name: Name,
        arguments: u32,
    },
    /// `object.name(..)`
    MethodCall {
        object: u32,
        name: Name,
        arguments: u32,
    },
    /// `super.name(..)`
    SuperCall {
        name: Name,
        arguments: u32,
    },
    ObjectCreation {
        class: u32,
        arguments: u32,
    },
    ArrayCreation {
        element: u32,
        length: u32,
    },
    Unary {
        operator: UnaryOperator,
        operand: u32,
    },
    Step {
        operator: StepOperator,
        target: u32,
    },
    Binary {
        operator: BinaryOperator,
        left: u32,
        right: u32,
    },
    InstanceOf {
        operand: u32,
        tested: u32,
    },
    Conditional {
        condition: u32,
        holds: u32,
        fails: u32,
    },
    Cast {
        target: u32,
        operand: u32,
    },
    Assignment {
        target: u32,
        value: u32,
    },
    CompoundAssignment {
        operator: BinaryOperator,
        target: u32,
        value: u32,
    },
    /// `\result`
    Result,
    /// `\old(..)`
    Old {
        operand: u32,
    },

    // statements
    Empty,
    Block {
        statements: u32,
    },
    Local {
        declared: u32,
        declarators: u32,
    },
    Declarator {
        name: Name,
        initial: u32,
    },
    ExpressionStatement {
        expression: u32,
    },
    Return {
        value: u32,
    },
    Break,
    Continue,
    IfThen {
        condition: u32,
        holds: u32,
    },
    IfElse {
        condition: u32,
        holds: u32,
        fails: u32,
    },
    While {
        condition: u32,
        body: u32,
    },
    Do {
        body: u32,
        condition: u32,
    },
    For {
        initial: u32,
        condition: u32,
        updates: u32,
        body: u32,
    },
    Throw {
        thrown: u32,
    },
    Try {
        body: u32,
        catches: u32,
    },
    Catch {
        declared: u32,
        body: u32,
    },
    /// `super(..);` at the head of a constructor
    ConstructorCall {
        arguments: u32,
    },

    // declarations
    Class {
        name: Name,
        extended: u32,
        members: u32,
    },
    Field {
        is_static: bool,
        is_final: bool,
        declared: u32,
        declarators: u32,
    },
    Method {
        is_static: bool,
        name: Name,
        signature: u32,
        body: u32,
    },
    Signature {
        result: u32,
        parameters: u32,
        contracts: u32,
    },
    Parameter {
        declared: u32,
        name: Name,
    },
    Constructor {
        parameters: u32,
        super_call: u32,
        body: u32,
    },
    Requires {
        condition: u32,
    },
    Ensures {
        condition: u32,
    },
    /// A parameter, or a type alone.
    Signals {
        declared: u32,
        condition: u32,
    },
}

/// A node, its place in the source, and which part of which node it is.
#[derive(Clone, Copy)]
pub struct Entry {
    pub place: Place,
    pub node: Node,
    pub parent: u32,
    pub position: u8,
}
