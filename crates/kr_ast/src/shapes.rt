// The nodes that fit into two words beside their shape, which most do.
ghost use Rattle.std.specs.Prelude.{◌≡◌, IfSome, false};
ghost use Rattle.kr_ast.specs.Entries.{is_long, node_of};

use crate::{BinaryOperator, Name, Node, Primitive, StepOperator, UnaryOperator};

/// The kind of a node, with what it has besides parts and names. `Long` is that of all nodes that don't fit.
#[derive(Clone, Copy)]
pub(crate) enum Shape {
    Nil,
    Cons,
    PrimitiveType(Primitive),
    NamedType,
    GenericType,
    DiamondType,
    ArrayType,
    Number,
    Truth(bool),
    Null,
    This,
    Variable,
    ArrayAccess,
    ObjectCreation,
    ArrayCreation,
    Unary(UnaryOperator),
    Step(StepOperator),
    Binary(BinaryOperator),
    InstanceOf,
    Cast,
    Assignment,
    CompoundAssignment(BinaryOperator),
    Result,
    Old,
    Empty,
    Block,
    Local,
    ExpressionStatement,
    Return,
    Break,
    Continue,
    IfThen,
    While,
    Do,
    Throw,
    Try,
    Catch,
    ConstructorCall,
    Requires,
    Ensures,
    Signals,
    Long,
}

/// Whether it is that of the nodes that don't fit.
#[inline(always)]
pub(crate) fn is_long(shape: Shape) -> bool
    ensures { result ≡ is_long shape }
{
    matches!(shape, Shape::Long)
}

/// A node that fits: its shape, and its parts, its value or the ends of its name.
#[derive(Clone, Copy)]
pub(crate) struct Words {
    pub(crate) shape: Shape,
    pub(crate) first: u32,
    pub(crate) second: u32,
}

/// A node of no words.
#[inline(always)]
fn bare(shape: Shape) -> Words
    ensures { result ≡ record { shape = shape; first = 0; second = 0 } }
{
    Words {
        shape,
        first: 0,
        second: 0,
    }
}

/// A node of one word.
#[inline(always)]
fn single(shape: Shape, first: u32) -> Words
    ensures { result ≡ record { shape = shape; first = first; second = 0 } }
{
    Words {
        shape,
        first,
        second: 0,
    }
}

/// A node of two words.
#[inline(always)]
fn double(shape: Shape, first: u32, second: u32) -> Words
    ensures { result ≡ record { shape = shape; first = first; second = second } }
{
    Words {
        shape,
        first,
        second,
    }
}

/// A node in words, if it fits.
#[inline(always)]
pub(crate) fn words_of(node: Node) -> Option<Words>
    ensures short { IfSome result (λ w. is_long w.shape ≡ false) }
    ensures shown { IfSome result (λ w. node_of w.shape w.first w.second ≡ node) }
{
    match node {
        Node::Nil => Some(bare(Shape::Nil)),
        Node::Cons { first, rest } => Some(double(Shape::Cons, first, rest)),
        Node::PrimitiveType { primitive } => Some(bare(Shape::PrimitiveType(primitive))),
        Node::NamedType { name } => Some(double(Shape::NamedType, name.start, name.end)),
        Node::GenericType { head, argument } => Some(double(Shape::GenericType, head, argument)),
        Node::DiamondType { head } => Some(single(Shape::DiamondType, head)),
        Node::ArrayType { element } => Some(single(Shape::ArrayType, element)),
        Node::Number { value } => Some(single(Shape::Number, value)),
        Node::Truth { value } => Some(bare(Shape::Truth(value))),
        Node::Null => Some(bare(Shape::Null)),
        Node::This => Some(bare(Shape::This)),
        Node::Variable { name } => Some(double(Shape::Variable, name.start, name.end)),
        Node::ArrayAccess { array, index } => Some(double(Shape::ArrayAccess, array, index)),
        Node::ObjectCreation { class, arguments } => Some(double(
            Shape::ObjectCreation,
            class,
            arguments,
        )),
        Node::ArrayCreation { element, length } => Some(double(
            Shape::ArrayCreation,
            element,
            length,
        )),
        Node::Unary { operator, operand } => Some(single(Shape::Unary(operator), operand)),
        Node::Step { operator, target } => Some(single(Shape::Step(operator), target)),
        Node::Binary {
            operator,
            left,
            right,
        } => Some(double(Shape::Binary(operator), left, right)),
        Node::InstanceOf { operand, tested } => Some(double(Shape::InstanceOf, operand, tested)),
        Node::Cast { target, operand } => Some(double(Shape::Cast, target, operand)),
        Node::Assignment { target, value } => Some(double(Shape::Assignment, target, value)),
        Node::CompoundAssignment {
            operator,
            target,
            value,
        } => Some(double(Shape::CompoundAssignment(operator), target, value)),
        Node::Result => Some(bare(Shape::Result)),
        Node::Old { operand } => Some(single(Shape::Old, operand)),
        Node::Empty => Some(bare(Shape::Empty)),
        Node::Block { statements } => Some(single(Shape::Block, statements)),
        Node::Local {
            declared,
            declarators,
        } => Some(double(Shape::Local, declared, declarators)),
        Node::ExpressionStatement { expression } => Some(single(
            Shape::ExpressionStatement,
            expression,
        )),
        Node::Return { value } => Some(single(Shape::Return, value)),
        Node::Break => Some(bare(Shape::Break)),
        Node::Continue => Some(bare(Shape::Continue)),
        Node::IfThen { condition, holds } => Some(double(Shape::IfThen, condition, holds)),
        Node::While { condition, body } => Some(double(Shape::While, condition, body)),
        Node::Do { body, condition } => Some(double(Shape::Do, body, condition)),
        Node::Throw { thrown } => Some(single(Shape::Throw, thrown)),
        Node::Try { body, catches } => Some(double(Shape::Try, body, catches)),
        Node::Catch { declared, body } => Some(double(Shape::Catch, declared, body)),
        Node::ConstructorCall { arguments } => Some(single(Shape::ConstructorCall, arguments)),
        Node::Requires { condition } => Some(single(Shape::Requires, condition)),
        Node::Ensures { condition } => Some(single(Shape::Ensures, condition)),
        Node::Signals {
            declared,
            condition,
        } => Some(double(Shape::Signals, declared, condition)),
        _ => None,
    }
}

/// The node that has these words. `Nil` where they are no node's.
#[inline(always)]
pub(crate) fn node_of(shape: Shape, first: u32, second: u32) -> Node
    ensures { result ≡ node_of shape first second }
{
    match shape {
        Shape::Nil => Node::Nil,
        Shape::Cons => Node::Cons {
            first: first,
            rest: second,
        },
        Shape::PrimitiveType(primitive) => Node::PrimitiveType { primitive },
        Shape::NamedType => Node::NamedType {
            name: Name {
                start: first,
                end: second,
            },
        },
        Shape::GenericType => Node::GenericType {
            head: first,
            argument: second,
        },
        Shape::DiamondType => Node::DiamondType { head: first },
        Shape::ArrayType => Node::ArrayType { element: first },
        Shape::Number => Node::Number { value: first },
        Shape::Truth(value) => Node::Truth { value },
        Shape::Null => Node::Null,
        Shape::This => Node::This,
        Shape::Variable => Node::Variable {
            name: Name {
                start: first,
                end: second,
            },
        },
        Shape::ArrayAccess => Node::ArrayAccess {
            array: first,
            index: second,
        },
        Shape::ObjectCreation => Node::ObjectCreation {
            class: first,
            arguments: second,
        },
        Shape::ArrayCreation => Node::ArrayCreation {
            element: first,
            length: second,
        },
        Shape::Unary(operator) => Node::Unary {
            operator,
            operand: first,
        },
        Shape::Step(operator) => Node::Step {
            operator,
            target: first,
        },
        Shape::Binary(operator) => Node::Binary {
            operator,
            left: first,
            right: second,
        },
        Shape::InstanceOf => Node::InstanceOf {
            operand: first,
            tested: second,
        },
        Shape::Cast => Node::Cast {
            target: first,
            operand: second,
        },
        Shape::Assignment => Node::Assignment {
            target: first,
            value: second,
        },
        Shape::CompoundAssignment(operator) => Node::CompoundAssignment {
            operator,
            target: first,
            value: second,
        },
        Shape::Result => Node::Result,
        Shape::Old => Node::Old { operand: first },
        Shape::Empty => Node::Empty,
        Shape::Block => Node::Block { statements: first },
        Shape::Local => Node::Local {
            declared: first,
            declarators: second,
        },
        Shape::ExpressionStatement => Node::ExpressionStatement { expression: first },
        Shape::Return => Node::Return { value: first },
        Shape::Break => Node::Break,
        Shape::Continue => Node::Continue,
        Shape::IfThen => Node::IfThen {
            condition: first,
            holds: second,
        },
        Shape::While => Node::While {
            condition: first,
            body: second,
        },
        Shape::Do => Node::Do {
            body: first,
            condition: second,
        },
        Shape::Throw => Node::Throw { thrown: first },
        Shape::Try => Node::Try {
            body: first,
            catches: second,
        },
        Shape::Catch => Node::Catch {
            declared: first,
            body: second,
        },
        Shape::ConstructorCall => Node::ConstructorCall { arguments: first },
        Shape::Requires => Node::Requires { condition: first },
        Shape::Ensures => Node::Ensures { condition: first },
        Shape::Signals => Node::Signals {
            declared: first,
            condition: second,
        },
        Shape::Long => Node::Nil,
    }
}
