// The parts and the names of a node as lists, for code that treats all kinds of nodes alike.
ghost use Rattle.std.specs.Prelude.{◌≡◌, ◌≤◌, ℕ, List, length, take};
ghost use Rattle.kr_ast.specs.Arena.{parts, names};

use crate::{Name, Node};
use std::marker::Model;

/// The indices of a node's parts, in order: at most four.
#[derive(Drop)]
pub struct Parts {
    items: [u32; 4],
    count: usize,
}

impl Model for Parts {
    ghost Value = { List ℕ };

    ghost view = { λ p. take p.count p.items };

    ghost invariant = { λ p. p.count ≤ 4 };
}

impl Parts {
    /// The first of four.
    #[inline(always)]
    fn of(items: [u32; 4], count: usize) -> Parts
        requires { count ≤ 4 }
        ensures { result ≡ take count items }
    {
        Parts { items, count }
    }

    #[inline(always)]
    pub fn as_slice(&self) -> &[u32]
        ensures all { result.now ≡ self.now }
        ensures few { length result.now ≤ 4 }
    {
        &self.items[..self.count]
    }
}

/// The names in a node, in order: at most two.
#[derive(Drop)]
pub struct Names {
    items: [Name; 2],
    count: usize,
}

impl Model for Names {
    ghost use Rattle.std.specs.Prelude.{List, take, ◌≤◌};
    ghost use Rattle.kr_ast.specs.declared.node.Name.{Name};

    ghost Value = { List Name };

    ghost view = { λ n. take n.count n.items };

    ghost invariant = { λ n. n.count ≤ 2 };
}

impl Names {
    /// The first of two.
    fn of(items: [Name; 2], count: usize) -> Names
        requires { count ≤ 2 }
        ensures { result ≡ take count items }
    {
        Names { items, count }
    }

    pub fn as_slice(&self) -> &[Name]
        ensures all { result.now ≡ self.now }
        ensures few { length result.now ≤ 2 }
    {
        &self.items[..self.count]
    }
}

/// The name in the place of an absent one.
const fn no_name() -> Name {
    Name { start: 0, end: 0 }
}

/// The indices of a node's parts, in order.
#[inline(always)]
pub(crate) fn parts_of(node: &Node) -> Parts
    ensures { result ≡ parts node.now }
{
    match *node {
        Node::Nil
        | Node::PrimitiveType { .. }
        | Node::NamedType { .. }
        | Node::QualifiedType { .. }
        | Node::Number { .. }
        | Node::LongNumber { .. }
        | Node::Truth { .. }
        | Node::Null
        | Node::This
        | Node::Variable { .. }
        | Node::Result
        | Node::Empty
        | Node::Break
        | Node::Continue => Parts::of([0; 4], 0),
        Node::DiamondType { head: a }
        | Node::ArrayType { element: a }
        | Node::FieldAccess { object: a, .. }
        | Node::Call { arguments: a, .. }
        | Node::SuperCall { arguments: a, .. }
        | Node::Unary { operand: a, .. }
        | Node::Step { target: a, .. }
        | Node::Old { operand: a }
        | Node::Block { statements: a }
        | Node::Declarator { initial: a, .. }
        | Node::ExpressionStatement { expression: a }
        | Node::Return { value: a }
        | Node::Throw { thrown: a }
        | Node::ConstructorCall { arguments: a }
        | Node::Parameter { declared: a, .. }
        | Node::Requires { condition: a }
        | Node::Ensures { condition: a } => Parts::of([a, 0, 0, 0], 1),
        Node::Cons { first: a, rest: b }
        | Node::GenericType {
            head: a,
            argument: b,
        }
        | Node::ArrayAccess { array: a, index: b }
        | Node::MethodCall {
            object: a,
            arguments: b,
            ..
        }
        | Node::ObjectCreation {
            class: a,
            arguments: b,
        }
        | Node::ArrayCreation {
            element: a,
            length: b,
        }
        | Node::Binary {
            left: a,
            right: b,
            ..
        }
        | Node::InstanceOf {
            operand: a,
            tested: b,
        }
        | Node::Cast {
            target: a,
            operand: b,
        }
        | Node::Assignment {
            target: a,
            value: b,
        }
        | Node::CompoundAssignment {
            target: a,
            value: b,
            ..
        }
        | Node::Local {
            declared: a,
            declarators: b,
        }
        | Node::IfThen {
            condition: a,
            holds: b,
        }
        | Node::While {
            condition: a,
            body: b,
        }
        | Node::Do {
            body: a,
            condition: b,
        }
        | Node::Try {
            body: a,
            catches: b,
        }
        | Node::Catch {
            declared: a,
            body: b,
        }
        | Node::Signals {
            declared: a,
            condition: b,
        }
        | Node::Class {
            extended: a,
            members: b,
            ..
        }
        | Node::Field {
            declared: a,
            declarators: b,
            ..
        }
        | Node::Method {
            signature: a,
            body: b,
            ..
        } => Parts::of([a, b, 0, 0], 2),
        Node::Conditional {
            condition: a,
            holds: b,
            fails: c,
        }
        | Node::IfElse {
            condition: a,
            holds: b,
            fails: c,
        }
        | Node::Signature {
            result: a,
            parameters: b,
            contracts: c,
        }
        | Node::Constructor {
            parameters: a,
            super_call: b,
            body: c,
        } => Parts::of([a, b, c, 0], 3),
        Node::For {
            initial: a,
            condition: b,
            updates: c,
            body: d,
        } => Parts::of([a, b, c, d], 4),
    }
}

impl Node {
    /// The indices of its parts, in order.
    #[inline(always)]
    pub fn parts(&self) -> Parts
        ensures { result ≡ parts self.now }
    {
        parts_of(self)
    }

    pub fn names(&self) -> Names
        ensures { result ≡ names self.now }
    {
        match *self {
            Node::QualifiedType { outer: a, name: b } => Names::of([a, b], 2),
            Node::NamedType { name: a }
            | Node::Variable { name: a }
            | Node::FieldAccess { name: a, .. }
            | Node::Call { name: a, .. }
            | Node::MethodCall { name: a, .. }
            | Node::SuperCall { name: a, .. }
            | Node::Declarator { name: a, .. }
            | Node::Class { name: a, .. }
            | Node::Method { name: a, .. }
            | Node::Parameter { name: a, .. } => Names::of([a, no_name()], 1),
            _ => Names::of([no_name(), no_name()], 0),
        }
    }
}
