// The node to be added above some values.
ghost use Rattle.std.specs.Prelude.{◌≡◌, Some, None};
ghost use Rattle.kr_parse_reduction.specs.Plans.{tree, plain, nothing, type_node, jump_node, assignment, types, lists, declarations, loops, branches, catches, contracts, statements, locals, comparisons, infixes, prefixes, creations, selections, plan, variable, call, single, lower, upper, below, staying};

use crate::operators::{
    binary_of, compound_of, primitive_of, step_before_of, step_behind_of, unary_of,
};
use crate::value::{Kept, ValueStack, name_in, nowhere};
use kr_ast::{BinaryOperator, Node};
use kr_base::Place;
use kr_lex::Kind;
use kr_parse_grammar::{Form, Make};

/// A node that replaces some values, with its place and the form of its tree.
#[derive(Clone, Copy)]
pub struct Plan {
    pub taken: usize,
    pub place: Place,
    pub form: Form,
    pub node: Node,
}

pub const fn tree(taken: usize, place: Place, form: Form, node: Node) -> Plan
    ensures { result ≡ tree taken place form node }
{
    Plan {
        taken,
        place,
        form,
        node,
    }
}

const fn plain(taken: usize, place: Place, node: Node) -> Plan
    ensures { result ≡ plain taken place node }
{
    tree(taken, place, Form::Other, node)
}

/// The plan of other productions: the empty list, above no values.
const fn nothing() -> Plan
    ensures { result ≡ nothing }
{
    plain(0, nowhere(), Node::Nil)
}

/// A name as a type.
pub fn type_node(value: Option<Kept>) -> Node
    ensures { result ≡ type_node value }
{
    match value {
        Some(Kept::Pair { outer, name, .. }) => Node::QualifiedType { outer, name },
        _ => Node::NamedType {
            name: name_in(value),
        },
    }
}

fn jump_node(kind: Kind) -> Node
    ensures { result ≡ jump_node kind }
{
    match kind {
        Kind::Break => Node::Break,
        _ => Node::Continue,
    }
}

fn assignment(kind: Kind, target: u32, value: u32) -> Node
    ensures { result ≡ assignment kind target value }
{
    match kind {
        Kind::Equal => Node::Assignment { target, value },
        _ => Node::CompoundAssignment {
            operator: compound_of(kind),
            target,
            value,
        },
    }
}

/// Types.
fn types(make: Make, values: &ValueStack) -> Plan
    ensures { result ≡ types make values.now }
{
    match make {
        Make::TypeOfMark => tree(
            1,
            values.place(0),
            Form::Type,
            Node::PrimitiveType {
                primitive: primitive_of(values.kind(0)),
            },
        ),
        Make::TypeOfName => tree(1, values.place(0), Form::Type, type_node(values.peek(0))),
        Make::Array => tree(
            1,
            values.place(0),
            Form::Type,
            Node::ArrayType {
                element: values.node(0),
            },
        ),
        _ => nothing(),
    }
}

/// Field accesses, array accesses and calls.
fn selections(make: Make, values: &ValueStack) -> Plan
    ensures { result ≡ selections make values.now }
{
    match make {
        Make::FieldAccess => tree(
            2,
            values.place(1),
            Form::Target,
            Node::FieldAccess {
                object: values.node(1),
                name: values.name(0),
            },
        ),
        Make::MethodCall => tree(
            3,
            values.place(2),
            Form::Invocation,
            Node::MethodCall {
                object: values.node(2),
                name: values.name(1),
                arguments: values.node(0),
            },
        ),
        Make::ArrayAccess => tree(
            2,
            values.place(1),
            Form::Target,
            Node::ArrayAccess {
                array: values.node(1),
                index: values.node(0),
            },
        ),
        _ => nothing(),
    }
}

/// Creations, and calls of the superclass.
fn creations(make: Make, values: &ValueStack) -> Plan
    ensures { result ≡ creations make values.now }
{
    match make {
        Make::ObjectCreation => tree(
            3,
            values.place(2),
            Form::Invocation,
            Node::ObjectCreation {
                class: values.node(1),
                arguments: values.node(0),
            },
        ),
        Make::ArrayCreation => tree(
            3,
            values.place(2),
            Form::ArrayCreation,
            Node::ArrayCreation {
                element: values.node(1),
                length: values.node(0),
            },
        ),
        Make::SuperCall => tree(
            3,
            values.place(2),
            Form::Invocation,
            Node::SuperCall {
                name: values.name(1),
                arguments: values.node(0),
            },
        ),
        _ => nothing(),
    }
}

/// Operations on one operand.
fn prefixes(make: Make, values: &ValueStack) -> Plan
    ensures { result ≡ prefixes make values.now }
{
    match make {
        Make::StepBehind => plain(
            2,
            values.place(1),
            Node::Step {
                operator: step_behind_of(values.kind(0)),
                target: values.node(1),
            },
        ),
        Make::StepBefore => plain(
            2,
            values.place(1),
            Node::Step {
                operator: step_before_of(values.kind(1)),
                target: values.node(0),
            },
        ),
        Make::Unary => plain(
            2,
            values.place(1),
            Node::Unary {
                operator: unary_of(values.kind(1)),
                operand: values.node(0),
            },
        ),
        Make::Cast => plain(
            3,
            values.place(2),
            Node::Cast {
                target: values.node(1),
                operand: values.node(0),
            },
        ),
        _ => nothing(),
    }
}

/// Operations with an operator between operands.
fn infixes(make: Make, values: &ValueStack) -> Plan
    ensures { result ≡ infixes make values.now }
{
    match make {
        Make::Binary => plain(
            3,
            values.place(2),
            Node::Binary {
                operator: binary_of(values.kind(1)),
                left: values.node(2),
                right: values.node(0),
            },
        ),
        Make::Conditional => plain(
            3,
            values.place(2),
            Node::Conditional {
                condition: values.node(2),
                holds: values.node(1),
                fails: values.node(0),
            },
        ),
        Make::Assign => plain(
            3,
            values.place(2),
            assignment(values.kind(1), values.node(2), values.node(0)),
        ),
        _ => nothing(),
    }
}

/// Comparisons of two values.
fn comparisons(make: Make, values: &ValueStack) -> Plan
    ensures { result ≡ comparisons make values.now }
{
    match make {
        Make::Less => plain(
            2,
            values.place(1),
            Node::Binary {
                operator: BinaryOperator::Less,
                left: values.node(1),
                right: values.node(0),
            },
        ),
        Make::Greater => plain(
            2,
            values.place(1),
            Node::Binary {
                operator: BinaryOperator::Greater,
                left: values.node(1),
                right: values.node(0),
            },
        ),
        Make::InstanceOf => plain(
            2,
            values.place(1),
            Node::InstanceOf {
                operand: values.node(1),
                tested: values.node(0),
            },
        ),
        _ => nothing(),
    }
}

/// Locals, and expressions as statements.
fn locals(make: Make, values: &ValueStack) -> Plan
    ensures { result ≡ locals make values.now }
{
    match make {
        Make::Declarator => plain(
            2,
            values.place(1),
            Node::Declarator {
                name: values.name(1),
                initial: values.node(0),
            },
        ),
        Make::Local => tree(
            2,
            values.place(1),
            Form::Local,
            Node::Local {
                declared: values.node(1),
                declarators: values.node(0),
            },
        ),
        Make::ExpressionStatement => plain(
            1,
            values.place(0),
            Node::ExpressionStatement {
                expression: values.node(0),
            },
        ),
        _ => nothing(),
    }
}

/// Statements with no statement in them but in blocks.
fn statements(make: Make, values: &ValueStack) -> Plan
    ensures { result ≡ statements make values.now }
{
    match make {
        Make::Block => plain(
            2,
            values.place(1),
            Node::Block {
                statements: values.node(0),
            },
        ),
        Make::Return => plain(
            2,
            values.place(1),
            Node::Return {
                value: values.node(0),
            },
        ),
        Make::Throw => plain(
            2,
            values.place(1),
            Node::Throw {
                thrown: values.node(0),
            },
        ),
        Make::ConstructorCall => plain(
            2,
            values.place(1),
            Node::ConstructorCall {
                arguments: values.node(0),
            },
        ),
        Make::Empty => plain(1, values.place(0), Node::Empty),
        Make::Jump => plain(1, values.place(0), jump_node(values.kind(0))),
        _ => nothing(),
    }
}

/// `try` and `catch`.
fn catches(make: Make, values: &ValueStack) -> Plan
    ensures { result ≡ catches make values.now }
{
    match make {
        Make::Try => plain(
            3,
            values.place(2),
            Node::Try {
                body: values.node(1),
                catches: values.node(0),
            },
        ),
        Make::Catch => plain(
            3,
            values.place(2),
            Node::Catch {
                declared: values.node(1),
                body: values.node(0),
            },
        ),
        _ => nothing(),
    }
}

/// Statements that branch.
fn branches(make: Make, values: &ValueStack) -> Plan
    ensures { result ≡ branches make values.now }
{
    match make {
        Make::IfThen => plain(
            3,
            values.place(2),
            Node::IfThen {
                condition: values.node(1),
                holds: values.node(0),
            },
        ),
        Make::IfElse => plain(
            4,
            values.place(3),
            Node::IfElse {
                condition: values.node(2),
                holds: values.node(1),
                fails: values.node(0),
            },
        ),
        _ => nothing(),
    }
}

/// Loops.
fn loops(make: Make, values: &ValueStack) -> Plan
    ensures { result ≡ loops make values.now }
{
    match make {
        Make::While => plain(
            3,
            values.place(2),
            Node::While {
                condition: values.node(1),
                body: values.node(0),
            },
        ),
        Make::Do => plain(
            3,
            values.place(2),
            Node::Do {
                body: values.node(1),
                condition: values.node(0),
            },
        ),
        Make::For => plain(
            5,
            values.place(4),
            Node::For {
                initial: values.node(3),
                condition: values.node(2),
                updates: values.node(1),
                body: values.node(0),
            },
        ),
        _ => nothing(),
    }
}

/// Declarations.
fn declarations(make: Make, values: &ValueStack) -> Plan
    ensures { result ≡ declarations make values.now }
{
    match make {
        Make::Parameter => plain(
            2,
            values.place(0),
            Node::Parameter {
                declared: values.node(1),
                name: values.name(0),
            },
        ),
        Make::Field => plain(
            3,
            values.place(1),
            Node::Field {
                is_static: values.modifiers(2).is_static,
                is_final: values.modifiers(2).is_final,
                declared: values.node(1),
                declarators: values.node(0),
            },
        ),
        Make::Constructor => plain(
            5,
            values.place(3),
            Node::Constructor {
                parameters: values.node(2),
                super_call: values.node(1),
                body: values.node(0),
            },
        ),
        Make::Class => plain(
            3,
            values.place(0),
            Node::Class {
                name: values.name(0),
                extended: values.node(2),
                members: values.node(1),
            },
        ),
        _ => nothing(),
    }
}

/// Contracts, and the expressions that only contracts have.
fn contracts(make: Make, values: &ValueStack) -> Plan
    ensures { result ≡ contracts make values.now }
{
    match make {
        Make::Old => plain(
            2,
            values.place(1),
            Node::Old {
                operand: values.node(0),
            },
        ),
        Make::Requires => plain(
            2,
            values.place(1),
            Node::Requires {
                condition: values.node(0),
            },
        ),
        Make::Ensures => plain(
            2,
            values.place(1),
            Node::Ensures {
                condition: values.node(0),
            },
        ),
        Make::Signals => plain(
            3,
            values.place(2),
            Node::Signals {
                declared: values.node(1),
                condition: values.node(0),
            },
        ),
        _ => nothing(),
    }
}

/// Lists, and absent parts.
fn lists(make: Make, values: &ValueStack) -> Plan
    ensures { result ≡ lists make values.now }
{
    match make {
        Make::Cons => plain(
            2,
            values.place(1),
            Node::Cons {
                first: values.node(1),
                rest: values.node(0),
            },
        ),
        Make::Nil => nothing(),
        _ => nothing(),
    }
}

/// One node above the values.
pub fn plan_of(make: Make, values: &ValueStack) -> Plan
    ensures { result ≡ plan make values.now }
{
    match make {
        Make::TypeOfMark | Make::TypeOfName | Make::Array => types(make, values),
        Make::FieldAccess | Make::MethodCall | Make::ArrayAccess => selections(make, values),
        Make::ObjectCreation | Make::ArrayCreation | Make::SuperCall => creations(make, values),
        Make::StepBehind | Make::StepBefore | Make::Unary | Make::Cast => prefixes(make, values),
        Make::Binary | Make::Conditional | Make::Assign => infixes(make, values),
        Make::Less | Make::Greater | Make::InstanceOf => comparisons(make, values),
        Make::Declarator | Make::Local | Make::ExpressionStatement => locals(make, values),
        Make::Block
        | Make::Return
        | Make::Throw
        | Make::ConstructorCall
        | Make::Empty
        | Make::Jump => statements(make, values),
        Make::Try | Make::Catch => catches(make, values),
        Make::IfThen | Make::IfElse => branches(make, values),
        Make::While | Make::Do | Make::For => loops(make, values),
        Make::Parameter | Make::Field | Make::Constructor | Make::Class => declarations(
            make, values,
        ),
        Make::Old | Make::Requires | Make::Ensures | Make::Signals => contracts(make, values),
        Make::Cons | Make::Nil => lists(make, values),
        _ => nothing(),
    }
}

/// A name as an expression, where that is one node.
fn variable(value: Option<Kept>) -> Option<Plan>
    ensures { result ≡ variable value }
{
    match value {
        Some(Kept::Word { place, name }) => {
            Some(tree(1, place, Form::Target, Node::Variable { name }))
        }
        _ => None,
    }
}

fn call(value: Option<Kept>, arguments: u32) -> Option<Plan>
    ensures { result ≡ call value arguments }
{
    match value {
        Some(Kept::Word { place, name }) => {
            Some(tree(2, place, Form::Invocation, Node::Call { name, arguments }))
        }
        _ => None,
    }
}

/// The only node of a name, where it is one word.
pub fn single(make: Make, values: &ValueStack) -> Option<Plan>
    ensures { result ≡ single make values.now }
{
    match make {
        Make::Variable => variable(values.peek(0)),
        Make::CallOfName => call(values.peek(1), values.node(0)),
        _ => None,
    }
}

/// The lower one of a name's two nodes.
pub fn lower(make: Make, values: &ValueStack) -> Plan
    ensures { result ≡ lower make values.now }
{
    match make {
        Make::Generic => tree(0, values.place(1), Form::Type, type_node(values.peek(1))),
        Make::Diamond => tree(0, values.place(0), Form::Type, type_node(values.peek(0))),
        Make::CallOfName => plain(
            0,
            values.place(1),
            Node::Variable {
                name: values.outer(1),
            },
        ),
        Make::Variable => plain(
            0,
            values.place(0),
            Node::Variable {
                name: values.outer(0),
            },
        ),
        _ => nothing(),
    }
}

/// The upper one of a name's two nodes.
pub fn upper(make: Make, values: &ValueStack) -> Plan
    ensures { result ≡ upper make values.now }
{
    match make {
        Make::Generic => tree(
            3,
            values.place(2),
            Form::Type,
            Node::GenericType {
                head: values.node(0),
                argument: values.node(1),
            },
        ),
        Make::Diamond => tree(
            2,
            values.place(1),
            Form::Type,
            Node::DiamondType {
                head: values.node(0),
            },
        ),
        Make::CallOfName => tree(
            3,
            values.place(2),
            Form::Invocation,
            Node::MethodCall {
                object: values.node(0),
                name: values.name(2),
                arguments: values.node(1),
            },
        ),
        Make::Variable => tree(
            2,
            values.place(1),
            Form::Target,
            Node::FieldAccess {
                object: values.node(0),
                name: values.name(1),
            },
        ),
        _ => nothing(),
    }
}

/// The list below a value that stays on top.
pub fn below(make: Make, values: &ValueStack) -> Plan
    ensures { result ≡ below make values.now }
{
    match make {
        Make::ConsBelow => plain(
            3,
            values.place(2),
            Node::Cons {
                first: values.node(2),
                rest: values.node(1),
            },
        ),
        Make::EndMembers => plain(2, nowhere(), Node::Nil),
        _ => nothing(),
    }
}

/// The depth of the value that stays.
pub fn staying(make: Make) -> usize
    ensures { result ≡ staying make }
{
    match make {
        Make::ConsBelow => 0,
        Make::EndMembers => 1,
        _ => 0,
    }
}
