// Expressions whose parts are values in one scope: literals, operators, elements of arrays.
ghost use Rattle.std.specs.Prelude.{◌≡◌, List, ℕ};
ghost use Rattle.kr_ast.specs.declared.node.Node.TheVariants as nodes;
ghost use Rattle.kr_types.specs.Programs.{IsProgram};
ghost use Rattle.kr_code_lowering.specs.Kinds.{IsOperation, IsBinary};
ghost use Rattle.kr_code_lowering.specs.Numbered.{AreNumbers};
ghost use Rattle.kr_code_lowering.specs.Sites.{IsHere, Resolves, number_at};

use crate::known::width_of;
use crate::numbering::NodeNumbers;
use crate::site::Site;
use kr_ast::{BinaryOperator, Entry, Node, UnaryOperator};
use kr_classes_operators::operator_width;
use kr_code::Expression;
use kr_mean::{BinaryOperation, UnaryOperation};
use kr_types::Program;
use kr_value::{Value, Width};

/// The expression of an operator of a width between two operands: `&&` and `||` may leave the second out.
#[tactic(auto, using(crate::proofs::Dispatch::binary_forms))]
fn binary(operator: BinaryOperator, width: Width, left: u32, right: u32) -> Expression
    ensures { IsBinary operator width left right result }
{
    match operator {
        BinaryOperator::And => Expression::And { left, right },
        BinaryOperator::Or => Expression::Or { left, right },
        _ => Expression::Binary {
            operation: BinaryOperation {
                operator,
                width,
                assigned: None,
            },
            left,
            right,
        },
    }
}

/// An operator between two operands as an expression: it works at the width of their types.
pub(crate) fn binary_expression(
    program: &Program,
    numbers: &NodeNumbers,
    site: Site,
    entry: Entry,
    operator: BinaryOperator,
    left: u32,
    right: u32,
) -> Expression
    requires program { IsProgram program.now }
    requires numbers { AreNumbers program.now numbers.now }
    requires here { IsHere program.now site entry }
    requires node { entry.node ≡ nodes.Binary operator left right }
    ensures { (arrays links : List ℕ) (names : List (List ℕ)) → Resolves program.now arrays site names links result }
{
    let first = width_of(program, site.at(left));
    let second = width_of(program, site.at(right));
    let width = operator_width(operator, first, second);
    binary(
        operator,
        width,
        site.code_number(program, numbers, left),
        site.code_number(program, numbers, right),
    )
}

/// An operator on one operand as an expression: it works at the width of its type.
pub(crate) fn unary_expression(
    program: &Program,
    numbers: &NodeNumbers,
    site: Site,
    entry: Entry,
    operator: UnaryOperator,
    operand: u32,
) -> Expression
    requires program { IsProgram program.now }
    requires numbers { AreNumbers program.now numbers.now }
    requires here { IsHere program.now site entry }
    requires node { entry.node ≡ nodes.Unary operator operand }
    ensures { (arrays links : List ℕ) (names : List (List ℕ)) → Resolves program.now arrays site names links result }
{
    let width = width_of(program, site.at(operand));
    Expression::Unary {
        operation: UnaryOperation { operator, width },
        operand: site.code_number(program, numbers, operand),
    }
}

/// The expression of another node of values.
#[tactic(auto, using(crate::proofs::Dispatch::operator_forms))]
pub(crate) fn operator_expression(
    program: &Program,
    numbers: &NodeNumbers,
    site: Site,
    entry: Entry,
) -> Expression
    requires { AreNumbers program.now numbers.now }
    ensures { IsOperation (number_at program.now site) entry.place entry.node result }
{
    match entry.node {
        Node::Truth { value } => Expression::Literal(Value::Bool(value)),
        Node::Null => Expression::Literal(Value::Null),
        Node::This => Expression::This,
        Node::ArrayAccess { array, index } => Expression::Element {
            array: site.code_number(program, numbers, array),
            index: site.code_number(program, numbers, index),
        },
        Node::Conditional {
            condition,
            holds,
            fails,
        } => Expression::Conditional {
            condition: site.code_number(program, numbers, condition),
            then: site.code_number(program, numbers, holds),
            otherwise: site.code_number(program, numbers, fails),
        },
        Node::Result => Expression::Result,
        _ => Expression::Stuck,
    }
}
