// Nodes as expressions.
ghost use Rattle.std.specs.Prelude.{◌≡◌, ◌<◌, ◌^◌, pos, All, IfOk, length};
ghost use Rattle.kr_code_lowering.specs.Kinds.{is_operator};
ghost use Rattle.kr_code_lowering.specs.Vocabulary.{Bits32, Bits64, count, Int, IsGrown, IsProgram, Literal, wrap};
ghost use Rattle.kr_code_lowering.specs.Numbered.{AreNumbers};
ghost use Rattle.kr_code_lowering.specs.Sites.{IsSite, Resolves};

use crate::access::{access_expression, name_expression};
use crate::calls::{call_expression, super_call_expression};
use crate::coding::is_no_expression;
use crate::links::Links;
use crate::methods::{creation_expression, method_call_expression};
use crate::names::Names;
use crate::numbering::NodeNumbers;
use crate::operators::{binary_expression, operator_expression, unary_expression};
use crate::site::Site;
use crate::types::{array_expression, cast_expression, instance_expression};
use crate::writes::{assignment_expression, compound_expression, step_expression};
use kr_ast::Node;
use kr_base::NoMemory;
use kr_classes_table::TypeId;
use kr_code::Expression;
use kr_types::Program;
use kr_value::Value;
use std::alloc::Global;

/// The value of an int's literal, which wraps (2147483648 occurs under a unary minus alone).
fn int_literal(value: u32) -> Expression
    ensures { result ≡ Literal (Int (wrap Bits32 (pos value))) }
{
    Expression::Literal(Value::Int(i64::from(value.cast_signed())))
}

/// The value of a long's literal, likewise.
#[tactic(auto, using(crate::proofs::Dispatch::whole_of_64))]
fn long_literal(value: u64) -> Expression
    ensures { result ≡ Literal (Int (wrap Bits64 (pos value))) }
{
    Expression::Literal(Value::Int(value.cast_signed()))
}

/// Whether a node is an operator on values in its own scope.
fn is_operator(node: Node) -> bool
    ensures { result ≡ is_operator node }
{
    match node {
        Node::Truth { .. }
        | Node::Null
        | Node::This
        | Node::ArrayAccess { .. }
        | Node::Conditional { .. }
        | Node::Result => true,
        _ => false,
    }
}

/// A node as an expression; one that is none has no meaning.
pub(crate) fn expression_at(
    alloc: Global,
    program: &Program,
    numbers: &NodeNumbers,
    arrays: &[TypeId],
    names: &mut Names,
    links: &mut Links,
    site: Site,
) -> Result<Expression, NoMemory>
    requires program { IsProgram program.now }
    requires numbers { AreNumbers program.now numbers.now }
    requires arrays { All (λ t. t < count program.now.table.types) arrays.now }
    requires few { length arrays.now < 2 ^ 32 }
    requires site { IsSite program.now site }
    ensures names { IsGrown names.old names.new }
    ensures links { IsGrown links.old links.new }
    ensures resolves { IfOk result (Resolves program.now arrays.now site names.new links.new) }
{
    let entry = site.entry(program);
    if is_no_expression(entry.node) {
        return Ok(Expression::Stuck);
    }
    if is_operator(entry.node) {
        return Ok(operator_expression(program, numbers, site, entry));
    }
    match entry.node {
        Node::Number { value } => Ok(int_literal(value)),
        Node::LongNumber { value } => Ok(long_literal(value)),
        Node::Unary { operator, operand } => {
            Ok(unary_expression(program, numbers, site, entry, operator, operand))
        }
        Node::Binary {
            operator,
            left,
            right,
        } => Ok(binary_expression(program, numbers, site, entry, operator, left, right)),
        Node::Old { .. } => Ok(Expression::Old(entry.place)),
        Node::Variable { name } => { name_expression(alloc, program, names, site, entry, name) }
        Node::FieldAccess { object, name } => {
            access_expression(alloc, program, numbers, names, site, entry, object, name)
        }
        Node::Call { name, arguments } => {
            call_expression(program, numbers, links, site, entry, name, arguments)
        }
        Node::MethodCall {
            object,
            name,
            arguments,
        } => {
            method_call_expression(
                program, numbers, links, site, entry, object, name, arguments,
            )
        }
        Node::SuperCall { name, arguments } => {
            super_call_expression(program, numbers, links, site, entry, name, arguments)
        }
        Node::ObjectCreation { class, arguments } => {
            creation_expression(program, numbers, links, site, entry, class, arguments)
        }
        Node::ArrayCreation { element, length } => {
            Ok(array_expression(program, numbers, arrays, site, entry, element, length))
        }
        Node::InstanceOf { operand, tested } => {
            Ok(instance_expression(program, numbers, site, entry, operand, tested))
        }
        Node::Cast { target, operand } => {
            Ok(cast_expression(program, numbers, site, entry, target, operand))
        }
        Node::Assignment { target, value } => {
            assignment_expression(alloc, program, numbers, names, site, entry, target, value)
        }
        Node::CompoundAssignment {
            operator,
            target,
            value,
        } => compound_expression(
            alloc, program, numbers, names, site, entry, operator, target, value,
        ),
        Node::Step { operator, target } => {
            step_expression(
                alloc, program, numbers, names, site, entry, operator, target,
            )
        }
        _ => Ok(Expression::Stuck),
    }
}
