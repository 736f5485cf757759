// Notes of statements, and of `\result`.
ghost use Rattle.kr_types.specs.Sites.{IsContext, IsNoted};
ghost use Rattle.kr_types.specs.Kinds.{IsPlain, IsTest, IsReturned};

use crate::context::Context;
use kr_ast::Node;
use kr_types_judging::{ClassTypes, Note, plain};
use kr_types_statements::{
    for_note, if_else_note, if_then_note, one_part_note, result_note, return_note,
    three_parts_note, two_parts_note,
};

/// The note of a node without a rule of its own.
pub(crate) fn plain_note(context: &Context<'_, '_>) -> Note
    requires context { IsContext context.now }
    requires kind { IsPlain context.now.spot.node }
    ensures { IsNoted context.now result }
{
    match context.spot.node {
        Node::Block { statements } => {
            let x = context.part(statements);
            one_part_note(x)
        }
        Node::Try { body, catches } => {
            let x = context.part(body);
            let y = context.part(catches);
            two_parts_note(x, y)
        }
        Node::ExpressionStatement { expression } => {
            let x = context.part(expression);
            one_part_note(x)
        }
        Node::Local {
            declared,
            declarators,
        } => {
            let x = context.part(declared);
            let y = context.part(declarators);
            two_parts_note(x, y)
        }
        Node::Field {
            declared,
            declarators,
            ..
        } => {
            let x = context.part(declared);
            let y = context.part(declarators);
            two_parts_note(x, y)
        }
        Node::Method {
            signature,
            body,
            ..
        } => {
            let x = context.part(signature);
            let y = context.part(body);
            two_parts_note(x, y)
        }
        Node::Signature {
            result,
            parameters,
            contracts,
        } => {
            let x = context.part(result);
            let y = context.part(parameters);
            let z = context.part(contracts);
            three_parts_note(x, y, z)
        }
        _ => plain(None),
    }
}

/// The note of a statement with a condition.
pub(crate) fn test_note(context: &Context<'_, '_>) -> Note
    requires context { IsContext context.now }
    requires kind { IsTest context.now.spot.node }
    ensures { IsNoted context.now result }
{
    match context.spot.node {
        Node::IfThen { condition, holds } => {
            let x = context.part(condition);
            let y = context.part(holds);
            if_then_note(context.types, context.spot.place, x, y)
        }
        Node::While { condition, body } => {
            let x = context.part(condition);
            let y = context.part(body);
            if_then_note(context.types, context.spot.place, x, y)
        }
        Node::Do { body, condition } => {
            let x = context.part(condition);
            let y = context.part(body);
            if_then_note(context.types, context.spot.place, x, y)
        }
        Node::IfElse {
            condition,
            holds,
            fails,
        } => {
            let x = context.part(condition);
            let y = context.part(holds);
            let z = context.part(fails);
            if_else_note(context.types, context.spot.place, x, y, z)
        }
        Node::For {
            initial,
            condition,
            updates,
            body,
        } => {
            let x = context.part(initial);
            let y = context.part(condition);
            let z = context.part(updates);
            let w = context.part(body);
            for_note(context.types, context.spot.place, x, y, z, w)
        }
        _ => plain(None),
    }
}

/// The note of `return` or of `\result`.
pub(crate) fn returned_note(context: &Context<'_, '_>) -> Note
    requires context { IsContext context.now }
    requires kind { IsReturned context.now.spot.node }
    ensures { IsNoted context.now result }
{
    let classes = ClassTypes {
        trees: context.site.trees,
        types: context.types,
        members: context.site.members,
        node_types: context.site.numbers,
    };
    match context.spot.node {
        Node::Result => result_note(
            &classes,
            context.site.file,
            context.here(),
            context.spot.place,
        ),
        Node::Return { value } => return_note(
            &classes,
            context.site.file,
            context.here(),
            context.spot.place,
            context.part(value),
        ),
        _ => plain(None),
    }
}
