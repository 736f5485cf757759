// Notes of expressions for which nothing is looked up.
ghost use Rattle.kr_types.specs.Sites.{IsContext, IsNoted};
ghost use Rattle.kr_types.specs.Kinds.{IsLeaf, IsOperation, IsWrite};

use crate::context::Context;
use kr_ast::Node;
use kr_types_expressions::{
    binary_note, cast_note, choice_note, element_note, instance_note, jump_note, long_number_note,
    null_note, number_note, truth_note, unary_note,
};
use kr_types_judging::{Note, plain};
use kr_types_statements::{assignment_note, compound_note, step_note};

/// The note of a node without parts.
pub(crate) fn leaf_note(context: &Context<'_, '_>) -> Note
    requires context { IsContext context.now }
    requires kind { IsLeaf context.now.spot.node }
    ensures { IsNoted context.now result }
{
    match context.spot.node {
        Node::Number { value } => number_note(
            context.types,
            context.site.members,
            context.here(),
            context.spot.place,
            value,
        ),
        Node::LongNumber { value } => long_number_note(
            context.types,
            context.site.members,
            context.here(),
            context.spot.place,
            value,
        ),
        Node::Truth { .. } => truth_note(context.types, context.spot.place),
        Node::Null => null_note(context.types, context.spot.place),
        Node::Break => jump_note(
            context.types,
            context.site.members,
            context.here(),
            context.spot.place,
        ),
        Node::Continue => jump_note(
            context.types,
            context.site.members,
            context.here(),
            context.spot.place,
        ),
        Node::Empty => plain(None),
        _ => plain(None),
    }
}

/// The note of a node that makes a value from those of its parts.
pub(crate) fn operation_note(context: &Context<'_, '_>) -> Note
    requires context { IsContext context.now }
    requires kind { IsOperation context.now.spot.node }
    ensures { IsNoted context.now result }
{
    match context.spot.node {
        Node::Unary { operator, operand } => {
            let x = context.part(operand);
            unary_note(context.types, context.spot.place, operator, x)
        }
        Node::Binary {
            operator,
            left,
            right,
        } => {
            let x = context.part(left);
            let y = context.part(right);
            binary_note(
                context.types,
                context.site.members,
                context.here(),
                context.spot.place,
                operator,
                x,
                y,
            )
        }
        Node::InstanceOf { operand, tested } => {
            let x = context.part(operand);
            let y = context.part(tested);
            instance_note(
                context.types,
                context.site.members,
                context.here(),
                context.spot.place,
                x,
                y,
            )
        }
        Node::Cast { target, operand } => {
            let x = context.part(target);
            let y = context.part(operand);
            cast_note(
                context.types,
                context.site.members,
                context.here(),
                context.spot.place,
                x,
                y,
            )
        }
        Node::Conditional {
            condition,
            holds,
            fails,
        } => {
            let x = context.part(condition);
            let y = context.part(holds);
            let z = context.part(fails);
            choice_note(
                context.types,
                context.site.members,
                context.here(),
                context.spot.place,
                x,
                y,
                z,
            )
        }
        Node::ArrayAccess { array, index } => {
            let x = context.part(array);
            let y = context.part(index);
            element_note(context.types, context.spot.place, x, y)
        }
        _ => plain(None),
    }
}

/// The note of a node that assigns.
pub(crate) fn write_note(context: &Context<'_, '_>) -> Note
    requires context { IsContext context.now }
    requires kind { IsWrite context.now.spot.node }
    ensures { IsNoted context.now result }
{
    match context.spot.node {
        Node::Step { target, .. } => {
            let x = context.part(target);
            step_note(
                context.types,
                context.site.members,
                context.here(),
                context.spot.place,
                x,
            )
        }
        Node::Assignment { target, value } => {
            let x = context.part(target);
            let y = context.part(value);
            assignment_note(
                context.types,
                context.site.members,
                context.here(),
                context.spot.place,
                x,
                y,
            )
        }
        Node::CompoundAssignment {
            operator,
            target,
            value,
        } => {
            let x = context.part(target);
            let y = context.part(value);
            compound_note(
                context.types,
                context.site.members,
                context.here(),
                context.spot.place,
                operator,
                x,
                y,
            )
        }
        _ => plain(None),
    }
}
