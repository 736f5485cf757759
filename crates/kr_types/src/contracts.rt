// Notes of contracts.
ghost use Rattle.kr_types.specs.Sites.{IsContext, IsNoted};
ghost use Rattle.kr_types.specs.Kinds.{IsContract};

use crate::context::Context;
use kr_ast::Node;
use kr_types_expressions::{contract_note, old_note};
use kr_types_judging::{Note, plain};

/// The note of a line of a contract, or of `\old(..)`.
pub(crate) fn line_note(context: &Context<'_, '_>) -> Note
    requires context { IsContext context.now }
    requires kind { IsContract context.now.spot.node }
    ensures { IsNoted context.now result }
{
    match context.spot.node {
        Node::Old { operand } => {
            let x = context.part(operand);
            old_note(
                context.types,
                context.site.members,
                context.here(),
                context.spot.place,
                x,
            )
        }
        Node::Requires { condition } => {
            let x = context.part(condition);
            contract_note(
                context.types,
                context.site.members,
                context.here(),
                context.spot.place,
                x,
            )
        }
        Node::Ensures { condition } => {
            let x = context.part(condition);
            contract_note(
                context.types,
                context.site.members,
                context.here(),
                context.spot.place,
                x,
            )
        }
        _ => plain(None),
    }
}
