// Statements whose parts are in one scope.
ghost use Rattle.std.specs.Prelude.{◌≡◌};
ghost use Rattle.kr_code_lowering.specs.Numbered.{AreNumbers};
ghost use Rattle.kr_code_lowering.specs.Sites.{number_at};
ghost use Rattle.kr_code_lowering.specs.Statements.{IsPlain, is_plain};

use crate::numbering::NodeNumbers;
use crate::site::Site;
use kr_ast::Node;
use kr_code::Statement;
use kr_types::Program;

/// Whether it is a statement whose parts are in its own scope.
pub(crate) fn is_plain(node: Node) -> bool
    ensures { result ≡ is_plain node }
{
    match node {
        Node::Empty
        | Node::Break
        | Node::Continue
        | Node::ExpressionStatement { .. }
        | Node::IfThen { .. }
        | Node::IfElse { .. }
        | Node::While { .. }
        | Node::Do { .. }
        | Node::Throw { .. } => true,
        _ => false,
    }
}

/// The statement of such a node.
#[tactic(auto, using(crate::proofs::Performed::plain_forms))]
pub(crate) fn plain_statement(
    program: &Program,
    numbers: &NodeNumbers,
    site: Site,
    node: Node,
) -> Statement
    requires { AreNumbers program.now numbers.now }
    ensures { IsPlain (number_at program.now site) node result }
{
    match node {
        Node::Empty => Statement::Empty,
        Node::Break => Statement::Break,
        Node::Continue => Statement::Continue,
        Node::ExpressionStatement { expression } => Statement::Evaluate(site.code_number(
            program, numbers, expression,
        )),
        Node::IfThen { condition, holds } => Statement::IfThen {
            condition: site.code_number(program, numbers, condition),
            then: site.code_number(program, numbers, holds),
        },
        Node::IfElse {
            condition,
            holds,
            fails,
        } => Statement::IfElse {
            condition: site.code_number(program, numbers, condition),
            then: site.code_number(program, numbers, holds),
            otherwise: site.code_number(program, numbers, fails),
        },
        Node::While { condition, body } => Statement::While {
            condition: site.code_number(program, numbers, condition),
            body: site.code_number(program, numbers, body),
        },
        Node::Throw { thrown } => Statement::Throw(site.code_number(program, numbers, thrown)),
        Node::Do { body, condition } => Statement::Do {
            body: site.code_number(program, numbers, body),
            condition: site.code_number(program, numbers, condition),
        },
        _ => Statement::Stuck,
    }
}
