// Initial values that are literals.
ghost use Rattle.std.specs.Prelude.{◌≡◌, ◌<◌, length};
ghost use Rattle.kr_emit.specs.Vocabulary.{is_literal, is_negated, is_number, tree_in};

use kr_ast::{Node, Tree, UnaryOperator};

fn is_number(tree: &Tree, node: u32) -> bool
    requires { node < length tree.now.entries }
    ensures { result ≡ is_number (tree_in tree.now node) }
{
    match tree.entry(node).node {
        Node::Number { .. } => true,
        Node::LongNumber { .. } => true,
        _ => false,
    }
}

/// Whether an operator and its operand are `-` and a number.
fn is_negated(tree: &Tree, operator: UnaryOperator, operand: u32) -> bool
    requires { operand < length tree.now.entries }
    ensures { result ≡ is_negated operator (tree_in tree.now operand) }
{
    match operator {
        UnaryOperator::Minus => is_number(tree, operand),
        UnaryOperator::Plus => false,
        UnaryOperator::Complement => false,
        UnaryOperator::Not => false,
    }
}

/// Whether a node is a literal, or `-` and a number, or absent.
pub(crate) fn is_literal(tree: &Tree, node: u32) -> bool
    requires { node < length tree.now.entries }
    ensures { result ≡ is_literal (tree_in tree.now node) }
{
    match tree.entry(node).node {
        Node::Nil => true,
        Node::Number { .. } => true,
        Node::LongNumber { .. } => true,
        Node::Truth { .. } => true,
        Node::Null => true,
        Node::Unary { operator, operand } => is_negated(tree, operator, operand),
        _ => false,
    }
}
