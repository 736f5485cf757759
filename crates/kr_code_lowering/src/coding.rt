// What code a node of a tree has.
ghost use Rattle.std.specs.Prelude.{◌≡◌, List, ℕ};
ghost use Rattle.kr_code_lowering.specs.Kinds.{is_apart, is_coded};
ghost use Rattle.kr_code_lowering.specs.Origins.{has_code};
ghost use Rattle.kr_code_lowering.specs.Vocabulary.{is_no_expression, Place, Tree, tree_of};

use kr_ast::Node;

/// What code a node has.
#[derive(Clone, Copy)]
enum Coding {
    Nothing,
    /// a statement, a declarator or a `catch`
    Statement,
    Expression,
}

/// What code a node has.
fn coding_of(node: Node) -> Coding
    ensures coded { (text : List ℕ) (look : ℕ → Tree) (place : Place) → has_code (tree_of text look place node) ≡ is_coded result }
    ensures apart { (text : List ℕ) (look : ℕ → Tree) (place : Place) → is_no_expression (tree_of text look place node) ≡ is_apart result }
{
    match node {
        Node::Nil
        | Node::Cons { .. }
        | Node::PrimitiveType { .. }
        | Node::NamedType { .. }
        | Node::QualifiedType { .. }
        | Node::GenericType { .. }
        | Node::DiamondType { .. }
        | Node::ArrayType { .. }
        | Node::ConstructorCall { .. }
        | Node::Class { .. }
        | Node::Field { .. }
        | Node::Method { .. }
        | Node::Signature { .. }
        | Node::Parameter { .. }
        | Node::Constructor { .. }
        | Node::Requires { .. }
        | Node::Ensures { .. }
        | Node::Signals { .. } => Coding::Nothing,
        Node::Empty
        | Node::Block { .. }
        | Node::Local { .. }
        | Node::Declarator { .. }
        | Node::ExpressionStatement { .. }
        | Node::Return { .. }
        | Node::Break
        | Node::Continue
        | Node::IfThen { .. }
        | Node::IfElse { .. }
        | Node::While { .. }
        | Node::Do { .. }
        | Node::For { .. }
        | Node::Throw { .. }
        | Node::Try { .. }
        | Node::Catch { .. } => Coding::Statement,
        Node::Number { .. }
        | Node::LongNumber { .. }
        | Node::Truth { .. }
        | Node::Null
        | Node::This
        | Node::Variable { .. }
        | Node::FieldAccess { .. }
        | Node::ArrayAccess { .. }
        | Node::Call { .. }
        | Node::MethodCall { .. }
        | Node::SuperCall { .. }
        | Node::ObjectCreation { .. }
        | Node::ArrayCreation { .. }
        | Node::Unary { .. }
        | Node::Step { .. }
        | Node::Binary { .. }
        | Node::InstanceOf { .. }
        | Node::Conditional { .. }
        | Node::Cast { .. }
        | Node::Assignment { .. }
        | Node::CompoundAssignment { .. }
        | Node::Result
        | Node::Old { .. } => Coding::Expression,
    }
}

/// Whether a node is an expression, a statement, a declarator or a `catch`.
pub(crate) fn has_code(node: Node) -> bool
    ensures { (text : List ℕ) (look : ℕ → Tree) (place : Place) → result ≡ has_code (tree_of text look place node) }
{
    match coding_of(node) {
        Coding::Nothing => false,
        Coding::Statement => true,
        Coding::Expression => true,
    }
}

/// Whether a node is no expression.
pub(crate) fn is_no_expression(node: Node) -> bool
    ensures { (text : List ℕ) (look : ℕ → Tree) (place : Place) → result ≡ is_no_expression (tree_of text look place node) }
{
    match coding_of(node) {
        Coding::Nothing => true,
        Coding::Statement => true,
        Coding::Expression => false,
    }
}
