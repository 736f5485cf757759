// Which nodes have their notes made in one place.
ghost use Rattle.kr_types.specs.Kinds.{IsOfGroup};

use kr_ast::Node;

/// A node for which nothing is looked up, by the source of its note.
#[derive(Clone, Copy)]
pub(crate) enum Bare {
    Type,
    /// literals, jumps and the empty statement
    Leaf,
    /// a value made from those of the parts
    Operation,
    Write,
    Contract,
    /// `return` and `\result`
    Returned,
    /// a statement with a condition
    Test,
    /// `throw`, `catch` and `signals`
    Thrown,
}

/// A node that has a meaning, or for which its class is looked up.
#[derive(Clone, Copy)]
pub(crate) enum Named {
    /// a name that is used or declared
    Name,
    /// a type may be new
    Growing,
    /// it comes after a dot
    Access,
    /// a method of the class or of an ancestor is called, or a constructor
    Call,
    /// a class or a constructor
    Declaration,
}

/// The group of a node.
#[derive(Clone, Copy)]
pub(crate) enum Group {
    /// a list, or an absent part
    Link,
    /// no rule but those of the parts
    Plain,
    Bare(Bare),
    Named(Named),
}

/// The group of a node.
pub(crate) fn group_of(node: Node) -> Group
    ensures { IsOfGroup result node }
{
    match node {
        Node::Nil | Node::Cons { .. } => Group::Link,
        Node::PrimitiveType { .. }
        | Node::NamedType { .. }
        | Node::QualifiedType { .. }
        | Node::GenericType { .. }
        | Node::DiamondType { .. }
        | Node::ArrayType { .. } => Group::Bare(Bare::Type),
        Node::Number { .. }
        | Node::LongNumber { .. }
        | Node::Truth { .. }
        | Node::Null
        | Node::Break
        | Node::Continue
        | Node::Empty => Group::Bare(Bare::Leaf),
        Node::Variable { .. } | Node::Declarator { .. } | Node::Parameter { .. } => Group::Named(
            Named::Name,
        ),
        Node::This | Node::ArrayCreation { .. } => Group::Named(Named::Growing),
        Node::Unary { .. }
        | Node::Binary { .. }
        | Node::InstanceOf { .. }
        | Node::Cast { .. }
        | Node::Conditional { .. }
        | Node::ArrayAccess { .. } => Group::Bare(Bare::Operation),
        Node::FieldAccess { .. } | Node::MethodCall { .. } => Group::Named(Named::Access),
        Node::Call { .. }
        | Node::SuperCall { .. }
        | Node::ConstructorCall { .. }
        | Node::ObjectCreation { .. } => Group::Named(Named::Call),
        Node::Step { .. } | Node::Assignment { .. } | Node::CompoundAssignment { .. } =>
            Group::Bare(Bare::Write),
        Node::Old { .. } | Node::Requires { .. } | Node::Ensures { .. } => Group::Bare(
            Bare::Contract,
        ),
        Node::Result | Node::Return { .. } => Group::Bare(Bare::Returned),
        Node::IfThen { .. }
        | Node::IfElse { .. }
        | Node::While { .. }
        | Node::Do { .. }
        | Node::For { .. } => Group::Bare(Bare::Test),
        Node::Throw { .. } | Node::Catch { .. } | Node::Signals { .. } => Group::Bare(Bare::Thrown),
        Node::Block { .. }
        | Node::Try { .. }
        | Node::ExpressionStatement { .. }
        | Node::Local { .. }
        | Node::Field { .. }
        | Node::Method { .. }
        | Node::Signature { .. } => Group::Plain,
        Node::Class { .. } | Node::Constructor { .. } => Group::Named(Named::Declaration),
    }
}
