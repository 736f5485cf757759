// The label of a node: its kind, with its operator, its value or its modifiers.

use kr_ast::{BinaryOperator, Node, Primitive, StepOperator, UnaryOperator};
use std::alloc::{AllocError, Global};

/// The kind of a type or an expression.
fn kind_of_expression(node: Node) -> &'static str {
    match node {
        Node::NamedType { .. } => "NamedType",
        Node::QualifiedType { .. } => "QualifiedType",
        Node::GenericType { .. } => "GenericType",
        Node::DiamondType { .. } => "DiamondType",
        Node::ArrayType { .. } => "ArrayType",
        Node::Null => "Null",
        Node::This => "This",
        Node::Variable { .. } => "Variable",
        Node::FieldAccess { .. } => "FieldAccess",
        Node::ArrayAccess { .. } => "ArrayAccess",
        Node::Call { .. } => "Call",
        Node::MethodCall { .. } => "MethodCall",
        Node::SuperCall { .. } => "SuperCall",
        Node::ObjectCreation { .. } => "ObjectCreation",
        Node::ArrayCreation { .. } => "ArrayCreation",
        Node::InstanceOf { .. } => "InstanceOf",
        Node::Conditional { .. } => "Conditional",
        Node::Cast { .. } => "Cast",
        Node::Assignment { .. } => "Assignment",
        Node::Result => "Result",
        Node::Old { .. } => "Old",
        _ => kind_of_statement(node),
    }
}

/// The kind of a statement.
fn kind_of_statement(node: Node) -> &'static str {
    match node {
        Node::Empty => "Empty",
        Node::Block { .. } => "Block",
        Node::Local { .. } => "Local",
        Node::Declarator { .. } => "Declarator",
        Node::ExpressionStatement { .. } => "ExpressionStatement",
        Node::Return { .. } => "Return",
        Node::Break => "Break",
        Node::Continue => "Continue",
        Node::IfThen { .. } => "IfThen",
        Node::IfElse { .. } => "IfElse",
        Node::While { .. } => "While",
        Node::Do { .. } => "Do",
        Node::For { .. } => "For",
        Node::Throw { .. } => "Throw",
        Node::Try { .. } => "Try",
        Node::Catch { .. } => "Catch",
        Node::ConstructorCall { .. } => "ConstructorCall",
        _ => kind_of_declaration(node),
    }
}

/// The kind of a declaration, with its modifiers.
fn kind_of_declaration(node: Node) -> &'static str {
    match node {
        Node::Class { .. } => "Class",
        Node::Signature { .. } => "Signature",
        Node::Parameter { .. } => "Parameter",
        Node::Constructor { .. } => "Constructor",
        Node::Requires { .. } => "Requires",
        Node::Ensures { .. } => "Ensures",
        Node::Signals { .. } => "Signals",
        Node::Method { is_static, .. } => if is_static { "static Method" } else { "Method" },
        Node::Field {
            is_static,
            is_final,
            ..
        } => match (is_static, is_final) {
            (true, true) => "static final Field",
            (true, false) => "static Field",
            (false, true) => "final Field",
            (false, false) => "Field",
        },
        _ => "",
    }
}

fn name_of_primitive(primitive: Primitive) -> &'static str {
    match primitive {
        Primitive::Int => "Int",
        Primitive::Long => "Long",
        Primitive::Boolean => "Boolean",
        Primitive::Void => "Void",
    }
}

fn name_of_unary(operator: UnaryOperator) -> &'static str {
    match operator {
        UnaryOperator::Plus => "Plus",
        UnaryOperator::Minus => "Minus",
        UnaryOperator::Complement => "Complement",
        UnaryOperator::Not => "Not",
    }
}

fn name_of_step(operator: StepOperator) -> &'static str {
    match operator {
        StepOperator::IncrementBefore => "IncrementBefore",
        StepOperator::DecrementBefore => "DecrementBefore",
        StepOperator::IncrementBehind => "IncrementBehind",
        StepOperator::DecrementBehind => "DecrementBehind",
    }
}

fn name_of_binary(operator: BinaryOperator) -> &'static str {
    match operator {
        BinaryOperator::Multiply => "Multiply",
        BinaryOperator::Divide => "Divide",
        BinaryOperator::Remainder => "Remainder",
        BinaryOperator::Add => "Add",
        BinaryOperator::Subtract => "Subtract",
        BinaryOperator::ShiftLeft => "ShiftLeft",
        BinaryOperator::ShiftRight => "ShiftRight",
        BinaryOperator::ShiftRightUnsigned => "ShiftRightUnsigned",
        BinaryOperator::Less => "Less",
        BinaryOperator::Greater => "Greater",
        BinaryOperator::LessOrEqual => "LessOrEqual",
        BinaryOperator::GreaterOrEqual => "GreaterOrEqual",
        BinaryOperator::Equal => "Equal",
        BinaryOperator::NotEqual => "NotEqual",
        BinaryOperator::BitAnd => "BitAnd",
        BinaryOperator::BitXor => "BitXor",
        BinaryOperator::BitOr => "BitOr",
        BinaryOperator::And => "And",
        BinaryOperator::Or => "Or",
    }
}

/// The label of a node.
pub(crate) fn kind(alloc: Global, node: Node) -> Result<String, AllocError> {
    match node {
        Node::PrimitiveType { primitive } => String::from_str(alloc, name_of_primitive(primitive)),
        Node::Number { value } => format!(in alloc; "{value}"),
        Node::LongNumber { value } => format!(in alloc; "{value}L"),
        Node::Truth { value } => format!(in alloc; "{value}"),
        Node::Unary { operator, .. } => String::from_str(alloc, name_of_unary(operator)),
        Node::Step { operator, .. } => String::from_str(alloc, name_of_step(operator)),
        Node::Binary { operator, .. } => String::from_str(alloc, name_of_binary(operator)),
        Node::CompoundAssignment { operator, .. } => {
            let name = name_of_binary(operator);
            format!(in alloc; "{name}=")
        }
        _ => String::from_str(alloc, kind_of_expression(node)),
    }
}
