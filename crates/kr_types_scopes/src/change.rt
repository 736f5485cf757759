// How a scope changes from a node to its parts, where no local comes into scope.
ghost use Rattle.std.specs.Prelude.{◌≡◌, ◌≤◌, List};
ghost use Rattle.kr_ast.specs.Arena.{Arena};
ghost use Rattle.kr_classes_table.specs.Table.{Table};
ghost use Rattle.kr_classes_table.specs.Constants.{Known};
ghost use Rattle.kr_types_meaning.specs.Scopes.{field_kind};
ghost use Rattle.kr_types_scopes.specs.Settings.{setting, declaring_of, scope_in};
ghost use Rattle.kr_types_scopes.specs.declared.within.Binding.{Binding};
ghost use Rattle.kr_types_scopes.specs.declared.change.Change.TheVariants.{DeclaresFields};
ghost use Rattle.kr_types_scopes.specs.Changes.{first_change, operand_change, rest_change, changed};

use crate::{Declaring, Part, Role, Within};
use kr_ast::{Node, UnaryOperator};

/// The difference of a part's scope.
#[derive(Clone, Copy)]
pub enum Change {
    Same,
    Value,
    Statement,
    UnderMinus,
    InLoop,
    InOld,
    Requiring,
    Ensuring,
    /// declarators of locals of this type
    DeclaresLocals(u32),
    /// declarators of a field: whether it is static, and final, and its type
    DeclaresFields(bool, bool, u32),
    /// members of the class
    InClass,
}

/// The difference for the first part of a node.
#[inline(always)]
pub(crate) fn first_change(node: Node) -> Change
    ensures { result ≡ first_change node }
{
    match node {
        Node::FieldAccess { .. }
        | Node::ArrayAccess { .. }
        | Node::Call { .. }
        | Node::MethodCall { .. }
        | Node::SuperCall { .. }
        | Node::Step { .. }
        | Node::Binary { .. }
        | Node::Conditional { .. }
        | Node::Assignment { .. }
        | Node::CompoundAssignment { .. }
        | Node::InstanceOf { .. } => Change::Value,
        Node::Unary { operator, .. } => operand_change(operator),
        Node::Old { .. } => Change::InOld,
        Node::ExpressionStatement { .. } => Change::Statement,
        Node::Do { .. } => Change::InLoop,
        Node::Requires { .. } => Change::Requiring,
        Node::Ensures { .. } => Change::Ensuring,
        _ => Change::Same,
    }
}

/// The difference for an operand.
#[inline(always)]
fn operand_change(operator: UnaryOperator) -> Change
    ensures { result ≡ operand_change operator }
{
    match operator {
        UnaryOperator::Minus => Change::UnderMinus,
        _ => Change::Value,
    }
}

/// The difference for the other parts of a node.
#[inline(always)]
pub(crate) fn rest_change(node: Node) -> Change
    ensures { result ≡ rest_change node }
{
    match node {
        Node::FieldAccess { .. }
        | Node::ArrayAccess { .. }
        | Node::Call { .. }
        | Node::MethodCall { .. }
        | Node::SuperCall { .. }
        | Node::Step { .. }
        | Node::Binary { .. }
        | Node::Conditional { .. }
        | Node::Assignment { .. }
        | Node::CompoundAssignment { .. }
        | Node::ObjectCreation { .. }
        | Node::ArrayCreation { .. }
        | Node::Cast { .. } => Change::Value,
        Node::Unary { operator, .. } => operand_change(operator),
        Node::Old { .. } => Change::InOld,
        Node::ExpressionStatement { .. } => Change::Statement,
        Node::Requires { .. } => Change::Requiring,
        Node::Ensures { .. } => Change::Ensuring,
        Node::Local { declared, .. } => Change::DeclaresLocals(declared),
        Node::While { .. } => Change::InLoop,
        Node::Class { .. } => Change::InClass,
        Node::Field {
            is_static,
            is_final,
            declared,
            ..
        } => Change::DeclaresFields(is_static, is_final, declared),
        _ => Change::Same,
    }
}

/// The kind of item that a field's declarators declare.
fn field_kind(is_static: bool, is_final: bool) -> Declaring
    ensures { declaring_of result ≡ field_kind is_static is_final }
{
    if is_static {
        Declaring::Constants(is_final)
    } else {
        Declaring::Fields
    }
}

/// Makes a scope that of a field's declarators.
fn declare_fields(here: &mut Within, is_static: bool, is_final: bool, declared: u32)
    ensures top { here.new.top ≡ here.old.top }
    ensures scope { (t : Table) (v : List Known) (a : Arena) (bs : List Binding) → scope_in (setting t v a) bs here.new ≡ changed (setting t v a) 0 (scope_in (setting t v a) bs here.old) (DeclaresFields is_static is_final declared) }
{
    here.declaring = field_kind(is_static, is_final);
    here.declared = Some(declared);
    here.is_static = is_static;
}

/// Makes a change to a scope, for a part of the node at an index.
pub fn apply(here: &mut Within, at: u32, change: Change)
    ensures top { here.new.top ≤ here.old.top }
    ensures scope { (t : Table) (v : List Known) (a : Arena) (bs : List Binding) → scope_in (setting t v a) bs here.new ≡ changed (setting t v a) at (scope_in (setting t v a) bs here.old) change }
{
    match change {
        Change::Same => {}
        Change::Value => here.role = Role::AsValue,
        Change::Statement => here.role = Role::AsStatement,
        Change::UnderMinus => here.role = Role::UnderMinus,
        Change::InLoop => here.is_in_loop = true,
        Change::InOld => {
            here.is_in_old = true;
            here.role = Role::AsValue;
        }
        Change::Requiring => {
            here.part = Part::Requiring;
            here.role = Role::AsValue;
        }
        Change::Ensuring => {
            here.part = Part::Ensuring;
            here.role = Role::AsValue;
        }
        Change::DeclaresLocals(declared) => {
            here.declaring = Declaring::Locals;
            here.declared = Some(declared);
        }
        Change::DeclaresFields(is_static, is_final, declared) => {
            declare_fields(here, is_static, is_final, declared)
        }
        Change::InClass => *here = Within::in_class(at),
    }
}
