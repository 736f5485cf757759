// The widths of numbers, by the types that are written.
ghost use Rattle.std.specs.Prelude.{◌≡◌, ◌<◌, IfSome, length, option_map, unwrap_or};
ghost use Rattle.kr_ast.specs.Arena.{tree_in};
ghost use Rattle.kr_ast.specs.Files.{file_at};
ghost use Rattle.kr_classes_table.specs.Constants.{field_width, number_width as width_written};
ghost use Rattle.kr_classes_table.specs.Numbers.{Bits32};
ghost use Rattle.kr_classes_members.specs.Shown.{IsField, field_shown};

use kr_ast::{Node, Primitive, Tree, tree_of};
use kr_classes_members::Field;
use kr_value::Width;

/// The width of the numbers of the type that a node is, if it is a type of numbers.
pub(crate) fn number_width(tree: &Tree, node: u32) -> Option<Width>
    requires { node < length tree.now.entries }
    ensures { result ≡ width_written (tree_in tree.now node) }
{
    match tree.entry(node).node {
        Node::PrimitiveType { primitive } => match primitive {
            Primitive::Int => Some(Width::Bits32),
            Primitive::Long => Some(Width::Bits64),
            Primitive::Boolean => None,
            Primitive::Void => None,
        },
        _ => None,
    }
}

/// The width of the numbers of a field, by its declared type.
fn declared_width(trees: &[Tree], field: Field) -> Width
    requires { IsField trees.now field }
    ensures { result ≡ unwrap_or (width_written (tree_in (file_at trees.now field.file) field.declared)) Bits32 }
{
    match number_width(tree_of(trees, field.file), field.declared) {
        None => Width::Bits32,
        Some(width) => width,
    }
}

/// The width of the numbers of the field that a name means.
pub(crate) fn field_width(trees: &[Tree], field: Option<Field>) -> Width
    requires { IfSome field (IsField trees.now) }
    ensures { result ≡ field_width (option_map (field_shown trees.now) field) }
{
    match field {
        None => Width::Bits32,
        Some(field) => declared_width(trees, field),
    }
}
