// Expressions that name types: casts, tests, new arrays.
ghost use Rattle.std.specs.Prelude.{◌≡◌, ◌<◌, ◌^◌, List, ℕ, All, length, map};
ghost use Rattle.kr_ast.specs.declared.node.Node.TheVariants as nodes;
ghost use Rattle.kr_code_lowering.specs.Vocabulary.{array_number, ArrayType, count, default_of, is_primitive, is_same, IsProgram, IsTypeNumber, type_at, written};
ghost use Rattle.kr_code_lowering.specs.Kinds.{IsPrimitiveCast};
ghost use Rattle.kr_code_lowering.specs.Origins.{node_tree};
ghost use Rattle.kr_code_lowering.specs.Numbered.{AreNumbers};
ghost use Rattle.kr_code_lowering.specs.Sites.{IsHere, IsSite, Resolves, arena_at, scope_at};

use crate::numbering::NodeNumbers;
use crate::site::Site;
use kr_ast::{Entry, Node, UnaryOperator};
use kr_classes_names::{TypeForm, Types};
use kr_classes_table::TypeId;
use kr_code::Expression;
use kr_mean::UnaryOperation;
use kr_types::Program;
use kr_value::Value;

/// The number of the type that a node of the file names.
pub(crate) fn named_type(program: &Program, site: Site, node: u32) -> u32
    requires program { IsProgram program.now }
    requires site { IsSite program.now site }
    ensures { IsTypeNumber program.now.table.types result (written (scope_at program.now site) (node_tree program.now site.file node)) }
{
    program.table.numbers.number(site.file, node)
}

/// The initial value of a variable of a type.
pub fn default_value(types: &Types, number: TypeId) -> Value
    requires { number < count types.now }
    ensures { result ≡ default_of (type_at types.now number) }
{
    match types.form(number) {
        TypeForm::Number(_) => Value::Int(0),
        TypeForm::Boolean => Value::Bool(false),
        _ => Value::Null,
    }
}

/// Whether a type is that of an array of these elements.
fn is_array_of(types: &Types, array: TypeId, element: TypeId) -> bool
    requires array { array < count types.now }
    requires element { element < count types.now }
    ensures { result ≡ is_same (ArrayType (type_at types.now element)) (type_at types.now array) }
{
    match types.form(array) {
        TypeForm::Array(other) => types.is_same(element, other),
        _ => false,
    }
}

/// An `instanceof` as an expression.
pub(crate) fn instance_expression(
    program: &Program,
    numbers: &NodeNumbers,
    site: Site,
    entry: Entry,
    operand: u32,
    tested: u32,
) -> Expression
    requires program { IsProgram program.now }
    requires numbers { AreNumbers program.now numbers.now }
    requires here { IsHere program.now site entry }
    requires node { entry.node ≡ nodes.InstanceOf operand tested }
    ensures { (arrays links : List ℕ) (names : List (List ℕ)) → Resolves program.now arrays site names links result }
{
    Expression::InstanceOf {
        operand: site.code_number(program, numbers, operand),
        class: named_type(program, site, tested),
    }
}

/// Whether a node is a primitive type.
fn is_primitive_type(program: &Program, site: Site, node: u32) -> bool
    requires site { IsSite program.now site }
    requires node { node < length (arena_at program.now site).entries }
    ensures { result ≡ is_primitive (node_tree program.now site.file node) }
{
    match site.at(node).entry(program).node {
        Node::PrimitiveType { .. } => true,
        _ => false,
    }
}

/// A cast to a primitive type: a number keeps the low bits, as by unary plus of the type, a boolean stays.
fn primitive_cast(types: &Types, to: TypeId, operand: u32) -> Expression
    requires { to < count types.now }
    ensures { IsPrimitiveCast (type_at types.now to) to operand result }
{
    match types.form(to) {
        TypeForm::Number(width) => Expression::Unary {
            operation: UnaryOperation {
                operator: UnaryOperator::Plus,
                width,
            },
            operand,
        },
        _ => Expression::Convert { to, operand },
    }
}

/// A cast as an expression.
pub(crate) fn cast_expression(
    program: &Program,
    numbers: &NodeNumbers,
    site: Site,
    entry: Entry,
    target: u32,
    operand: u32,
) -> Expression
    requires program { IsProgram program.now }
    requires numbers { AreNumbers program.now numbers.now }
    requires here { IsHere program.now site entry }
    requires node { entry.node ≡ nodes.Cast target operand }
    ensures { (arrays links : List ℕ) (names : List (List ℕ)) → Resolves program.now arrays site names links result }
{
    let to = named_type(program, site, target);
    if is_primitive_type(program, site, target) {
        return primitive_cast(
            &program.table.types,
            to,
            site.code_number(program, numbers, operand),
        );
    }
    Expression::Cast {
        class: to,
        operand: site.code_number(program, numbers, operand),
    }
}

/// The number of the type of arrays of these elements among the program's array types, if it is one.
fn array_number(types: &Types, arrays: &[TypeId], element: TypeId) -> Option<u32>
    requires arrays { All (λ t. t < count types.now) arrays.now }
    requires few { length arrays.now < 2 ^ 32 }
    requires element { element < count types.now }
    ensures { result ≡ array_number (map (type_at types.now) arrays.now) (ArrayType (type_at types.now element)) }
{
    for (number, array) in arrays.iter().enumerate() {
        if is_array_of(types, *array, element) {
            return Some(number as u32);
        }
    }
    None
}

/// A creation of an array as an expression.
pub(crate) fn array_expression(
    program: &Program,
    numbers: &NodeNumbers,
    arrays: &[TypeId],
    site: Site,
    entry: Entry,
    element: u32,
    size: u32,
) -> Expression
    requires program { IsProgram program.now }
    requires numbers { AreNumbers program.now numbers.now }
    requires arrays { All (λ t. t < count program.now.table.types) arrays.now }
    requires few { length arrays.now < 2 ^ 32 }
    requires here { IsHere program.now site entry }
    requires node { entry.node ≡ nodes.ArrayCreation element size }
    ensures { (links : List ℕ) (names : List (List ℕ)) → Resolves program.now arrays.now site names links result }
{
    let types = &program.table.types;
    let number = named_type(program, site, element);
    Expression::NewArray {
        class: array_number(types, arrays, number),
        default: default_value(types, number),
        length: site.code_number(program, numbers, size),
    }
}
