// The target of an assignment.
ghost use Rattle.std.specs.Prelude.{◌≡◌, ◌<◌, Some, IfOk};
ghost use Rattle.kr_ast.specs.declared.node.Node.TheVariants as nodes;
ghost use Rattle.kr_code_lowering.specs.Vocabulary.{count, IsGrown, IsProgram, table, type_at, value};
ghost use Rattle.kr_code_lowering.specs.Numbered.{AreNumbers};
ghost use Rattle.kr_code_lowering.specs.Sites.{IsHere, IsSite, scope_at, tree_at};
ghost use Rattle.kr_code_lowering.specs.Targets.{IsTarget, is_array_type};

use crate::known::{meaning_at, type_of};
use crate::named::{Named, name_at};
use crate::names::Names;
use crate::numbering::NodeNumbers;
use crate::site::Site;
use kr_ast::{Entry, Name, Node};
use kr_base::NoMemory;
use kr_classes_names::{TypeForm, Types};
use kr_classes_table::TypeId;
use kr_code::Variable;
use kr_types::Program;
use std::alloc::Global;

/// A name that is written.
fn name_target(
    alloc: Global,
    program: &Program,
    names: &mut Names,
    site: Site,
    at: Site,
    entry: Entry,
    name: Name,
) -> Result<Variable, NoMemory>
    requires program { IsProgram program.now }
    requires here { IsHere program.now at entry }
    requires node { entry.node ≡ nodes.Variable name }
    requires handed { scope_at program.now at ≡ value (scope_at program.now site) }
    ensures grown { IsGrown names.old names.new }
    ensures target { IfOk result (IsTarget program.now (scope_at program.now site) (tree_at program.now at) names.new) }
{
    match name_at(program, at, entry, name) {
        Named::Local(number) => Ok(Variable::Local(number)),
        Named::Own(field) => {
            let number = names.number(alloc, at.text(program, name))?;
            Ok(Variable::Own {
                name: number,
                field,
            })
        }
        Named::Constant(_) => Ok(Variable::Unknown),
        Named::Nothing => Ok(Variable::Unknown),
    }
}

/// A field of an object that is written.
fn field_target(
    alloc: Global,
    program: &Program,
    numbers: &NodeNumbers,
    names: &mut Names,
    site: Site,
    at: Site,
    entry: Entry,
    object: u32,
    name: Name,
) -> Result<Variable, NoMemory>
    requires program { IsProgram program.now }
    requires numbers { AreNumbers program.now numbers.now }
    requires here { IsHere program.now at entry }
    requires node { entry.node ≡ nodes.FieldAccess object name }
    requires handed { scope_at program.now at ≡ value (scope_at program.now site) }
    ensures grown { IsGrown names.old names.new }
    ensures target { IfOk result (IsTarget program.now (scope_at program.now site) (tree_at program.now at) names.new) }
{
    match meaning_at(program, at).instance() {
        None => Ok(Variable::Unknown),
        Some(field) => {
            let number = names.number(alloc, at.text(program, name))?;
            Ok(Variable::Of {
                object: at.code_number(program, numbers, object),
                name: number,
                field,
            })
        }
    }
}

/// Whether a type is that of arrays.
fn is_array(types: &Types, number: TypeId) -> bool
    requires { number < count types.now }
    ensures { result ≡ is_array_type (Some (type_at types.now number)) }
{
    match types.form(number) {
        TypeForm::Array(_) => true,
        _ => false,
    }
}

/// An element of an array that is written.
fn element_target(
    program: &Program,
    numbers: &NodeNumbers,
    site: Site,
    at: Site,
    entry: Entry,
    array: u32,
    index: u32,
    names: &Names,
) -> Variable
    requires program { IsProgram program.now }
    requires numbers { AreNumbers program.now numbers.now }
    requires here { IsHere program.now at entry }
    requires node { entry.node ≡ nodes.ArrayAccess array index }
    requires handed { scope_at program.now at ≡ value (scope_at program.now site) }
    ensures { IsTarget program.now (scope_at program.now site) (tree_at program.now at) names.now result }
{
    match type_of(program, at.at(array)) {
        None => Variable::Unknown,
        Some(class) => {
            if is_array(&program.table.types, class) {
                Variable::Element {
                    array: at.code_number(program, numbers, array),
                    index: at.code_number(program, numbers, index),
                    class,
                }
            } else {
                Variable::Unknown
            }
        }
    }
}

/// The target that a node is, at the assignment's node.
pub(crate) fn variable_at(
    alloc: Global,
    program: &Program,
    numbers: &NodeNumbers,
    names: &mut Names,
    site: Site,
    at: Site,
) -> Result<Variable, NoMemory>
    requires program { IsProgram program.now }
    requires numbers { AreNumbers program.now numbers.now }
    requires site { IsSite program.now site }
    requires at { IsSite program.now at }
    requires handed { scope_at program.now at ≡ value (scope_at program.now site) }
    ensures grown { IsGrown names.old names.new }
    ensures target { IfOk result (IsTarget program.now (scope_at program.now site) (tree_at program.now at) names.new) }
{
    let entry = at.entry(program);
    match entry.node {
        Node::Variable { name } => { name_target(alloc, program, names, site, at, entry, name) }
        Node::FieldAccess { object, name } => {
            field_target(
                alloc, program, numbers, names, site, at, entry, object, name,
            )
        }
        Node::ArrayAccess { array, index } => {
            Ok(element_target(program, numbers, site, at, entry, array, index, names))
        }
        _ => Ok(Variable::Unknown),
    }
}
