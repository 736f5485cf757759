// Names and field accesses as expressions.
ghost use Rattle.std.specs.Prelude.{◌≡◌, List, ℕ, Some, IfOk};
ghost use Rattle.kr_ast.specs.declared.node.Node.TheVariants as nodes;
ghost use Rattle.kr_code_lowering.specs.Vocabulary.{class_before, constant_of, IsGrown, IsProgram, known_value, name_in, table, values_of};
ghost use Rattle.kr_code_lowering.specs.Origins.{node_tree};
ghost use Rattle.kr_code_lowering.specs.Numbered.{AreNumbers};
ghost use Rattle.kr_code_lowering.specs.Sites.{IsHere, Resolves, arena_at, scope_at};
ghost use Rattle.kr_code_lowering.specs.Named.{literal_of};

use crate::known::meaning_at;
use crate::named::{Named, class_before, constant_value, name_at};
use crate::names::Names;
use crate::numbering::NodeNumbers;
use crate::site::Site;
use kr_ast::{Entry, Name};
use kr_base::NoMemory;
use kr_code::Expression;
use kr_types::Program;
use kr_value::Value;
use std::alloc::Global;

/// A constant's value as an expression; one without a value has no meaning.
fn literal(value: Option<Value>) -> Expression
    ensures { result ≡ literal_of value }
{
    match value {
        None => Expression::Stuck,
        Some(value) => Expression::Literal(value),
    }
}

/// The value of the constant after a class's name, if there is one.
fn class_constant(
    program: &Program,
    site: Site,
    _entry: Entry,
    _object: u32,
    _name: Name,
) -> Option<Value>
    requires program { IsProgram program.now }
    requires here { IsHere program.now site _entry }
    requires node { _entry.node ≡ nodes.FieldAccess _object _name }
    ensures { (class : ℕ) → class_before (scope_at program.now site) (node_tree program.now site.file _object) ≡ Some class → result ≡ known_value (values_of (table program.now)) (constant_of (table program.now) (Some class) (name_in (arena_at program.now site).text _name)) }
{
    match meaning_at(program, site).constant() {
        None => None,
        Some(number) => constant_value(program, number),
    }
}

/// A name as an expression.
pub(crate) fn name_expression(
    alloc: Global,
    program: &Program,
    names: &mut Names,
    site: Site,
    entry: Entry,
    name: Name,
) -> Result<Expression, NoMemory>
    requires program { IsProgram program.now }
    requires here { IsHere program.now site entry }
    requires node { entry.node ≡ nodes.Variable name }
    ensures grown { IsGrown names.old names.new }
    ensures resolves { (arrays links : List ℕ) → IfOk result (Resolves program.now arrays site names.new links) }
{
    match name_at(program, site, entry, name) {
        Named::Local(number) => Ok(Expression::Local(number)),
        Named::Constant(value) => Ok(literal(value)),
        Named::Own(_) => {
            let number = names.number(alloc, site.text(program, name))?;
            Ok(Expression::OwnField(number))
        }
        Named::Nothing => Ok(Expression::Stuck),
    }
}

/// A field of an object, or a constant after its class's name, as an expression.
pub(crate) fn access_expression(
    alloc: Global,
    program: &Program,
    numbers: &NodeNumbers,
    names: &mut Names,
    site: Site,
    entry: Entry,
    object: u32,
    name: Name,
) -> Result<Expression, NoMemory>
    requires program { IsProgram program.now }
    requires numbers { AreNumbers program.now numbers.now }
    requires here { IsHere program.now site entry }
    requires node { entry.node ≡ nodes.FieldAccess object name }
    ensures grown { IsGrown names.old names.new }
    ensures resolves { (arrays links : List ℕ) → IfOk result (Resolves program.now arrays site names.new links) }
{
    match class_before(program, site, object) {
        Some(_) => Ok(literal(class_constant(program, site, entry, object, name))),
        None => {
            let number = names.number(alloc, site.text(program, name))?;
            Ok(Expression::FieldOf {
                object: site.code_number(program, numbers, object),
                name: number,
            })
        }
    }
}
