// Assignments as expressions.
ghost use Rattle.std.specs.Prelude.{◌≡◌, List, ℕ, IfOk};
ghost use Rattle.kr_ast.specs.declared.node.Node.TheVariants as nodes;
ghost use Rattle.kr_code_lowering.specs.Vocabulary.{IsGrown, IsProgram};
ghost use Rattle.kr_code_lowering.specs.Numbered.{AreNumbers};
ghost use Rattle.kr_code_lowering.specs.Sites.{IsHere, Resolves};

use crate::known::width_of;
use crate::names::Names;
use crate::numbering::NodeNumbers;
use crate::site::Site;
use crate::targets::variable_at;
use kr_ast::{BinaryOperator, Entry, StepOperator};
use kr_base::NoMemory;
use kr_classes_operators::operator_width;
use kr_code::Expression;
use kr_mean::{BinaryOperation, StepOperation};
use kr_types::Program;
use std::alloc::Global;

/// An assignment as an expression.
#[tactic(auto, using(crate::proofs::Assigned::written_scope))]
pub(crate) fn assignment_expression(
    alloc: Global,
    program: &Program,
    numbers: &NodeNumbers,
    names: &mut Names,
    site: Site,
    entry: Entry,
    target: u32,
    value: u32,
) -> Result<Expression, NoMemory>
    requires program { IsProgram program.now }
    requires numbers { AreNumbers program.now numbers.now }
    requires here { IsHere program.now site entry }
    requires node { entry.node ≡ nodes.Assignment target value }
    ensures grown { IsGrown names.old names.new }
    ensures resolves { (arrays links : List ℕ) → IfOk result (Resolves program.now arrays site names.new links) }
{
    let variable = variable_at(alloc, program, numbers, names, site, site.at(target))?;
    Ok(Expression::Assign {
        variable,
        value: site.code_number(program, numbers, value),
    })
}

/// A compound assignment as an expression.
#[tactic(auto, using(crate::proofs::Assigned::written_scope))]
pub(crate) fn compound_expression(
    alloc: Global,
    program: &Program,
    numbers: &NodeNumbers,
    names: &mut Names,
    site: Site,
    entry: Entry,
    operator: BinaryOperator,
    target: u32,
    value: u32,
) -> Result<Expression, NoMemory>
    requires program { IsProgram program.now }
    requires numbers { AreNumbers program.now numbers.now }
    requires here { IsHere program.now site entry }
    requires node { entry.node ≡ nodes.CompoundAssignment operator target value }
    ensures grown { IsGrown names.old names.new }
    ensures resolves { (arrays links : List ℕ) → IfOk result (Resolves program.now arrays site names.new links) }
{
    let to = width_of(program, site.at(target));
    let from = width_of(program, site.at(value));
    let variable = variable_at(alloc, program, numbers, names, site, site.at(target))?;
    Ok(Expression::Compound {
        operation: BinaryOperation {
            operator,
            width: operator_width(operator, to, from),
            assigned: Some(to),
        },
        variable,
        value: site.code_number(program, numbers, value),
    })
}

/// A `++` or `--` as an expression.
#[tactic(auto, using(crate::proofs::Assigned::written_scope))]
pub(crate) fn step_expression(
    alloc: Global,
    program: &Program,
    numbers: &NodeNumbers,
    names: &mut Names,
    site: Site,
    entry: Entry,
    operator: StepOperator,
    target: u32,
) -> Result<Expression, NoMemory>
    requires program { IsProgram program.now }
    requires numbers { AreNumbers program.now numbers.now }
    requires here { IsHere program.now site entry }
    requires node { entry.node ≡ nodes.Step operator target }
    ensures grown { IsGrown names.old names.new }
    ensures resolves { (arrays links : List ℕ) → IfOk result (Resolves program.now arrays site names.new links) }
{
    let width = width_of(program, site.at(target));
    let variable = variable_at(alloc, program, numbers, names, site, site.at(target))?;
    Ok(Expression::Step {
        operation: StepOperation { operator, width },
        variable,
    })
}
