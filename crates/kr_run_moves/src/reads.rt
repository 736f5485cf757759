// Nodes whose values aren't known: what reads a field or an element is entered at once.
ghost use Rattle.std.specs.Prelude.{◌≡◌};
ghost use Rattle.kr_mean.specs.Steps.{bind};
ghost use Rattle.kr_code.specs.declared.expression.Expression.TheVariants as expressions;
ghost use Rattle.kr_code.specs.Doing.{value_done};
ghost use Rattle.kr_code.specs.Tables.{expression_of, node_at};
ghost use Rattle.kr_run_frames.specs.Frames.{got, out_value};
ghost use Rattle.kr_run_frames.specs.Leads.{Leads, next_task};
ghost use Rattle.kr_run_state.specs.Worlds.{state_at};

use crate::expressions::{enter_element, enter_field};
use crate::pushes::value;
use kr_code::{Code, Expression};
use kr_run_frames::{Stack, Task, ValueFrame};
use kr_run_known::expression_at;
use kr_run_state::{Action, Halt, World, tick};

/// A field of `this`, after its unit.
#[inline(always)]
#[tactic(auto, unfolding(kr_mean::specs::Steps::bind))]
fn own_field(
    code: &Code,
    world: &World,
    stack: &Stack,
    name: u32,
    task: &mut Task,
) -> Result<(), Halt>
    ensures { Leads code.now (next_task result task.new) stack.now world.now world.now (λ d x. out_value code.now d stack.now (value_done code.now d (expressions.OwnField name) (state_at world.now x))) }
{
    *task = Task::Act(Action::Load(name, world.this));
    Ok(())
}

/// A unit, and then a field of `this`.
#[inline(always)]
fn read_own(
    code: &Code,
    world: &mut World,
    stack: &Stack,
    node: u32,
    name: u32,
    task: &mut Task,
) -> Result<(), Halt>
    requires { expression_of (node_at code.now node) ≡ expressions.OwnField name }
    ensures { Leads code.now (next_task result task.new) stack.now world.new world.old (λ d x. out_value code.now d stack.now (d.value node (state_at world.old x))) }
{
    match tick(world) {
        Err(halt) => Err(halt),
        Ok(_) => own_field(code, &*world, stack, name, task),
    }
}

/// A unit, and then a field of an object.
#[inline(always)]
fn read_field(
    code: &Code,
    world: &mut World,
    stack: &mut Stack,
    node: u32,
    object: u32,
    name: u32,
    task: &mut Task,
) -> Result<(), Halt>
    requires { expression_of (node_at code.now node) ≡ expressions.FieldOf object name }
    ensures { Leads code.now (next_task result task.new) stack.new world.new world.old (λ d x. out_value code.now d stack.old (d.value node (state_at world.old x))) }
{
    match tick(world) {
        Err(halt) => Err(halt),
        Ok(_) => enter_field(code, world, stack, object, name, task),
    }
}

/// A unit, and then an element.
#[inline(always)]
fn read_element(
    code: &Code,
    world: &mut World,
    stack: &mut Stack,
    node: u32,
    array: u32,
    index: u32,
    task: &mut Task,
) -> Result<(), Halt>
    requires { expression_of (node_at code.now node) ≡ expressions.Element array index }
    ensures { Leads code.now (next_task result task.new) stack.new world.new world.old (λ d x. out_value code.now d stack.old (d.value node (state_at world.old x))) }
{
    match tick(world) {
        Err(halt) => Err(halt),
        Ok(_) => enter_element(code, world, stack, array, index, task),
    }
}

/// A node's value, which isn't known, comes next: a read begins at once.
#[inline(always)]
pub(crate) fn enter_read(
    code: &Code,
    world: &mut World,
    stack: &mut Stack,
    node: u32,
    task: &mut Task,
) -> Result<(), Halt>
    ensures { Leads code.now (next_task result task.new) stack.new world.new world.old (λ d x. out_value code.now d stack.old (d.value node (state_at world.old x))) }
{
    match expression_at(code, node) {
        None => {
            *task = Task::Evaluate(node);
            Ok(())
        }
        Some(expression) => match expression {
            Expression::OwnField(name) => read_own(code, world, stack, node, *name, task),
            Expression::FieldOf { object, name } => {
                read_field(code, world, stack, node, *object, *name, task)
            }
            Expression::Element { array, index } => {
                read_element(code, world, stack, node, *array, *index, task)
            }
            _ => {
                *task = Task::Evaluate(node);
                Ok(())
            }
        },
    }
}

/// Likewise, and then the frame.
#[inline(always)]
#[tactic(auto, unfolding(kr_mean::specs::Steps::bind))]
pub(crate) fn read_first(
    code: &Code,
    world: &mut World,
    stack: &mut Stack,
    frame: ValueFrame,
    node: u32,
    task: &mut Task,
) -> Result<(), Halt>
    ensures { Leads code.now (next_task result task.new) stack.new world.new world.old (λ d x. out_value code.now d stack.old (bind (d.value node) (got code.now d frame) (state_at world.old x))) }
{
    value(stack, frame)?;
    enter_read(code, world, stack, node, task)
}
