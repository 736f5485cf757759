// Locals that are assigned, stepped and initialised at once.
ghost use Rattle.std.specs.Prelude.{◌≡◌};
ghost use Rattle.kr_mean.specs.Meaning.{change_from, stepped};
ghost use Rattle.kr_mean.specs.Operators.{gives_old as gives_old_step, step_binary, step_operator as operator_of_step};
ghost use Rattle.kr_mean.specs.Steps.{assign as assign_step, bind, give, read_local as read_step};
ghost use Rattle.kr_run_frames.specs.Frames.{out_value};
ghost use Rattle.kr_run_frames.specs.Leads.{Leads, next_task};
ghost use Rattle.kr_run_state.specs.Worlds.{state_at};

use crate::pushes::write;
use crate::reads::enter_read;
use crate::values::feed_test;
use kr_ast::{BinaryOperator, StepOperator};
use kr_code::Code;
use kr_mean::{BinaryOperation, StepOperation};
use kr_run_frames::{Stack, Task, WriteFrame};
use kr_run_known::at_once;
use kr_run_state::{Cell, Halt, World, assign, operated, read_local};
use kr_value::Value;

pub(crate) fn gives_old(operator: StepOperator) -> bool
    ensures { result ≡ gives_old_step operator }
{
    match operator {
        StepOperator::IncrementBehind => true,
        StepOperator::DecrementBehind => true,
        _ => false,
    }
}

fn step_operator(operator: StepOperator) -> BinaryOperator
    ensures { result ≡ operator_of_step operator }
{
    match operator {
        StepOperator::IncrementBefore => BinaryOperator::Add,
        StepOperator::IncrementBehind => BinaryOperator::Add,
        StepOperator::DecrementBefore => BinaryOperator::Subtract,
        StepOperator::DecrementBehind => BinaryOperator::Subtract,
    }
}

/// The operator of a step, whose right operand is 1.
pub fn step_operation(step: StepOperation) -> BinaryOperation
    ensures { result ≡ step_binary step }
{
    BinaryOperation {
        operator: step_operator(step.operator),
        width: step.width,
        assigned: None,
    }
}

/// A local gets a value, and the topmost frame what is given.
#[inline(always)]
pub(crate) fn store_local(
    code: &Code,
    world: &mut World,
    stack: &mut Stack,
    local: u32,
    value: Value,
    given: Value,
    task: &mut Task,
) -> Result<(), Halt>
    ensures { Leads code.now (next_task result task.new) stack.new world.new world.old (λ d x. out_value code.now d stack.old (bind (assign_step local value) (λ u. give given) (state_at world.old x))) }
{
    match assign(world, local, value, given) {
        Ok(value) => feed_test(code, &*world, stack, value, task),
        Err(halt) => Err(halt),
    }
}

/// A local is assigned: at once where the right side is known, else after it.
pub(crate) fn assign_local(
    code: &Code,
    world: &mut World,
    stack: &mut Stack,
    local: u32,
    node: u32,
    task: &mut Task,
) -> Result<(), Halt>
    ensures { Leads code.now (next_task result task.new) stack.new world.new world.old (λ d x. out_value code.now d stack.old (bind (d.value node) (λ v. bind (assign_step local v) (λ u. give v)) (state_at world.old x))) }
{
    match at_once(code, world, node) {
        Some(given) => store_local(code, world, stack, local, given, given, task),
        None => assign_later(code, world, stack, local, node, task),
    }
}

/// The right side of an assignment isn't known: it comes next.
#[inline(always)]
#[tactic(auto, unfolding(kr_mean::specs::Steps::bind))]
fn assign_later(
    code: &Code,
    world: &mut World,
    stack: &mut Stack,
    local: u32,
    node: u32,
    task: &mut Task,
) -> Result<(), Halt>
    ensures { Leads code.now (next_task result task.new) stack.new world.new world.old (λ d x. out_value code.now d stack.old (bind (d.value node) (λ v. bind (assign_step local v) (λ u. give v)) (state_at world.old x))) }
{
    write(stack, WriteFrame::Put(Cell::Local(local)))?;
    enter_read(code, world, stack, node, task)
}

/// A local's next value is there.
fn step_to(
    code: &Code,
    world: &mut World,
    stack: &mut Stack,
    local: u32,
    operator: StepOperator,
    old: Value,
    next: Value,
    task: &mut Task,
) -> Result<(), Halt>
    ensures { Leads code.now (next_task result task.new) stack.new world.new world.old (λ d x. out_value code.now d stack.old (bind (assign_step local (change_from (gives_old_step operator) old next).new) (λ u. give (change_from (gives_old_step operator) old next).given) (state_at world.old x))) }
{
    if gives_old(operator) {
        store_local(code, world, stack, local, next, old, task)
    } else {
        store_local(code, world, stack, local, next, next, task)
    }
}

/// A local steps on from its value.
fn step_from(
    code: &Code,
    world: &mut World,
    stack: &mut Stack,
    local: u32,
    step: StepOperation,
    old: Value,
    task: &mut Task,
) -> Result<(), Halt>
    ensures { Leads code.now (next_task result task.new) stack.new world.new world.old (λ d x. out_value code.now d stack.old (bind (stepped step old) (λ c. bind (assign_step local c.new) (λ u. give c.given)) (state_at world.old x))) }
{
    match operated(&*world, step_operation(step), old, Value::Int(1)) {
        Ok(next) => step_to(code, world, stack, local, step.operator, old, next, task),
        Err(halt) => Err(halt),
    }
}

/// A local becomes one more or one less.
pub(crate) fn step_local(
    code: &Code,
    world: &mut World,
    stack: &mut Stack,
    local: u32,
    step: StepOperation,
    task: &mut Task,
) -> Result<(), Halt>
    ensures { Leads code.now (next_task result task.new) stack.new world.new world.old (λ d x. out_value code.now d stack.old (bind (read_step local) (λ v. bind (stepped step v) (λ c. bind (assign_step local c.new) (λ u. give c.given))) (state_at world.old x))) }
{
    match read_local(world, local) {
        Ok(old) => step_from(code, world, stack, local, step, old, task),
        Err(halt) => Err(halt),
    }
}
