// An expression is entered: what comes next, and the frames that wait for it.
ghost use Rattle.std.specs.Prelude.{◌≡◌, [], ◌∷◌};
ghost use Rattle.kr_mean.specs.Operators.{operated as operated_step};
ghost use Rattle.kr_mean.specs.Steps.{bind, collect as collect_step, element as element_step, say};
ghost use Rattle.kr_code.specs.Collections.{name_of};
ghost use Rattle.kr_code.specs.Steps.{load_named};
ghost use Rattle.kr_code.specs.Doing.{value_done, call, assigned, changed, values_at};
ghost use Rattle.kr_run_frames.specs.Frames.{out_value, change_of};
ghost use Rattle.kr_run_frames.specs.Leads.{Leads, next_task};
ghost use Rattle.kr_run_state.specs.Worlds.{state_at};
ghost use Rattle.kr_code.specs.Tables.{expression_of, listed, node_at};

use crate::pushes::{await_arguments, first, then_write, write};
use crate::reads::read_first;
use crate::values::{feed, take_array, take_left};
use crate::variables::{assign_local, step_local};
use kr_code::{Callee, Code, CollectionCall, Expression, Nodes, Variable};
use kr_mean::{BinaryOperation, Stop};
use kr_run_frames::{Change, Goal, Stack, Task, ValueFrame, WriteFrame};
use kr_run_known::{at_once, expression_at};
use kr_run_state::{Action, Cell, Halt, World, collect, tick};
use kr_value::{Class, Value};
use std::alloc::Global;

/// A call: its arguments come first.
#[tactic(auto, unfolding(kr_mean::specs::Steps::bind))]
fn enter_call(
    alloc: Global,
    code: &Code,
    world: &World,
    stack: &mut Stack,
    callee: Callee,
    arguments: Nodes,
    task: &mut Task,
) -> Result<(), Halt>
    ensures { Leads code.now (next_task result task.new) stack.new world.now world.now (λ d x. out_value code.now d stack.old (call code.now d callee (listed code.now arguments) (state_at world.now x))) }
{
    let goal = match callee {
        Callee::Unknown => Goal::Stop,
        Callee::Static(method) => Goal::Run(Value::Null, Some(method)),
        Callee::Own(method) => Goal::Own(method),
        Callee::Super(method) => Goal::Run(world.this, method),
        Callee::New(class) => Goal::New(class),
        Callee::NewSet => Goal::NewCollection(Class::Set),
        Callee::NewList => Goal::NewCollection(Class::List),
    };
    await_arguments(stack, goal, arguments, &[])?;
    *task = Task::Arguments;
    Ok(())
}

/// An assignment.
#[tactic(auto, unfolding(kr_mean::specs::Steps::bind))]
fn enter_assignment(
    code: &Code,
    world: &mut World,
    stack: &mut Stack,
    variable: Variable,
    node: u32,
    task: &mut Task,
) -> Result<(), Halt>
    ensures { Leads code.now (next_task result task.new) stack.new world.new world.old (λ d x. out_value code.now d stack.old (assigned code.now d variable (d.value node) (state_at world.old x))) }
{
    match variable {
        Variable::Unknown => {
            *task = Task::Act(Action::End(Stop::Stuck));
            Ok(())
        }
        Variable::Local(local) => assign_local(code, world, stack, local, node, task),
        Variable::Own { field, .. } => then_write(stack, WriteFrame::PutOwn(field), node, task),
        Variable::Of { object, field, .. } => then_write(
            stack,
            WriteFrame::FieldOf(field, node),
            object,
            task,
        ),
        Variable::Element {
            array,
            index,
            class,
        } => then_write(stack, WriteFrame::ItemOf(index, node, class), array, task),
    }
}

/// A variable that changes.
#[tactic(auto, unfolding(kr_mean::specs::Steps::bind))]
fn enter_change(
    code: &Code,
    world: &mut World,
    stack: &mut Stack,
    variable: Variable,
    change: Change,
    task: &mut Task,
) -> Result<(), Halt>
    ensures { Leads code.now (next_task result task.new) stack.new world.new world.old (λ d x. out_value code.now d stack.old (changed code.now d variable (change_of d change) (state_at world.old x))) }
{
    match variable {
        Variable::Unknown => {
            *task = Task::Act(Action::End(Stop::Stuck));
            Ok(())
        }
        Variable::Local(local) => match change {
            Change::Step(step) => step_local(code, world, stack, local, step, task),
            Change::Compound(_, _) => {
                write(stack, WriteFrame::Alter(change, Cell::Local(local)))?;
                *task = Task::Act(Action::ReadLocal(local));
                Ok(())
            }
        },
        Variable::Own { name, field } => {
            let this = world.this;
            write(stack, WriteFrame::Alter(change, Cell::Field(field, this)))?;
            *task = Task::Act(Action::Load(name, this));
            Ok(())
        }
        Variable::Of {
            object,
            name,
            field,
        } => then_write(
            stack,
            WriteFrame::AlterField(change, name, field),
            object,
            task,
        ),
        Variable::Element {
            array,
            index,
            class,
        } => then_write(
            stack,
            WriteFrame::AlterItemOf(change, index, class),
            array,
            task,
        ),
    }
}

/// The field of an object, which comes next, unless it is known.
#[inline(always)]
pub(crate) fn enter_field(
    code: &Code,
    world: &mut World,
    stack: &mut Stack,
    object: u32,
    name: u32,
    task: &mut Task,
) -> Result<(), Halt>
    ensures { Leads code.now (next_task result task.new) stack.new world.new world.old (λ d x. out_value code.now d stack.old (bind (d.value object) (load_named code.now name) (state_at world.old x))) }
{
    match at_once(code, world, object) {
        Some(value) => {
            *task = Task::Act(Action::Load(name, value));
            Ok(())
        }
        None => first(stack, ValueFrame::Load(name), object, task),
    }
}

/// An element of an array, which comes next, unless it is known.
pub(crate) fn enter_element(
    code: &Code,
    world: &mut World,
    stack: &mut Stack,
    array: u32,
    index: u32,
    task: &mut Task,
) -> Result<(), Halt>
    ensures { Leads code.now (next_task result task.new) stack.new world.new world.old (λ d x. out_value code.now d stack.old (bind (d.value array) (λ o. bind (d.value index) (element_step o)) (state_at world.old x))) }
{
    match at_once(code, world, array) {
        Some(value) => take_array(code, world, stack, index, value, task),
        None => first(stack, ValueFrame::ElementOf(index), array, task),
    }
}

/// An operator with two operands, the left one of which comes next, unless it is known.
fn enter_binary(
    code: &Code,
    world: &mut World,
    stack: &mut Stack,
    operation: BinaryOperation,
    left: u32,
    right: u32,
    task: &mut Task,
) -> Result<(), Halt>
    ensures { Leads code.now (next_task result task.new) stack.new world.new world.old (λ d x. out_value code.now d stack.old (bind (d.value left) (λ v. bind (d.value right) (λ w. say (operated_step operation v w))) (state_at world.old x))) }
{
    match at_once(code, world, left) {
        Some(value) => take_left(code, world, stack, operation, right, value, task),
        None => read_first(
            code,
            world,
            stack,
            ValueFrame::Left(operation, right),
            left,
            task,
        ),
    }
}

/// A call on a collection, with arguments that are there.
fn collected(
    code: &Code,
    world: &mut World,
    stack: &mut Stack,
    call: CollectionCall,
    object: Value,
    arguments: &[Value],
    task: &mut Task,
) -> Result<(), Halt>
    ensures { Leads code.now (next_task result task.new) stack.new world.new world.old (λ d x. out_value code.now d stack.old (collect_step (name_of call) object arguments.now (state_at world.old x))) }
{
    match collect(world, call, object, arguments) {
        Ok(given) => feed(code, world, stack, given, task),
        Err(halt) => Err(halt),
    }
}

/// A call on a collection with one argument.
fn collected_with(
    code: &Code,
    world: &mut World,
    stack: &mut Stack,
    call: CollectionCall,
    object: Value,
    argument: Value,
    task: &mut Task,
) -> Result<(), Halt>
    ensures { Leads code.now (next_task result task.new) stack.new world.new world.old (λ d x. out_value code.now d stack.old (collect_step (name_of call) object (argument ∷ []) (state_at world.old x))) }
{
    collected(code, world, stack, call, object, &[argument], task)
}

/// A call on a collection with one argument, which comes first, unless it is known.
fn collect_one(
    alloc: Global,
    code: &Code,
    world: &mut World,
    stack: &mut Stack,
    call: CollectionCall,
    object: Value,
    arguments: Nodes,
    node: u32,
    task: &mut Task,
) -> Result<(), Halt>
    requires { listed code.now arguments ≡ node ∷ [] }
    ensures { Leads code.now (next_task result task.new) stack.new world.new world.old (λ d x. out_value code.now d stack.old (bind (values_at d (listed code.now arguments)) (collect_step (name_of call) object) (state_at world.old x))) }
{
    match at_once(code, world, node) {
        Some(argument) => collected_with(code, world, stack, call, object, argument, task),
        None => collect_later(alloc, code, world, stack, call, object, arguments, task),
    }
}

/// A call on a collection: its arguments come first, unless there is none.
#[tactic(auto, using(crate::proofs::Going::one_listed))]
fn collect_next(
    alloc: Global,
    code: &Code,
    world: &mut World,
    stack: &mut Stack,
    call: CollectionCall,
    object: Value,
    arguments: Nodes,
    task: &mut Task,
) -> Result<(), Halt>
    ensures { Leads code.now (next_task result task.new) stack.new world.new world.old (λ d x. out_value code.now d stack.old (bind (values_at d (listed code.now arguments)) (collect_step (name_of call) object) (state_at world.old x))) }
{
    match code.split(arguments) {
        None => collected(code, world, stack, call, object, &[], task),
        Some((node, others)) => {
            if others.count == 0 {
                collect_one(
                    alloc, code, world, stack, call, object, arguments, node, task,
                )
            } else {
                collect_later(alloc, code, world, stack, call, object, arguments, task)
            }
        }
    }
}

/// A call on a collection, whose arguments come first.
#[tactic(auto, unfolding(kr_mean::specs::Steps::bind))]
fn collect_later(
    alloc: Global,
    code: &Code,
    world: &World,
    stack: &mut Stack,
    call: CollectionCall,
    object: Value,
    arguments: Nodes,
    task: &mut Task,
) -> Result<(), Halt>
    ensures { Leads code.now (next_task result task.new) stack.new world.now world.now (λ d x. out_value code.now d stack.old (bind (values_at d (listed code.now arguments)) (collect_step (name_of call) object) (state_at world.now x))) }
{
    await_arguments(stack, Goal::Collect(call, object), arguments, &[])?;
    *task = Task::Arguments;
    Ok(())
}

/// A call on a collection, which comes next, unless it is known.
fn enter_collection(
    alloc: Global,
    code: &Code,
    world: &mut World,
    stack: &mut Stack,
    object: u32,
    call: CollectionCall,
    arguments: Nodes,
    task: &mut Task,
) -> Result<(), Halt>
    ensures { Leads code.now (next_task result task.new) stack.new world.new world.old (λ d x. out_value code.now d stack.old (bind (d.value object) (λ o. bind (values_at d (listed code.now arguments)) (collect_step (name_of call) o)) (state_at world.old x))) }
{
    match at_once(code, world, object) {
        Some(value) => collect_next(alloc, code, world, stack, call, value, arguments, task),
        None => first(
            stack,
            ValueFrame::CallCollection(call, arguments),
            object,
            task,
        ),
    }
}

/// An expression, after its unit.
#[inline(always)]
#[tactic(auto, unfolding(kr_mean::specs::Steps::bind))]
fn enter_expression(
    alloc: Global,
    code: &Code,
    world: &mut World,
    stack: &mut Stack,
    expression: &Expression,
    task: &mut Task,
) -> Result<(), Halt>
    ensures { Leads code.now (next_task result task.new) stack.new world.new world.old (λ d x. out_value code.now d stack.old (value_done code.now d expression.now (state_at world.old x))) }
{
    match expression {
        Expression::Stuck => {
            *task = Task::Act(Action::End(Stop::Stuck));
            Ok(())
        }
        Expression::Literal(literal) => {
            *task = Task::Got(*literal);
            Ok(())
        }
        Expression::This => {
            *task = Task::Act(Action::This);
            Ok(())
        }
        Expression::Local(local) => {
            *task = Task::Act(Action::ReadLocal(*local));
            Ok(())
        }
        Expression::OwnField(name) => {
            *task = Task::Act(Action::Load(*name, world.this));
            Ok(())
        }
        Expression::FieldOf { object, name } => enter_field(
            code, world, stack, *object, *name, task,
        ),
        Expression::Element { array, index } => enter_element(
            code, world, stack, *array, *index, task,
        ),
        Expression::Call { callee, arguments } => {
            enter_call(alloc, code, world, stack, *callee, *arguments, task)
        }
        Expression::CallOn {
            object,
            method,
            arguments,
        } => first(
            stack,
            ValueFrame::CallOn(*method, *arguments),
            *object,
            task,
        ),
        Expression::StaticCallOn {
            object,
            method,
            arguments,
        } => first(
            stack,
            ValueFrame::StaticCallOn(*method, *arguments),
            *object,
            task,
        ),
        Expression::CallCollection {
            object,
            call,
            arguments,
        } => enter_collection(alloc, code, world, stack, *object, *call, *arguments, task),
        Expression::NewArray {
            class,
            default,
            length,
        } => first(stack, ValueFrame::NewArray(*class, *default), *length, task),
        Expression::Unary { operation, operand } => first(
            stack,
            ValueFrame::Unary(*operation),
            *operand,
            task,
        ),
        Expression::And { left, right } => first(stack, ValueFrame::AndThen(*right), *left, task),
        Expression::Or { left, right } => first(stack, ValueFrame::OrElse(*right), *left, task),
        Expression::Binary {
            operation,
            left,
            right,
        } => enter_binary(code, world, stack, *operation, *left, *right, task),
        Expression::InstanceOf { operand, class } => first(
            stack,
            ValueFrame::Instance(*class),
            *operand,
            task,
        ),
        Expression::Conditional {
            condition,
            then,
            otherwise,
        } => first(
            stack,
            ValueFrame::Choose(*then, *otherwise),
            *condition,
            task,
        ),
        Expression::Cast { class, operand } => first(
            stack,
            ValueFrame::Cast(*class),
            *operand,
            task,
        ),
        Expression::Convert { operand, .. } => {
            *task = Task::Evaluate(*operand);
            Ok(())
        }
        Expression::Assign {
            variable,
            value: node,
        } => enter_assignment(code, world, stack, *variable, *node, task),
        Expression::Compound {
            operation,
            variable,
            value: node,
        } => enter_change(
            code,
            world,
            stack,
            *variable,
            Change::Compound(*operation, *node),
            task,
        ),
        Expression::Step {
            operation,
            variable,
        } => {
            enter_change(
                code,
                world,
                stack,
                *variable,
                Change::Step(*operation),
                task,
            )
        }
        Expression::Result => {
            *task = Task::Act(Action::Result);
            Ok(())
        }
        Expression::Old(place) => {
            *task = Task::Act(Action::Old(*place));
            Ok(())
        }
    }
}

/// A node as an expression, after its unit.
#[inline(always)]
fn enter_ticked(
    alloc: Global,
    code: &Code,
    world: &mut World,
    stack: &mut Stack,
    node: u32,
    task: &mut Task,
) -> Result<(), Halt>
    ensures { Leads code.now (next_task result task.new) stack.new world.new world.old (λ d x. out_value code.now d stack.old (value_done code.now d (expression_of (node_at code.now node)) (state_at world.old x))) }
{
    match expression_at(code, node) {
        None => {
            *task = Task::Act(Action::End(Stop::Stuck));
            Ok(())
        }
        Some(expression) => enter_expression(alloc, code, world, stack, expression, task),
    }
}

/// A unit of fuel, and then the expression, part by part.
#[inline(always)]
#[tactic(auto, unfolding(kr_mean::specs::Steps::bind))]
pub fn enter_node(
    alloc: Global,
    code: &Code,
    world: &mut World,
    stack: &mut Stack,
    node: u32,
    task: &mut Task,
) -> Result<(), Halt>
    ensures { Leads code.now (next_task result task.new) stack.new world.new world.old (λ d x. out_value code.now d stack.old (d.value node (state_at world.old x))) }
{
    match tick(world) {
        Err(halt) => Err(halt),
        Ok(_) => enter_ticked(alloc, code, world, stack, node, task),
    }
}
