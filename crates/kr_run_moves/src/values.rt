// A frame receives a value.
ghost use Rattle.std.specs.Prelude.{◌≡◌, true};
ghost use Rattle.kr_value.specs.declared.value.Value.TheVariants.{Bool as Truth};
ghost use Rattle.kr_mean.specs.declared.kind.Stop.TheVariants.{Stuck};
ghost use Rattle.kr_mean.specs.Operators.{operated as operated_step, operated_alone as alone_step};
ghost use Rattle.kr_mean.specs.Steps.{assign as assign_step, bind, give, say, stop as stop_step};
ghost use Rattle.kr_code.specs.Doing.{all_declared};
ghost use Rattle.kr_code.specs.Tables.{listed};
ghost use Rattle.kr_mean.specs.Steps.{element as element_step};
ghost use Rattle.kr_run_frames.specs.declared.frame.WriteFrame.TheVariants as writes;
ghost use Rattle.kr_run_frames.specs.declared.frame.TestFrame.TheVariants as tests;
ghost use Rattle.kr_run_frames.specs.Frames.{out_value, out_flow, got, wrote, tested, test_of, turned};
ghost use Rattle.kr_run_frames.specs.Leads.{Leads, next_task};
ghost use Rattle.kr_run_state.specs.Worlds.{state_at};

use crate::expressions::enter_node;
use crate::pushes::{await_arguments, first, flow, test, then_write, value, write};
use crate::reads::read_first;
use crate::variables::{gives_old, store_local};
use kr_ast::StepOperator;
use kr_code::{Code, Nodes};
use kr_mean::{BinaryOperation, Flow, Stop, UnaryOperation};
use kr_run_frames::{
    FlowFrame, Goal, Loop, Stack, Task, TestFrame, ValueFrame, Waiting, WriteFrame,
};
use kr_run_known::at_once;
use kr_run_state::{Action, Cell, Halt, World, assign, operated, operated_alone};
use kr_value::Value;
use std::alloc::Global;

/// A variable's next value, by one more or one less.
#[tactic(auto, using(crate::proofs::Moves::steps_on), unfolding(kr_mean::specs::Steps::bind))]
fn take_stepped(
    code: &Code,
    world: &World,
    stack: &Stack,
    operator: StepOperator,
    cell: Cell,
    old: Value,
    given: Value,
    task: &mut Task,
) -> Result<(), Halt>
    ensures { Leads code.now (next_task result task.new) stack.now world.now world.now (λ d x. out_value code.now d stack.now (wrote code.now d (writes.Stepped operator cell old) given (state_at world.now x))) }
{
    if gives_old(operator) {
        *task = Task::Act(Action::Write(cell, given, old));
        Ok(())
    } else {
        *task = Task::Act(Action::Write(cell, given, given));
        Ok(())
    }
}

/// A value from which a variable is written.
#[tactic(auto, unfolding(kr_mean::specs::Steps::bind))]
fn take_write(
    code: &Code,
    world: &World,
    stack: &mut Stack,
    frame: WriteFrame,
    given: Value,
    task: &mut Task,
) -> Result<(), Halt>
    ensures { Leads code.now (next_task result task.new) stack.new world.now world.now (λ d x. out_value code.now d stack.old (wrote code.now d frame given (state_at world.now x))) }
{
    match frame {
        WriteFrame::Put(cell) => {
            *task = Task::Act(Action::Write(cell, given, given));
            Ok(())
        }
        WriteFrame::PutOwn(field) => {
            *task = Task::Act(Action::Write(Cell::Field(field, world.this), given, given));
            Ok(())
        }
        WriteFrame::FieldOf(field, node) => then_write(
            stack,
            WriteFrame::Put(Cell::Field(field, given)),
            node,
            task,
        ),
        WriteFrame::ItemOf(index, node, class) => then_write(
            stack,
            WriteFrame::ItemAt(node, class, given),
            index,
            task,
        ),
        WriteFrame::ItemAt(node, class, array) => then_write(
            stack,
            WriteFrame::Put(Cell::Item(class, array, given)),
            node,
            task,
        ),
        WriteFrame::AlterField(change, name, field) => {
            write(stack, WriteFrame::Alter(change, Cell::Field(field, given)))?;
            *task = Task::Act(Action::Load(name, given));
            Ok(())
        }
        WriteFrame::AlterItemOf(change, index, class) => then_write(
            stack,
            WriteFrame::AlterItemAt(change, class, given),
            index,
            task,
        ),
        WriteFrame::AlterItemAt(change, class, array) => {
            write(
                stack,
                WriteFrame::Alter(change, Cell::Item(class, array, given)),
            )?;
            *task = Task::Act(Action::Element(array, given));
            Ok(())
        }
        WriteFrame::Stepped(operator, cell, old) => {
            take_stepped(code, world, stack, operator, cell, old, given, task)
        }
        WriteFrame::Alter(change, cell) => {
            *task = Task::Alter(change, cell, given);
            Ok(())
        }
    }
}

/// The topmost frame receives a value, where it is a test; otherwise the value is the next task.
#[tactic(auto, unfolding(kr_mean::specs::Steps::bind))]
pub(crate) fn feed_test(
    code: &Code,
    world: &World,
    stack: &mut Stack,
    given: Value,
    task: &mut Task,
) -> Result<(), Halt>
    ensures { Leads code.now (next_task result task.new) stack.new world.now world.now (λ d x. out_value code.now d stack.old (give given (state_at world.now x))) }
{
    let Some(top) = stack.top() else {
        *task = Task::Got(given);
        return Ok(());
    };
    match *top {
        Waiting::Test(frame) => {
            stack.drop_plain();
            return take_test(code, world, stack, frame, given, task);
        }
        _ => {
            *task = Task::Got(given);
            return Ok(());
        }
    }
}

/// No declarators are left.
#[inline(always)]
fn declare_none(
    code: &Code,
    world: &World,
    stack: &Stack,
    others: Nodes,
    task: &mut Task,
) -> Result<(), Halt>
    requires { others.count ≡ 0 }
    ensures { Leads code.now (next_task result task.new) stack.now world.now world.now (λ d x. out_flow code.now d stack.now (all_declared code.now d (listed code.now others) (state_at world.now x))) }
{
    *task = Task::Led(Flow::Next);
    Ok(())
}

/// The other declarators come next, if there are any.
#[inline(always)]
fn declare_rest(
    code: &Code,
    world: &World,
    stack: &Stack,
    others: Nodes,
    task: &mut Task,
) -> Result<(), Halt>
    ensures { Leads code.now (next_task result task.new) stack.now world.now world.now (λ d x. out_flow code.now d stack.now (all_declared code.now d (listed code.now others) (state_at world.now x))) }
{
    if others.count == 0 {
        return declare_none(code, world, stack, others, task);
    }
    *task = Task::Declare(others);
    Ok(())
}

/// A local gets its initial value, and the other declarators come next.
#[inline(always)]
fn take_initial(
    code: &Code,
    world: &mut World,
    stack: &Stack,
    local: u32,
    others: Nodes,
    given: Value,
    task: &mut Task,
) -> Result<(), Halt>
    ensures { Leads code.now (next_task result task.new) stack.now world.new world.old (λ d x. out_flow code.now d stack.now (tested code.now d (tests.Initial local others) given (state_at world.old x))) }
{
    match assign(world, local, given, given) {
        Ok(_) => declare_rest(code, &*world, stack, others, task),
        Err(halt) => Err(halt),
    }
}

/// The topmost frame receives a value, where it is an operator, a test or an assignment of a local; otherwise the value is the
/// next task.
#[tactic(auto, unfolding(kr_mean::specs::Steps::bind))]
pub fn feed(
    code: &Code,
    world: &mut World,
    stack: &mut Stack,
    given: Value,
    task: &mut Task,
) -> Result<(), Halt>
    ensures { Leads code.now (next_task result task.new) stack.new world.new world.old (λ d x. out_value code.now d stack.old (give given (state_at world.old x))) }
{
    let Some(top) = stack.top() else {
        *task = Task::Got(given);
        return Ok(());
    };
    match *top {
        Waiting::Value(ValueFrame::Unary(operation)) => {
            stack.drop_plain();
            return operate_alone(code, world, stack, operation, given, task);
        }
        Waiting::Value(ValueFrame::Left(operation, right)) => {
            stack.drop_plain();
            return take_left(code, world, stack, operation, right, given, task);
        }
        Waiting::Value(ValueFrame::Right(operation, left)) => {
            stack.drop_plain();
            return operate(code, world, stack, operation, left, given, task);
        }
        Waiting::Value(ValueFrame::Write(WriteFrame::Put(Cell::Local(local)))) => {
            stack.drop_plain();
            return store_local(code, world, stack, local, given, given, task);
        }
        Waiting::Test(TestFrame::Initial(local, others)) => {
            stack.drop_plain();
            return take_initial(code, world, stack, local, others, given, task);
        }
        Waiting::Test(frame) => {
            stack.drop_plain();
            return take_test(code, world, stack, frame, given, task);
        }
        _ => {
            *task = Task::Got(given);
            return Ok(());
        }
    }
}

/// An operator has its operand.
#[inline(always)]
fn operate_alone(
    code: &Code,
    world: &World,
    stack: &mut Stack,
    operation: UnaryOperation,
    given: Value,
    task: &mut Task,
) -> Result<(), Halt>
    ensures { Leads code.now (next_task result task.new) stack.new world.now world.now (λ d x. out_value code.now d stack.old (say (alone_step operation given) (state_at world.now x))) }
{
    match operated_alone(world, operation, given) {
        Ok(value) => feed_test(code, world, stack, value, task),
        Err(halt) => Err(halt),
    }
}

/// An operator has its operands.
#[inline(always)]
fn operate(
    code: &Code,
    world: &World,
    stack: &mut Stack,
    operation: BinaryOperation,
    left: Value,
    right: Value,
    task: &mut Task,
) -> Result<(), Halt>
    ensures { Leads code.now (next_task result task.new) stack.new world.now world.now (λ d x. out_value code.now d stack.old (say (operated_step operation left right) (state_at world.now x))) }
{
    match operated(world, operation, left, right) {
        Ok(value) => feed_test(code, world, stack, value, task),
        Err(halt) => Err(halt),
    }
}

/// An operator has its left operand; the right one comes next, unless it is known.
#[inline(always)]
pub(crate) fn take_left(
    code: &Code,
    world: &mut World,
    stack: &mut Stack,
    operation: BinaryOperation,
    right: u32,
    given: Value,
    task: &mut Task,
) -> Result<(), Halt>
    ensures { Leads code.now (next_task result task.new) stack.new world.new world.old (λ d x. out_value code.now d stack.old (bind (d.value right) (λ w. say (operated_step operation given w)) (state_at world.old x))) }
{
    match at_once(code, world, right) {
        Some(value) => operate(code, world, stack, operation, given, value, task),
        None => read_first(
            code,
            world,
            stack,
            ValueFrame::Right(operation, given),
            right,
            task,
        ),
    }
}

/// An array is there; the index comes next, unless it is known.
pub(crate) fn take_array(
    code: &Code,
    world: &mut World,
    stack: &mut Stack,
    index: u32,
    array: Value,
    task: &mut Task,
) -> Result<(), Halt>
    ensures { Leads code.now (next_task result task.new) stack.new world.new world.old (λ d x. out_value code.now d stack.old (bind (d.value index) (element_step array) (state_at world.old x))) }
{
    match at_once(code, world, index) {
        Some(at) => {
            *task = Task::Act(Action::Element(array, at));
            Ok(())
        }
        None => first(stack, ValueFrame::ElementAt(array), index, task),
    }
}

/// A value of which a value is made.
#[inline(always)]
#[tactic(auto, unfolding(kr_mean::specs::Steps::bind))]
pub fn take_value(
    alloc: Global,
    code: &Code,
    world: &mut World,
    stack: &mut Stack,
    frame: ValueFrame,
    given: Value,
    task: &mut Task,
) -> Result<(), Halt>
    ensures { Leads code.now (next_task result task.new) stack.new world.new world.old (λ d x. out_value code.now d stack.old (got code.now d frame given (state_at world.old x))) }
{
    match frame {
        ValueFrame::Load(name) => {
            *task = Task::Act(Action::Load(name, given));
            Ok(())
        }
        ValueFrame::ElementOf(index) => take_array(code, world, stack, index, given, task),
        ValueFrame::ElementAt(array) => {
            *task = Task::Act(Action::Element(array, given));
            Ok(())
        }
        ValueFrame::Unary(operation) => operate_alone(code, world, stack, operation, given, task),
        ValueFrame::Left(operation, right) => {
            take_left(code, world, stack, operation, right, given, task)
        }
        ValueFrame::Right(operation, left) => operate(
            code, world, stack, operation, left, given, task,
        ),
        ValueFrame::AndThen(right) => match given {
            Value::Bool(true) => {
                *task = Task::Evaluate(right);
                Ok(())
            }
            Value::Bool(false) => {
                *task = Task::Got(Value::Bool(false));
                Ok(())
            }
            _ => {
                *task = Task::Act(Action::End(Stop::Stuck));
                Ok(())
            }
        },
        ValueFrame::OrElse(right) => match given {
            Value::Bool(true) => {
                *task = Task::Got(Value::Bool(true));
                Ok(())
            }
            Value::Bool(false) => {
                *task = Task::Evaluate(right);
                Ok(())
            }
            _ => {
                *task = Task::Act(Action::End(Stop::Stuck));
                Ok(())
            }
        },
        ValueFrame::Choose(then, otherwise) => match given {
            Value::Bool(true) => {
                *task = Task::Evaluate(then);
                Ok(())
            }
            Value::Bool(false) => {
                *task = Task::Evaluate(otherwise);
                Ok(())
            }
            _ => {
                *task = Task::Act(Action::End(Stop::Stuck));
                Ok(())
            }
        },
        ValueFrame::Instance(class) => {
            *task = Task::Act(Action::Instance(class, given));
            Ok(())
        }
        ValueFrame::Cast(class) => {
            *task = Task::Act(Action::Cast(class, given));
            Ok(())
        }
        ValueFrame::NewArray(class, default) => {
            *task = Task::Act(Action::NewArray(class, default, given));
            Ok(())
        }
        ValueFrame::CallOn(method, arguments) => {
            await_arguments(stack, Goal::On(method, given), arguments, &[])?;
            *task = Task::Arguments;
            Ok(())
        }
        ValueFrame::StaticCallOn(method, arguments) => {
            await_arguments(stack, Goal::StaticOn(method, given), arguments, &[])?;
            *task = Task::Arguments;
            Ok(())
        }
        ValueFrame::CallCollection(call, arguments) => {
            await_arguments(stack, Goal::Collect(call, given), arguments, &[])?;
            *task = Task::Arguments;
            Ok(())
        }
        ValueFrame::Write(writing) => take_write(code, world, stack, writing, given, task),
    }
}

/// A task without meaning: the frame will receive no value.
#[inline(always)]
#[tactic(auto, unfolding(kr_mean::specs::Steps::bind))]
pub fn stop(code: &Code, world: &World, stack: &mut Stack, task: &mut Task) -> Result<(), Halt>
    ensures { Leads code.now (next_task result task.new) stack.new world.now world.now (λ d x. out_flow code.now d stack.old (stop_step Stuck (state_at world.now x))) }
{
    test(stack, TestFrame::Discard)?;
    *task = Task::Act(Action::End(Stop::Stuck));
    Ok(())
}

/// A loop's test.
#[tactic(auto, unfolding(kr_mean::specs::Steps::bind))]
fn begin(
    code: &Code,
    world: &World,
    stack: &mut Stack,
    turn: Loop,
    task: &mut Task,
) -> Result<(), Halt>
    ensures { Leads code.now (next_task result task.new) stack.new world.now world.now (λ d x. out_flow code.now d stack.old (bind (test_of d turn) (turned code.now d turn) (state_at world.now x))) }
{
    test(stack, TestFrame::Test(turn))?;
    match turn {
        Loop::While(condition, _) => {
            *task = Task::Evaluate(condition);
            Ok(())
        }
        Loop::For(Some(condition), _, _) => {
            *task = Task::Evaluate(condition);
            Ok(())
        }
        Loop::For(None, _, _) => {
            *task = Task::Got(Value::Bool(true));
            Ok(())
        }
    }
}

/// A round's body, and then the next round.
#[inline(always)]
#[tactic(auto, unfolding(kr_mean::specs::Steps::bind))]
fn turn_round(
    code: &Code,
    world: &World,
    stack: &mut Stack,
    turn: Loop,
    task: &mut Task,
) -> Result<(), Halt>
    ensures { Leads code.now (next_task result task.new) stack.new world.now world.now (λ d x. out_flow code.now d stack.old (turned code.now d turn (Truth true) (state_at world.now x))) }
{
    flow(stack, FlowFrame::Again(turn))?;
    match turn {
        Loop::While(_, body) => {
            *task = Task::Execute(body);
            Ok(())
        }
        Loop::For(_, updates, body) => {
            flow(stack, FlowFrame::Update(updates))?;
            *task = Task::Execute(body);
            Ok(())
        }
    }
}

/// A local's initial value comes next, and then the other declarators.
#[tactic(auto, using(crate::proofs::Moves::assoc), unfolding(kr_mean::specs::Steps::bind))]
fn take_declared(
    code: &Code,
    world: &World,
    stack: &mut Stack,
    local: u32,
    initial: Option<u32>,
    others: Nodes,
    given: Value,
    task: &mut Task,
) -> Result<(), Halt>
    ensures { Leads code.now (next_task result task.new) stack.new world.now world.now (λ d x. out_flow code.now d stack.old (tested code.now d (tests.Declared local initial others) given (state_at world.now x))) }
{
    match initial {
        None => {
            *task = Task::Declare(others);
            Ok(())
        }
        Some(node) => {
            test(stack, TestFrame::Initial(local, others))?;
            *task = Task::Evaluate(node);
            Ok(())
        }
    }
}

/// A value that leads on.
#[inline(always)]
#[tactic(auto, unfolding(kr_mean::specs::Steps::bind))]
pub fn take_test(
    code: &Code,
    world: &World,
    stack: &mut Stack,
    frame: TestFrame,
    given: Value,
    task: &mut Task,
) -> Result<(), Halt>
    ensures { Leads code.now (next_task result task.new) stack.new world.now world.now (λ d x. out_flow code.now d stack.old (tested code.now d frame given (state_at world.now x))) }
{
    match frame {
        TestFrame::Then(then) => match given {
            Value::Bool(true) => {
                *task = Task::Execute(then);
                Ok(())
            }
            Value::Bool(false) => {
                *task = Task::Led(Flow::Next);
                Ok(())
            }
            _ => stop(code, world, stack, task),
        },
        TestFrame::Branch(then, otherwise) => match given {
            Value::Bool(true) => {
                *task = Task::Execute(then);
                Ok(())
            }
            Value::Bool(false) => {
                *task = Task::Execute(otherwise);
                Ok(())
            }
            _ => stop(code, world, stack, task),
        },
        TestFrame::Discard => {
            *task = Task::Led(Flow::Next);
            Ok(())
        }
        TestFrame::Return => {
            *task = Task::Led(Flow::Gave(given));
            Ok(())
        }
        TestFrame::Throw => {
            *task = Task::Throw(given);
            Ok(())
        }
        TestFrame::Initial(local, others) => {
            test(stack, TestFrame::Rest(others))?;
            *task = Task::Act(Action::Write(Cell::Local(local), given, given));
            Ok(())
        }
        TestFrame::Declared(local, initial, others) => {
            take_declared(code, world, stack, local, initial, others, given, task)
        }
        TestFrame::Rest(others) => {
            *task = Task::Declare(others);
            Ok(())
        }
        TestFrame::Updates(others) => {
            *task = Task::Update(others);
            Ok(())
        }
        TestFrame::Begin(turn) => begin(code, world, stack, turn, task),
        TestFrame::Test(turn) => match given {
            Value::Bool(true) => turn_round(code, world, stack, turn, task),
            Value::Bool(false) => {
                *task = Task::Led(Flow::Next);
                Ok(())
            }
            _ => stop(code, world, stack, task),
        },
    }
}

/// A test's value comes next; where it is known, the frame has it at once.
pub(crate) fn test_next(
    alloc: Global,
    code: &Code,
    world: &mut World,
    stack: &mut Stack,
    frame: TestFrame,
    node: u32,
    task: &mut Task,
) -> Result<(), Halt>
    ensures { Leads code.now (next_task result task.new) stack.new world.new world.old (λ d x. out_flow code.now d stack.old (bind (d.value node) (tested code.now d frame) (state_at world.old x))) }
{
    match at_once(code, world, node) {
        Some(given) => take_test(code, world, stack, frame, given, task),
        None => wait_for_test(alloc, code, world, stack, frame, node, task),
    }
}

/// A local's initial value comes next; where it is known, the local has it at once.
pub(crate) fn initial_next(
    alloc: Global,
    code: &Code,
    world: &mut World,
    stack: &mut Stack,
    local: u32,
    node: u32,
    others: Nodes,
    task: &mut Task,
) -> Result<(), Halt>
    ensures { Leads code.now (next_task result task.new) stack.new world.new world.old (λ d x. out_flow code.now d stack.old (bind (d.value node) (tested code.now d (tests.Initial local others)) (state_at world.old x))) }
{
    match at_once(code, world, node) {
        Some(given) => take_initial(code, world, stack, local, others, given, task),
        None => wait_for_test(
            alloc,
            code,
            world,
            stack,
            TestFrame::Initial(local, others),
            node,
            task,
        ),
    }
}

/// A loop's test; where its value is known, the round begins at once.
#[inline(always)]
#[tactic(auto, unfolding(kr_mean::specs::Steps::bind))]
pub(crate) fn begin_round(
    alloc: Global,
    code: &Code,
    world: &mut World,
    stack: &mut Stack,
    turn: Loop,
    task: &mut Task,
) -> Result<(), Halt>
    ensures { Leads code.now (next_task result task.new) stack.new world.new world.old (λ d x. out_flow code.now d stack.old (bind (test_of d turn) (turned code.now d turn) (state_at world.old x))) }
{
    match turn {
        Loop::While(condition, _) => {
            test_next(
                alloc,
                code,
                world,
                stack,
                TestFrame::Test(turn),
                condition,
                task,
            )
        }
        Loop::For(Some(condition), _, _) => {
            test_next(
                alloc,
                code,
                world,
                stack,
                TestFrame::Test(turn),
                condition,
                task,
            )
        }
        Loop::For(None, _, _) => begin(code, world, stack, turn, task),
    }
}

/// A test's value, which isn't known, comes next.
#[inline(always)]
#[tactic(auto, unfolding(kr_mean::specs::Steps::bind))]
pub(crate) fn wait_for_test(
    alloc: Global,
    code: &Code,
    world: &mut World,
    stack: &mut Stack,
    frame: TestFrame,
    node: u32,
    task: &mut Task,
) -> Result<(), Halt>
    ensures { Leads code.now (next_task result task.new) stack.new world.new world.old (λ d x. out_flow code.now d stack.old (bind (d.value node) (tested code.now d frame) (state_at world.old x))) }
{
    test(stack, frame)?;
    enter_node(alloc, code, world, stack, node, task)
}
