// The machine: one task after another, until the run ends.
ghost use Rattle.std.specs.Prelude.{◌≡◌, ◌∷◌, List, MatchOption, Ok, true};
ghost use Rattle.kr_value.specs.declared.value.Value.{Value as Argument};
ghost use Rattle.kr_run_frames.specs.Frame.{Frame};
ghost use Rattle.kr_run_frames.specs.Frame as frames;
ghost use Rattle.kr_code.specs.declared.statement.Statement.TheVariants.{Declare as Declarations};
ghost use Rattle.kr_run.specs.Statements.{IsTicked};
ghost use Rattle.kr_run_frames.specs.declared.task.Task.TheVariants as tasks;
ghost use Rattle.kr_code.specs.Doing.{statement_done, flow_of};
ghost use Rattle.kr_code.specs.Steps.{store_initial as store_step};
ghost use Rattle.kr_run_frames.specs.declared.frame.Change.TheVariants as changes;
ghost use Rattle.kr_run_frames.specs.declared.frame.FlowFrame.TheVariants as flows;
ghost use Rattle.kr_run_frames.specs.Frames.{resumed, out_value, out_flow, out_unit, altered, cut_to, led, stopped};
ghost use Rattle.kr_mean.specs.Meaning.{completed};
ghost use Rattle.kr_run_state.specs.Actions.{acted};
ghost use Rattle.kr_run_frames.specs.Leads.{Leads, next_task};
ghost use Rattle.kr_mean.specs.Steps.{bind, give, tick};
ghost use Rattle.kr_run.specs.Answers.{StepsTo, Answers};
ghost use Rattle.kr_run_state.specs.Worlds.{state_at};

use crate::arguments::{next_arguments, take_argument, take_found, take_up_argument};
use crate::create::{construct, initialise, stop_unit, take_unit};
use crate::steps::Step;
use crate::unwinding::{Passing, end, is_leaving, pass_by};
use kr_base::Countdown;
use kr_code::{Code, Nodes, Statement};
use kr_mean::{BinaryOperation, Flow, Kind, Stop};
use kr_run_frames::{Change, FlowFrame, Loop, Stack, Task, ValueFrame, Waiting, WriteFrame};
use kr_run_known::{at_once, statement_at};
use kr_run_moves::{
    all, declare, enter_catch, enter_node, enter_statement, feed, repeat, step_operation,
    take_flow, take_test, take_value, throw_from, update, value, write,
};
use kr_run_state::{Action, Cell, Halt, Local, World, act, store_initial, tick};
use kr_value::Value;
use std::alloc::Global;

/// An expression: at once where its value is known, else part by part.
#[inline(always)]
fn evaluate_node(
    alloc: Global,
    code: &Code,
    world: &mut World,
    stack: &mut Stack,
    node: u32,
    task: &mut Task,
) -> Result<(), Halt>
    ensures { Leads code.now (next_task result task.new) stack.new world.new world.old (λ d x. out_value code.now d stack.old (d.value node (state_at world.old x))) }
{
    match at_once(code, world, node) {
        Some(given) => {
            *task = Task::Got(given);
            Ok(())
        }
        None => enter_node(alloc, code, world, stack, node, task),
    }
}

/// A unit of fuel, and then the statement, unless it declares.
#[inline(always)]
#[tactic(auto, unfolding(kr_mean::specs::Steps::bind))]
fn tick_statement(
    alloc: Global,
    code: &Code,
    world: &mut World,
    stack: &mut Stack,
    statement: &Statement,
    task: &mut Task,
) -> Result<(), Halt>
    ensures { Leads code.now (next_task result task.new) stack.new world.new world.old (λ d x. out_flow code.now d stack.old (bind tick (λ u. flow_of code.now d statement.now) (state_at world.old x))) }
{
    match tick(world) {
        Err(halt) => Err(halt),
        Ok(_) => enter_statement(alloc, code, world, stack, statement, task),
    }
}

/// The declarators that a statement is, if it is some. All others cost a unit first.
#[inline(always)]
fn declarators(statement: &Statement) -> Option<Nodes>
    ensures { MatchOption result (IsTicked statement.now) (λ nodes. statement.now ≡ Declarations nodes) }
{
    match statement {
        Statement::Declare(nodes) => Some(*nodes),
        Statement::Throw(_) => None,
        Statement::Try { .. } => None,
        Statement::Stuck => None,
        Statement::Empty => None,
        Statement::Block(_) => None,
        Statement::Evaluate(_) => None,
        Statement::IfThen { .. } => None,
        Statement::IfElse { .. } => None,
        Statement::While { .. } => None,
        Statement::Do { .. } => None,
        Statement::For { .. } => None,
        Statement::Break => None,
        Statement::Continue => None,
        Statement::Leave => None,
        Statement::Return(_) => None,
    }
}

/// A statement with its unit.
#[inline(always)]
#[tactic(auto, unfolding(kr_mean::specs::Steps::bind))]
fn execute_statement(
    alloc: Global,
    code: &Code,
    world: &mut World,
    stack: &mut Stack,
    statement: &Statement,
    task: &mut Task,
) -> Result<(), Halt>
    ensures { Leads code.now (next_task result task.new) stack.new world.new world.old (λ d x. out_flow code.now d stack.old (statement_done code.now d statement.now (state_at world.old x))) }
{
    match declarators(statement) {
        Some(nodes) => declare(alloc, code, world, stack, nodes, task),
        None => tick_statement(alloc, code, world, stack, statement, task),
    }
}

/// A node as a statement.
#[inline(always)]
fn execute_node(
    alloc: Global,
    code: &Code,
    world: &mut World,
    stack: &mut Stack,
    node: u32,
    task: &mut Task,
) -> Result<(), Halt>
    ensures { Leads code.now (next_task result task.new) stack.new world.new world.old (λ d x. out_flow code.now d stack.old (d.exec node (state_at world.old x))) }
{
    match statement_at(code, node) {
        None => execute_statement(alloc, code, world, stack, &Statement::Stuck, task),
        Some(statement) => execute_statement(alloc, code, world, stack, statement, task),
    }
}

/// The right operand comes next, then the operator, and then the write.
#[tactic(auto, using(crate::proofs::Machine::compounds), unfolding(kr_mean::specs::Steps::bind))]
fn alter_compound(
    code: &Code,
    world: &World,
    stack: &mut Stack,
    operation: BinaryOperation,
    node: u32,
    cell: Cell,
    old: Value,
    task: &mut Task,
) -> Result<(), Halt>
    ensures { Leads code.now (next_task result task.new) stack.new world.now world.now (λ d x. out_value code.now d stack.old (altered code.now d (changes.Compound operation node) cell old (state_at world.now x))) }
{
    write(stack, WriteFrame::Put(cell))?;
    value(stack, ValueFrame::Right(operation, old))?;
    *task = Task::Evaluate(node);
    Ok(())
}

/// A variable changes from its value.
#[tactic(auto, unfolding(kr_mean::specs::Steps::bind))]
fn alter(
    code: &Code,
    world: &World,
    stack: &mut Stack,
    change: Change,
    cell: Cell,
    old: Value,
    task: &mut Task,
) -> Result<(), Halt>
    ensures { Leads code.now (next_task result task.new) stack.new world.now world.now (λ d x. out_value code.now d stack.old (altered code.now d change cell old (state_at world.now x))) }
{
    match change {
        Change::Step(step) => {
            write(stack, WriteFrame::Stepped(step.operator, cell, old))?;
            let operation = step_operation(step);
            *task = Task::Act(Action::Binary(operation, old, Value::Int(1)));
            Ok(())
        }
        Change::Compound(operation, node) => {
            alter_compound(code, world, stack, operation, node, cell, old, task)
        }
    }
}

/// A field gets its initial value.
#[tactic(auto, unfolding(kr_mean::specs::Steps::bind))]
fn store(
    code: &Code,
    world: &mut World,
    stack: &Stack,
    field: u32,
    object: Value,
    given: Value,
    task: &mut Task,
) -> Result<(), Halt>
    ensures { Leads code.now (next_task result task.new) stack.now world.new world.old (λ d x. out_unit code.now d stack.now (store_step code.now field object given (state_at world.old x))) }
{
    match store_initial(code, world, field, object, given) {
        Ok(()) => {
            *task = Task::Done;
            Ok(())
        }
        Err(halt) => Err(halt),
    }
}

/// The topmost frame receives a value.
#[inline(always)]
#[tactic(auto, unfolding(kr_mean::specs::Steps::bind))]
fn value_frame(
    alloc: Global,
    code: &Code,
    world: &mut World,
    stack: &mut Stack,
    given: Value,
    task: &mut Task,
) -> Result<(), Halt>
    requires { (frame : Frame) × (fs : List Frame) × (stack.old ≡ frame ∷ fs) }
    ensures { Leads code.now (next_task result task.new) stack.new world.new world.old (λ d x. out_value code.now d stack.old (give given (state_at world.old x))) }
{
    let Some(top) = stack.top() else {
        return Err(Halt::Ended(Stop::Stuck));
    };
    match *top {
        Waiting::Value(waiting) => {
            stack.drop_plain();
            return take_value(alloc, code, world, stack, waiting, given, task);
        }
        Waiting::Test(waiting) => {
            stack.drop_plain();
            return take_test(code, world, stack, waiting, given, task);
        }
        Waiting::Arguments(goal, others, _) => {
            return take_argument(alloc, code, world, stack, goal, others, given, task);
        }
        Waiting::UpArguments(up, others, _) => {
            return take_up_argument(alloc, code, world, stack, up, others, given, task);
        }
        Waiting::UpEnter(up, nodes) => {
            stack.drop_plain();
            stack.push_up_arguments(up, nodes, &[])?;
            *task = Task::Arguments;
            return Ok(());
        }
        Waiting::Store(field, object) => {
            stack.drop_plain();
            return store(code, world, stack, field, object, given, task);
        }
        _ => return Err(Halt::Ended(Stop::Stuck)),
    }
}

/// A method's body ends, in a frame that has its caller's locals.
#[tactic(auto, unfolding(kr_mean::specs::Steps::bind))]
fn leave(
    code: &Code,
    world: &mut World,
    stack: &mut Stack,
    is_void: bool,
    this: Value,
    flow: Flow,
    task: &mut Task,
) -> Result<(), Halt>
    requires { (locals : List Local) × (fs : List Frame) × (stack.old ≡ frames.Leave is_void this locals ∷ fs) }
    ensures { Leads code.now (next_task result task.new) stack.new world.new world.old (λ d x. out_flow code.now d stack.old (give flow (state_at world.old x))) }
{
    stack.take_locals(&mut world.locals)?;
    world.this = this;
    match (is_void, flow) {
        (true, Flow::Next) => {
            *task = Task::Got(Value::Null);
            Ok(())
        }
        (true, Flow::Left) => {
            *task = Task::Got(Value::Null);
            Ok(())
        }
        (false, Flow::Next) => {
            *task = Task::Act(Action::End(Stop::Trapped(Kind::NoReturn)));
            Ok(())
        }
        (false, Flow::Gave(given)) => {
            *task = Task::Got(given);
            Ok(())
        }
        _ => {
            *task = Task::Act(Action::End(Stop::Stuck));
            Ok(())
        }
    }
}

/// A constructor's body ends.
#[tactic(auto, unfolding(kr_mean::specs::Steps::bind))]
fn complete(
    code: &Code,
    world: &World,
    stack: &mut Stack,
    flow: Flow,
    task: &mut Task,
) -> Result<(), Halt>
    ensures { Leads code.now (next_task result task.new) stack.new world.now world.now (λ d x. out_unit code.now d stack.old (completed flow (state_at world.now x))) }
{
    match flow {
        Flow::Next => {
            *task = Task::Done;
            Ok(())
        }
        Flow::Left => {
            *task = Task::Done;
            Ok(())
        }
        _ => stop_unit(code, world, stack, task),
    }
}

/// The locals of a block end.
#[inline(always)]
#[tactic(auto, using(crate::proofs::Machine::locals_cut), unfolding(kr_mean::specs::Steps::bind))]
fn end_scope(
    code: &Code,
    world: &mut World,
    stack: &Stack,
    count: usize,
    flow: Flow,
    task: &mut Task,
) -> Result<(), Halt>
    ensures { Leads code.now (next_task result task.new) stack.now world.new world.old (λ d x. out_flow code.now d stack.now (cut_to count (give flow (state_at world.old x)))) }
{
    world.locals.truncate(count);
    *task = Task::Led(flow);
    Ok(())
}

/// A loop's round is over: the next one comes at once, unless the loop is left.
#[inline(always)]
#[tactic(auto, unfolding(kr_mean::specs::Steps::bind))]
fn next_round(
    alloc: Global,
    code: &Code,
    world: &mut World,
    stack: &mut Stack,
    turn: Loop,
    flow: Flow,
    task: &mut Task,
) -> Result<(), Halt>
    ensures { Leads code.now (next_task result task.new) stack.new world.new world.old (λ d x. out_flow code.now d stack.old (led code.now d (flows.Again turn) flow (state_at world.old x))) }
{
    match flow {
        Flow::Next => repeat(alloc, code, world, stack, turn, task),
        _ => take_flow(code, world, stack, FlowFrame::Again(turn), flow, task),
    }
}

/// The topmost frame receives a statement's end.
#[inline(always)]
#[tactic(auto, unfolding(kr_mean::specs::Steps::bind))]
fn arrive(
    alloc: Global,
    code: &Code,
    world: &mut World,
    stack: &mut Stack,
    flow: Flow,
    task: &mut Task,
) -> Result<(), Halt>
    ensures { Leads code.now (next_task result task.new) stack.new world.new world.old (λ d x. out_flow code.now d stack.old (give flow (state_at world.old x))) }
{
    let Some(top) = stack.top() else {
        return Err(Halt::Ended(Stop::Stuck));
    };
    match *top {
        Waiting::Flow(FlowFrame::Again(turn)) => {
            stack.drop_plain();
            return next_round(alloc, code, world, stack, turn, flow, task);
        }
        Waiting::Flow(waiting) => {
            stack.drop_plain();
            return take_flow(code, world, stack, waiting, flow, task);
        }
        Waiting::Scope(count) => {
            stack.drop_plain();
            return end_scope(code, world, stack, count as usize, flow, task);
        }
        Waiting::Catch(_) => {
            stack.drop_plain();
            *task = Task::Led(flow);
            return Ok(());
        }
        Waiting::Leave(is_void, this, _) => {
            return leave(code, world, stack, is_void, this, flow, task);
        }
        Waiting::Complete => {
            stack.drop_plain();
            return complete(code, world, stack, flow, task);
        }
        _ => return Err(Halt::Ended(Stop::Stuck)),
    }
}

/// `this` and the locals are those from before, in a frame that has these.
#[tactic(auto, unfolding(kr_mean::specs::Steps::bind))]
fn go_back(
    code: &Code,
    world: &mut World,
    stack: &mut Stack,
    this: Value,
    task: &mut Task,
) -> Result<(), Halt>
    requires { (locals : List Local) × (fs : List Frame) × (stack.old ≡ frames.Back this locals ∷ fs) }
    ensures { Leads code.now (next_task result task.new) stack.new world.new world.old (λ d x. out_unit code.now d stack.old (give tt (state_at world.old x))) }
{
    stack.take_locals(&mut world.locals)?;
    world.this = this;
    *task = Task::Done;
    Ok(())
}

/// The constructors of a line of classes come, for the topmost frame, which has their arguments.
fn construct_on(
    alloc: Global,
    code: &Code,
    world: &mut World,
    stack: &mut Stack,
    line: Nodes,
    object: Value,
    task: &mut Task,
) -> Result<(), Halt>
    requires { (arguments : List Argument) × (fs : List Frame) × (stack.old ≡ frames.Construct line object arguments ∷ fs) }
    ensures { Leads code.now (next_task result task.new) stack.new world.new world.old (λ d x. out_unit code.now d stack.old (give tt (state_at world.old x))) }
{
    match take_found(alloc, stack) {
        Err(why) => Err(Halt::Memory(why)),
        Ok(arguments) => construct(alloc, code, world, stack, line, object, &arguments, task),
    }
}

/// A step without a value is done, and the topmost frame waited for it.
#[tactic(auto, unfolding(kr_mean::specs::Steps::bind))]
fn give_nothing(
    alloc: Global,
    code: &Code,
    world: &mut World,
    stack: &mut Stack,
    task: &mut Task,
) -> Result<(), Halt>
    ensures { Leads code.now (next_task result task.new) stack.new world.new world.old (λ d x. out_unit code.now d stack.old (give tt (state_at world.old x))) }
{
    let Some(top) = stack.top() else {
        return Err(Halt::Ended(Stop::Stuck));
    };
    match *top {
        Waiting::Unit(waiting) => {
            stack.drop_plain();
            return take_unit(code, world, stack, waiting, task);
        }
        Waiting::Construct(line, object, _) => {
            return construct_on(alloc, code, world, stack, line, object, task);
        }
        Waiting::Back(this, _) => return go_back(code, world, stack, this, task),
        Waiting::Made(object) => {
            stack.drop_plain();
            *task = Task::Got(object);
            return Ok(());
        }
        _ => return Err(Halt::Ended(Stop::Stuck)),
    }
}

/// A step of the meaning.
#[inline(always)]
#[tactic(auto, unfolding(kr_mean::specs::Steps::bind))]
fn act_on(
    alloc: Global,
    code: &Code,
    world: &mut World,
    stack: &mut Stack,
    action: Action,
    task: &mut Task,
) -> Result<(), Halt>
    ensures { Leads code.now (next_task result task.new) stack.new world.new world.old (λ d x. out_value code.now d stack.old (acted code.now action (state_at world.old x))) }
{
    match act(alloc, code, action, world) {
        Ok(given) => feed(code, world, stack, given, task),
        Err(halt) => Err(halt),
    }
}

/// An expression, not in the loop.
#[inline(never)]
fn evaluate_apart(
    alloc: Global,
    code: &Code,
    world: &mut World,
    stack: &mut Stack,
    node: u32,
    task: &mut Task,
) -> Result<(), Halt>
    ensures { Leads code.now (next_task result task.new) stack.new world.new world.old (λ d x. out_value code.now d stack.old (d.value node (state_at world.old x))) }
{
    evaluate_node(alloc, code, world, stack, node, task)
}

/// A statement, not in the loop.
#[inline(never)]
fn execute_apart(
    alloc: Global,
    code: &Code,
    world: &mut World,
    stack: &mut Stack,
    node: u32,
    task: &mut Task,
) -> Result<(), Halt>
    ensures { Leads code.now (next_task result task.new) stack.new world.new world.old (λ d x. out_flow code.now d stack.old (d.exec node (state_at world.old x))) }
{
    execute_node(alloc, code, world, stack, node, task)
}

/// The next task, except where a frame receives a value. Expressions and statements, which the loop has itself, are calls here, so
/// that this is small enough to stand in the loop too.
#[inline(always)]
#[tactic(auto, unfolding(kr_mean::specs::Steps::bind))]
fn do_task(
    alloc: Global,
    code: &Code,
    world: &mut World,
    stack: &mut Stack,
    task: &mut Task,
) -> Result<(), Halt>
    ensures { Leads code.now (next_task result task.new) stack.new world.new world.old (λ d x. resumed code.now d stack.old task.old (state_at world.old x)) }
{
    match *task {
        Task::Evaluate(node) => return evaluate_apart(alloc, code, world, stack, node, task),
        Task::Execute(node) => return execute_apart(alloc, code, world, stack, node, task),
        Task::Led(flow) => return give_flow(alloc, code, world, stack, flow, task),
        Task::Done => return give_nothing(alloc, code, world, stack, task),
        Task::Act(action) => return act_on(alloc, code, world, stack, action, task),
        Task::All(nodes) => return all(code, world, stack, nodes, task),
        Task::Declare(nodes) => return declare(alloc, code, world, stack, nodes, task),
        Task::Update(nodes) => return update(alloc, code, world, stack, nodes, task),
        Task::Repeat(turn) => return repeat(alloc, code, world, stack, turn, task),
        Task::Throw(object) => return Err(throw_from(code, world, &*stack, object)),
        Task::Catch(kind, body) => {
            return enter_catch(alloc, code, world, stack, kind, body, task);
        }
        Task::Alter(change, cell, old) => {
            return alter(code, world, stack, change, cell, old, task);
        }
        Task::Arguments => return next_arguments(alloc, code, world, stack, task),
        Task::Initialise(nodes, object) => {
            return initialise(code, world, stack, nodes, object, task);
        }
        Task::Got(_) => return Ok(()),
    }
}

/// The frame that waits for it receives a statement's end.
#[inline(always)]
#[tactic(auto, using(crate::proofs::Passing::comes_then))]
fn give_flow(
    alloc: Global,
    code: &Code,
    world: &mut World,
    stack: &mut Stack,
    flow: Flow,
    task: &mut Task,
) -> Result<(), Halt>
    ensures { Leads code.now (next_task result task.new) stack.new world.new world.old (λ d x. out_flow code.now d stack.old (give flow (state_at world.old x))) }
{
    if is_leaving(flow) {
        pass_by(code, world, stack, Passing::Flow(flow))?;
        return arrive(alloc, code, world, stack, flow, task);
    }
    return arrive(alloc, code, world, stack, flow, task);
}

/// The run stops: what `end` answers, in parts.
#[inline(always)]
fn stops(
    code: &Code,
    world: &mut World,
    stack: &mut Stack,
    why: Stop,
    task: &mut Task,
) -> Result<Step, Halt>
    ensures { StepsTo code.now result task.new stack.new world.new world.old (λ d x. stopped code.now d stack.old why (state_at world.old x)) }
{
    match end(code, world, stack, why, task) {
        Ok(Step::More) => return Ok(Step::More),
        Ok(Step::Finished(given)) => return Ok(Step::Finished(given)),
        Err(Halt::Ended(why)) => return Err(Halt::Ended(why)),
        Err(Halt::Memory(why)) => return Err(Halt::Memory(why)),
    }
}

/// The topmost frame receives a value, or the run has it.
#[inline(always)]
#[tactic(auto, using(crate::proofs::Passing::steps_same))]
fn value_step(
    alloc: Global,
    code: &Code,
    world: &mut World,
    stack: &mut Stack,
    given: Value,
    task: &mut Task,
) -> Result<Step, Halt>
    ensures { StepsTo code.now result task.new stack.new world.new world.old (λ d x. out_value code.now d stack.old (give given (state_at world.old x))) }
{
    let Some(_) = stack.top() else {
        return Ok(Step::Finished(given));
    };
    match value_frame(alloc, code, world, stack, given, task) {
        Ok(()) => return Ok(Step::More),
        Err(Halt::Ended(why)) => return stops(code, world, stack, why, task),
        Err(Halt::Memory(why)) => return Err(Halt::Memory(why)),
    }
}

/// An expression, as one step.
#[inline(always)]
#[tactic(auto, using(crate::proofs::Passing::steps_same))]
fn evaluate_step(
    alloc: Global,
    code: &Code,
    world: &mut World,
    stack: &mut Stack,
    node: u32,
    task: &mut Task,
) -> Result<Step, Halt>
    ensures { StepsTo code.now result task.new stack.new world.new world.old (λ d x. out_value code.now d stack.old (d.value node (state_at world.old x))) }
{
    match evaluate_node(alloc, code, world, stack, node, task) {
        Ok(()) => return Ok(Step::More),
        Err(Halt::Ended(why)) => return stops(code, world, stack, why, task),
        Err(Halt::Memory(why)) => return Err(Halt::Memory(why)),
    }
}

/// A statement, as one step.
#[inline(always)]
#[tactic(auto, using(crate::proofs::Passing::steps_same))]
fn execute_step(
    alloc: Global,
    code: &Code,
    world: &mut World,
    stack: &mut Stack,
    node: u32,
    task: &mut Task,
) -> Result<Step, Halt>
    ensures { StepsTo code.now result task.new stack.new world.new world.old (λ d x. out_flow code.now d stack.old (d.exec node (state_at world.old x))) }
{
    match execute_node(alloc, code, world, stack, node, task) {
        Ok(()) => return Ok(Step::More),
        Err(Halt::Ended(why)) => return stops(code, world, stack, why, task),
        Err(Halt::Memory(why)) => return Err(Halt::Memory(why)),
    }
}

/// Any other task, as one step.
#[inline(always)]
#[tactic(auto, using(crate::proofs::Passing::steps_same))]
fn other_step(
    alloc: Global,
    code: &Code,
    world: &mut World,
    stack: &mut Stack,
    task: &mut Task,
) -> Result<Step, Halt>
    ensures { StepsTo code.now result task.new stack.new world.new world.old (λ d x. resumed code.now d stack.old task.old (state_at world.old x)) }
{
    match do_task(alloc, code, world, stack, task) {
        Ok(()) => return Ok(Step::More),
        Err(Halt::Ended(why)) => return stops(code, world, stack, why, task),
        Err(Halt::Memory(why)) => return Err(Halt::Memory(why)),
    }
}

/// Whether a task may read a place of a candidate: correctness doesn't depend on it.
#[inline(always)]
fn may_read(task: &Task) -> bool {
    match task {
        Task::Act(Action::Load(_, _)) => true,
        Task::Act(Action::Element(_, _)) => true,
        _ => false,
    }
}

/// Steps on to where a step may read, or to the run's end: the next task comes in place of the one that is done. Where the run
/// stops frames are left, all of them unless one catches it. The tasks that come most are told apart here, in the loop.
pub fn advance(
    alloc: Global,
    code: &Code,
    world: &mut World,
    stack: &mut Stack,
    task: &mut Task,
) -> Result<Step, Halt>
    ensures { StepsTo code.now result task.new stack.new world.new world.old (λ d x. resumed code.now d stack.old task.old (state_at world.old x)) }
{
    let mut left = Countdown::start();
    'steps: while !left.is_over() {
        left.count();
        let step = match *task {
            Task::Got(given) => value_step(alloc, code, world, stack, given, task),
            Task::Evaluate(node) => evaluate_step(alloc, code, world, stack, node, task),
            Task::Execute(node) => execute_step(alloc, code, world, stack, node, task),
            _ => other_step(alloc, code, world, stack, task),
        };
        match step {
            Err(halt) => return Err(halt),
            Ok(next) => match next {
                Step::Finished(given) => return Ok(Step::Finished(given)),
                Step::More => {
                    if may_read(task) {
                        return Ok(Step::More);
                    }
                }
            },
        }
    }
    Err(Halt::Memory(left.at_end()))
}

/// Runs a node as an expression: what it gives, or how the run ends. The world is left as the run leaves it, and every
/// first read is noted.
pub fn evaluate(alloc: Global, code: &Code, world: &mut World, node: u32) -> Result<Value, Halt>
    ensures { Answers code.now result world.new world.old (λ d x. d.value node (state_at world.old x)) }
{
    let mut stack = Stack::new(alloc);
    let mut task = Task::Evaluate(node);
    let mut left = Countdown::start();
    'steps: while !left.is_over() {
        left.count();
        match advance(alloc, code, world, &mut stack, &mut task) {
            Err(Halt::Ended(end)) => return Err(Halt::Ended(end)),
            Err(Halt::Memory(why)) => return Err(Halt::Memory(why)),
            Ok(Step::Finished(given)) => return Ok(given),
            Ok(Step::More) => {}
        }
    }
    Err(Halt::Memory(left.at_end()))
}
