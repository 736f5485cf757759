// Arguments, one after another, and then what is done with all of them.
ghost use Rattle.std.specs.Prelude.{◌≡◌, ◌∷◌, List, drop, reverse, IfOk, OnOk};
ghost use Rattle.kr_value.specs.declared.value.Value.{Value as Argument};
ghost use Rattle.kr_code.specs.Doing.{values_at};
ghost use Rattle.kr_code.specs.Tables.{listed};
ghost use Rattle.kr_run_frames.specs.Frame.{Frame};
ghost use Rattle.kr_run_frames.specs.Frame as frames;
ghost use Rattle.kr_run_frames.specs.Frames.{applied, continued, onto, out_arguments, out_unit, out_value, upwards};
ghost use Rattle.kr_run_frames.specs.Kept.{values_on};
ghost use Rattle.kr_run_frames.specs.Leads.{Leads, next_task};
ghost use Rattle.kr_mean.specs.Steps.{bind, give};
ghost use Rattle.kr_run_state.specs.Worlds.{state_at};

use crate::calls::apply;
use kr_code::{Code, Nodes};
use kr_mean::Stop;
use kr_run_frames::{Goal, Stack, Task, UnitFrame, Up, Waiting};
use kr_run_known::at_once;
use kr_run_moves::{await_arguments, enter_node, unit};
use kr_run_state::{Halt, NoMemory, World};
use kr_value::Value;
use std::alloc::Global;

/// The topmost frame goes, with the values that it has.
pub(crate) fn take_found(alloc: Global, stack: &mut Stack) -> Result<Vec<Value>, NoMemory>
    ensures rest { OnOk result (stack.new ≡ drop 1 stack.old) }
    ensures values { IfOk result (λ found. found.items ≡ values_on stack.old) }
{
    let mut found = Vec::new(alloc);
    match stack.take_values(&mut found) {
        Ok(()) => Ok(found),
        Err(why) => Err(why),
    }
}

/// Values with one more.
#[tactic(auto, using(kr_run_moves::proofs::Moves::one_more))]
fn with_value(found: Vec<Value>, given: Value) -> Result<Vec<Value>, NoMemory>
    ensures more { IfOk result (λ values. reverse values.items ≡ given ∷ reverse found.items) }
{
    let mut values = found;
    values.push(given)?;
    Ok(values)
}

/// Where arguments come, of which so many at most are there at once if they are known.
trait Next {
    /// Arguments that are left, after those that are there, and then the use of all.
    fn next_of(
        alloc: Global,
        code: &Code,
        world: &mut World,
        stack: &mut Stack,
        goal: Goal,
        nodes: Nodes,
        found: Vec<Value>,
        task: &mut Task,
    ) -> Result<(), Halt>
        ensures { Leads code.now (next_task result task.new) stack.new world.new world.old (λ d x. out_value code.now d stack.old (continued (values_at d (listed code.now nodes) (state_at world.old x)) (λ ws. applied code.now d goal (onto (reverse found.items) ws)))) };
}

/// Each argument comes by a step of its own.
struct Singly;

/// One argument more is there at once.
struct AtOnce<L> {
    others: L,
}

impl Next for Singly {
    #[tactic(auto, using(kr_run_moves::proofs::Moves::onto_all), unfolding(kr_mean::specs::Steps::bind))]
    fn next_of(
        alloc: Global,
        code: &Code,
        world: &mut World,
        stack: &mut Stack,
        goal: Goal,
        nodes: Nodes,
        found: Vec<Value>,
        task: &mut Task,
    ) -> Result<(), Halt> {
        match code.split(nodes) {
            None => return apply(alloc, code, world, stack, goal, found, task),
            Some((node, others)) => {
                await_arguments(stack, goal, others, found.as_slice())?;
                *task = Task::Evaluate(node);
                return Ok(());
            }
        }
    }
}

impl<L: Next> Next for AtOnce<L> {
    #[tactic(auto, using(kr_run_moves::proofs::Moves::onto_all), unfolding(kr_mean::specs::Steps::bind))]
    fn next_of(
        alloc: Global,
        code: &Code,
        world: &mut World,
        stack: &mut Stack,
        goal: Goal,
        nodes: Nodes,
        found: Vec<Value>,
        task: &mut Task,
    ) -> Result<(), Halt> {
        match code.split(nodes) {
            None => return apply(alloc, code, world, stack, goal, found, task),
            Some((node, others)) => {
                return argument_next::<L>(
                    alloc, code, world, stack, goal, node, others, found, task,
                );
            }
        }
    }
}

/// An argument that isn't known comes next, and then the others.
#[tactic(auto, unfolding(kr_mean::specs::Steps::bind))]
fn await_argument(
    alloc: Global,
    code: &Code,
    world: &mut World,
    stack: &mut Stack,
    goal: Goal,
    node: u32,
    others: Nodes,
    found: Vec<Value>,
    task: &mut Task,
) -> Result<(), Halt>
    ensures { Leads code.now (next_task result task.new) stack.new world.new world.old (λ d x. out_value code.now d stack.old (continued (values_at d (node ∷ listed code.now others) (state_at world.old x)) (λ ws. applied code.now d goal (onto (reverse found.items) ws)))) }
{
    await_arguments(stack, goal, others, found.as_slice())?;
    enter_node(alloc, code, world, stack, node, task)
}

/// An argument, which is there at once where it is known, and then the others.
fn argument_next<L: Next>(
    alloc: Global,
    code: &Code,
    world: &mut World,
    stack: &mut Stack,
    goal: Goal,
    node: u32,
    others: Nodes,
    found: Vec<Value>,
    task: &mut Task,
) -> Result<(), Halt>
    ensures { Leads code.now (next_task result task.new) stack.new world.new world.old (λ d x. out_value code.now d stack.old (continued (values_at d (node ∷ listed code.now others) (state_at world.old x)) (λ ws. applied code.now d goal (onto (reverse found.items) ws)))) }
{
    match at_once(code, world, node) {
        Some(given) => {
            return take_next::<L>(alloc, code, world, stack, goal, others, found, given, task);
        }
        None => {
            return await_argument(alloc, code, world, stack, goal, node, others, found, task);
        }
    }
}

/// Arguments of a superclass's constructor that are left, and then the constructors.
#[tactic(auto, using(kr_run_moves::proofs::Moves::onto_all), unfolding(kr_mean::specs::Steps::bind))]
fn next_upwards(
    code: &Code,
    world: &World,
    stack: &mut Stack,
    up: Up,
    nodes: Nodes,
    found: Vec<Value>,
    task: &mut Task,
) -> Result<(), Halt>
    ensures { Leads code.now (next_task result task.new) stack.new world.now world.now (λ d x. out_unit code.now d stack.old (continued (values_at d (listed code.now nodes) (state_at world.now x)) (λ ws. upwards code.now d up (onto (reverse found.items) ws)))) }
{
    match code.split(nodes) {
        None => {
            unit(
                stack,
                UnitFrame::Behind(up.object, up.initialisers, up.body),
            )?;
            stack.push_construct(up.line, up.object, found.as_slice())?;
            *task = Task::Done;
            return Ok(());
        }
        Some((node, others)) => {
            stack.push_up_arguments(up, others, found.as_slice())?;
            *task = Task::Evaluate(node);
            return Ok(());
        }
    }
}

/// The arguments that are left come for the topmost frame, which has those that are there.
fn begin_arguments(
    alloc: Global,
    code: &Code,
    world: &mut World,
    stack: &mut Stack,
    goal: Goal,
    nodes: Nodes,
    task: &mut Task,
) -> Result<(), Halt>
    requires { (found : List Argument) × (fs : List Frame) × (stack.old ≡ frames.Arguments goal nodes found ∷ fs) }
    ensures { Leads code.now (next_task result task.new) stack.new world.new world.old (λ d x. out_arguments code.now d stack.old (state_at world.old x)) }
{
    match take_found(alloc, stack) {
        Err(why) => Err(Halt::Memory(why)),
        Ok(found) => <AtOnce<AtOnce<AtOnce<Singly>>>>::next_of(
            alloc, code, world, stack, goal, nodes, found, task,
        ),
    }
}

/// The arguments of a superclass's constructor that are left come for the topmost frame.
fn begin_upwards(
    alloc: Global,
    code: &Code,
    world: &World,
    stack: &mut Stack,
    up: Up,
    nodes: Nodes,
    task: &mut Task,
) -> Result<(), Halt>
    requires { (found : List Argument) × (fs : List Frame) × (stack.old ≡ frames.UpArguments up nodes found ∷ fs) }
    ensures { Leads code.now (next_task result task.new) stack.new world.now world.now (λ d x. out_arguments code.now d stack.old (state_at world.now x)) }
{
    match take_found(alloc, stack) {
        Err(why) => Err(Halt::Memory(why)),
        Ok(found) => next_upwards(code, world, stack, up, nodes, found, task),
    }
}

/// The arguments that are left come for the topmost frame.
#[tactic(auto, unfolding(kr_mean::specs::Steps::bind))]
pub(crate) fn next_arguments(
    alloc: Global,
    code: &Code,
    world: &mut World,
    stack: &mut Stack,
    task: &mut Task,
) -> Result<(), Halt>
    ensures { Leads code.now (next_task result task.new) stack.new world.new world.old (λ d x. out_arguments code.now d stack.old (state_at world.old x)) }
{
    let Some(top) = stack.top() else {
        return Err(Halt::Ended(Stop::Stuck));
    };
    let frame = *top;
    match frame {
        Waiting::Arguments(goal, nodes, _) => {
            return begin_arguments(alloc, code, world, stack, goal, nodes, task);
        }
        Waiting::UpArguments(up, nodes, _) => {
            return begin_upwards(alloc, code, world, stack, up, nodes, task);
        }
        _ => return Err(Halt::Ended(Stop::Stuck)),
    }
}

/// One more argument is there, after the others.
fn take_next<L: Next>(
    alloc: Global,
    code: &Code,
    world: &mut World,
    stack: &mut Stack,
    goal: Goal,
    others: Nodes,
    found: Vec<Value>,
    given: Value,
    task: &mut Task,
) -> Result<(), Halt>
    ensures { Leads code.now (next_task result task.new) stack.new world.new world.old (λ d x. out_value code.now d stack.old (continued (bind (values_at d (listed code.now others)) (λ ws. give (given ∷ ws)) (state_at world.old x)) (λ ws. applied code.now d goal (onto (reverse found.items) ws)))) }
{
    match with_value(found, given) {
        Err(why) => return Err(Halt::Memory(why)),
        Ok(values) => {
            return L::next_of(alloc, code, world, stack, goal, others, values, task);
        }
    }
}

/// One more argument of a superclass's constructor is there.
fn take_next_upwards(
    code: &Code,
    world: &World,
    stack: &mut Stack,
    up: Up,
    others: Nodes,
    found: Vec<Value>,
    given: Value,
    task: &mut Task,
) -> Result<(), Halt>
    ensures { Leads code.now (next_task result task.new) stack.new world.now world.now (λ d x. out_unit code.now d stack.old (continued (bind (values_at d (listed code.now others)) (λ ws. give (given ∷ ws)) (state_at world.now x)) (λ ws. upwards code.now d up (onto (reverse found.items) ws)))) }
{
    match with_value(found, given) {
        Err(why) => return Err(Halt::Memory(why)),
        Ok(values) => return next_upwards(code, world, stack, up, others, values, task),
    }
}

/// One more argument comes, and the topmost frame waited for it with those that are there.
pub(crate) fn take_argument(
    alloc: Global,
    code: &Code,
    world: &mut World,
    stack: &mut Stack,
    goal: Goal,
    others: Nodes,
    given: Value,
    task: &mut Task,
) -> Result<(), Halt>
    requires { (found : List Argument) × (fs : List Frame) × (stack.old ≡ frames.Arguments goal others found ∷ fs) }
    ensures { Leads code.now (next_task result task.new) stack.new world.new world.old (λ d x. out_value code.now d stack.old (give given (state_at world.old x))) }
{
    match take_found(alloc, stack) {
        Err(why) => Err(Halt::Memory(why)),
        Ok(found) => take_next::<AtOnce<AtOnce<Singly>>>(
            alloc, code, world, stack, goal, others, found, given, task,
        ),
    }
}

/// One more argument of a superclass's constructor comes.
pub(crate) fn take_up_argument(
    alloc: Global,
    code: &Code,
    world: &World,
    stack: &mut Stack,
    up: Up,
    others: Nodes,
    given: Value,
    task: &mut Task,
) -> Result<(), Halt>
    requires { (found : List Argument) × (fs : List Frame) × (stack.old ≡ frames.UpArguments up others found ∷ fs) }
    ensures { Leads code.now (next_task result task.new) stack.new world.now world.now (λ d x. out_value code.now d stack.old (give given (state_at world.now x))) }
{
    match take_found(alloc, stack) {
        Err(why) => Err(Halt::Memory(why)),
        Ok(found) => take_next_upwards(code, world, stack, up, others, found, given, task),
    }
}
