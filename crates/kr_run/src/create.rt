// Creation: the constructors of a line of classes, and the initial values of fields.
ghost use Rattle.std.specs.Prelude.{[]};
ghost use Rattle.kr_mean.specs.declared.kind.Stop.TheVariants.{Stuck};
ghost use Rattle.kr_code.specs.Tables.{class_at, listed};
ghost use Rattle.kr_code.specs.Doing.{create as create_step, constructed, constructed_in, super_values, initialised as initialised_step};
ghost use Rattle.kr_run_frames.specs.Frames.{out_value, out_unit, done, upwards};
ghost use Rattle.kr_run_frames.specs.Leads.{Leads, next_task};
ghost use Rattle.kr_mean.specs.Steps.{bind, within, stop as stop_step};
ghost use Rattle.kr_run_state.specs.Worlds.{state_at};

use crate::calls::become_arguments;
use kr_code::{ClassCode, Code, Constructor, Nodes};
use kr_mean::Stop;
use kr_run_frames::{Stack, Task, UnitFrame, Up, Waiting};
use kr_run_moves::{push, unit};
use kr_run_state::{Action, Halt, Local, World, new_object};
use kr_value::Value;
use std::alloc::Global;

/// A new object of a class.
#[tactic(auto, unfolding(kr_mean::specs::Steps::bind))]
pub(crate) fn create(
    alloc: Global,
    code: &Code,
    world: &mut World,
    stack: &mut Stack,
    class: u32,
    arguments: Vec<Value>,
    task: &mut Task,
) -> Result<(), Halt>
    ensures { Leads code.now (next_task result task.new) stack.new world.new world.old (λ d x. out_value code.now d stack.old (create_step code.now d class arguments.items (class_at code.now class) (state_at world.old x))) }
{
    match code.class(class) {
        None => {
            *task = Task::Act(Action::End(Stop::Stuck));
            return Ok(());
        }
        Some(found) => match new_object(alloc, code, world, class, found.defaults) {
            Err(halt) => return Err(halt),
            Ok(object) => {
                push(stack, Waiting::Made(object))?;
                stack.push_construct(found.line, object, arguments.as_slice())?;
                *task = Task::Done;
                return Ok(());
            }
        },
    }
}

/// Nothing that has a meaning, in place of something that gives nothing.
#[tactic(auto, unfolding(kr_mean::specs::Steps::bind))]
pub(crate) fn stop_unit(
    code: &Code,
    world: &World,
    stack: &mut Stack,
    task: &mut Task,
) -> Result<(), Halt>
    ensures { Leads code.now (next_task result task.new) stack.new world.now world.now (λ d x. out_unit code.now d stack.old (stop_step Stuck (state_at world.now x))) }
{
    push(stack, Waiting::Store(0, Value::Null))?;
    *task = Task::Act(Action::End(Stop::Stuck));
    Ok(())
}

/// The class's constructor, where it declares none.
#[tactic(auto, using(crate::proofs::Machine::runs), unfolding(kr_mean::specs::Steps::bind))]
fn construct_plain(
    alloc: Global,
    code: &Code,
    world: &mut World,
    stack: &mut Stack,
    initialisers: Nodes,
    object: Value,
    arguments: &Vec<Value>,
    others: Nodes,
    task: &mut Task,
) -> Result<(), Halt>
    ensures { Leads code.now (next_task result task.new) stack.new world.new world.old (λ d x. out_unit code.now d stack.old (within object 0 arguments.now.items (bind (constructed code.now d (listed code.now others) object []) (λ u. initialised_step code.now d object (listed code.now initialisers))) (state_at world.old x))) }
{
    if arguments.len() != 0 {
        return stop_unit(code, world, stack, task);
    }
    stack.push_back(world.this, world.locals.as_slice())?;
    become_arguments(&mut world.locals, arguments.as_slice())?;
    world.this = object;
    unit(stack, UnitFrame::Initialise(initialisers, object))?;
    stack.push_construct(others, object, &[])?;
    *task = Task::Done;
    Ok(())
}

/// The constructor that a class declares, with its arguments.
#[tactic(auto, using(crate::proofs::Machine::runs, kr_run_moves::proofs::Moves::assoc, kr_run_moves::proofs::Moves::given_then), unfolding(kr_mean::specs::Steps::bind))]
fn construct_declared(
    alloc: Global,
    code: &Code,
    world: &mut World,
    stack: &mut Stack,
    constructor: Constructor,
    up: Up,
    arguments: &Vec<Value>,
    task: &mut Task,
) -> Result<(), Halt>
    ensures { Leads code.now (next_task result task.new) stack.new world.new world.old (λ d x. out_unit code.now d stack.old (within up.object constructor.parameters.count arguments.now.items (bind (super_values code.now d constructor.call) (upwards code.now d up)) (state_at world.old x))) }
{
    if arguments.len() != constructor.parameters.count as usize {
        return stop_unit(code, world, stack, task);
    }
    stack.push_back(world.this, world.locals.as_slice())?;
    become_arguments(&mut world.locals, arguments.as_slice())?;
    world.this = up.object;
    match constructor.call {
        None => {
            unit(
                stack,
                UnitFrame::Behind(up.object, up.initialisers, up.body),
            )?;
            stack.push_construct(up.line, up.object, &[])?;
            *task = Task::Done;
            Ok(())
        }
        Some(nodes) => {
            push(stack, Waiting::UpEnter(up, nodes))?;
            *task = Task::Act(Action::Tick);
            Ok(())
        }
    }
}

/// The constructor of one class, which is there or not.
#[tactic(auto, unfolding(kr_mean::specs::Steps::bind))]
fn construct_in(
    alloc: Global,
    code: &Code,
    world: &mut World,
    stack: &mut Stack,
    class: Option<ClassCode>,
    object: Value,
    arguments: &Vec<Value>,
    others: Nodes,
    task: &mut Task,
) -> Result<(), Halt>
    ensures { Leads code.now (next_task result task.new) stack.new world.new world.old (λ d x. out_unit code.now d stack.old (constructed_in code.now d class object arguments.now.items (constructed code.now d (listed code.now others) object) (state_at world.old x))) }
{
    match class {
        None => stop_unit(code, world, stack, task),
        Some(found) => match found.constructor {
            None => construct_plain(
                alloc,
                code,
                world,
                stack,
                found.initialisers,
                object,
                arguments,
                others,
                task,
            ),
            Some(constructor) => {
                let up = Up {
                    line: others,
                    object,
                    initialisers: found.initialisers,
                    body: constructor.body,
                };
                construct_declared(alloc, code, world, stack, constructor, up, arguments, task)
            }
        },
    }
}

/// Past the last class of a line nothing takes arguments.
fn construct_last(
    code: &Code,
    world: &World,
    stack: &mut Stack,
    object: Value,
    arguments: &Vec<Value>,
    task: &mut Task,
) -> Result<(), Halt>
    ensures { Leads code.now (next_task result task.new) stack.new world.now world.now (λ d x. out_unit code.now d stack.old (constructed code.now d [] object arguments.now.items (state_at world.now x))) }
{
    if arguments.len() == 0 {
        *task = Task::Done;
        return Ok(());
    }
    stop_unit(code, world, stack, task)
}

/// The constructors of a line of classes.
#[tactic(auto, unfolding(kr_mean::specs::Steps::bind))]
pub(crate) fn construct(
    alloc: Global,
    code: &Code,
    world: &mut World,
    stack: &mut Stack,
    line: Nodes,
    object: Value,
    arguments: &Vec<Value>,
    task: &mut Task,
) -> Result<(), Halt>
    ensures { Leads code.now (next_task result task.new) stack.new world.new world.old (λ d x. out_unit code.now d stack.old (constructed code.now d (listed code.now line) object arguments.now.items (state_at world.old x))) }
{
    match code.split(line) {
        None => construct_last(code, world, stack, object, arguments, task),
        Some((class, others)) => {
            let found = code.class(class);
            construct_in(
                alloc, code, world, stack, found, object, arguments, others, task,
            )
        }
    }
}

/// The initial values of fields, one after another.
#[tactic(auto, unfolding(kr_mean::specs::Steps::bind))]
pub(crate) fn initialise(
    code: &Code,
    world: &World,
    stack: &mut Stack,
    nodes: Nodes,
    object: Value,
    task: &mut Task,
) -> Result<(), Halt>
    ensures { Leads code.now (next_task result task.new) stack.new world.now world.now (λ d x. out_unit code.now d stack.old (initialised_step code.now d object (listed code.now nodes) (state_at world.now x))) }
{
    match code.split(nodes) {
        None => {
            *task = Task::Done;
            Ok(())
        }
        Some((node, others)) => match code.initialiser(node) {
            None => stop_unit(code, world, stack, task),
            Some(initialiser) => {
                unit(stack, UnitFrame::Initialise(others, object))?;
                push(stack, Waiting::Store(initialiser.field, object))?;
                *task = Task::Evaluate(initialiser.value);
                Ok(())
            }
        },
    }
}

/// Something is done, and a frame waited for it.
#[tactic(auto, unfolding(kr_mean::specs::Steps::bind))]
pub(crate) fn take_unit(
    code: &Code,
    world: &mut World,
    stack: &mut Stack,
    frame: UnitFrame,
    task: &mut Task,
) -> Result<(), Halt>
    ensures { Leads code.now (next_task result task.new) stack.new world.new world.old (λ d x. out_unit code.now d stack.old (done code.now d frame (state_at world.old x))) }
{
    match frame {
        UnitFrame::Behind(object, initialisers, body) => {
            unit(stack, UnitFrame::Body(body))?;
            stack.push_back(world.this, world.locals.as_slice())?;
            world.locals.clear();
            world.this = object;
            *task = Task::Initialise(initialisers, object);
            Ok(())
        }
        UnitFrame::Body(body) => {
            push(stack, Waiting::Complete)?;
            *task = Task::All(body);
            Ok(())
        }
        UnitFrame::Initialise(nodes, object) => {
            *task = Task::Initialise(nodes, object);
            Ok(())
        }
    }
}
