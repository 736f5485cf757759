// Calls: a method's body comes next, on its arguments.
ghost use Rattle.std.specs.Prelude.{◌≡◌, map, OnOk};
ghost use Rattle.kr_value.specs.declared.value.Value.TheVariants.{Null};
ghost use Rattle.kr_mean.specs.Steps.{bind, class_of as class_step, plain_local, collect as collect_step};
ghost use Rattle.kr_code.specs.Collections.{name_of, new_collection as collection_step};
ghost use Rattle.kr_code.specs.Tables.{method_at};
ghost use Rattle.kr_code.specs.Doing.{run_method as run_step, run_numbered as numbered_step, run_on as on_step};
ghost use Rattle.kr_run_frames.specs.Frames.{out_value, applied};
ghost use Rattle.kr_run_frames.specs.Leads.{Leads, next_task};
ghost use Rattle.kr_run_state.specs.Shown.{local_of};
ghost use Rattle.kr_run_state.specs.Worlds.{state_at};

use crate::create::create;
use kr_code::{Code, CollectionCall, MethodCode};
use kr_mean::{Kind, Stop};
use kr_run_frames::{Goal, Stack, Task};
use kr_run_state::{Action, Halt, Local, NoMemory, World, class_of, collect};
use kr_value::{Class, Value};
use std::alloc::Global;

fn plain(value: Value) -> Local
    ensures { local_of result ≡ plain_local value }
{
    Local {
        value,
        parameter: None,
    }
}

/// Arguments come as locals in place of these, in the room that is there.
pub(crate) fn become_arguments(locals: &mut Vec<Local>, arguments: &[Value]) -> Result<(), NoMemory>
    ensures locals { OnOk result (map local_of locals.new.items ≡ map plain_local arguments.now) }
{
    locals.clear();
    for argument in arguments {
        locals.push(plain(*argument))?;
    }
    Ok(())
}

/// A method on a receiver.
#[tactic(auto, using(crate::proofs::Machine::runs), unfolding(kr_mean::specs::Steps::bind))]
fn run_method(
    code: &Code,
    world: &mut World,
    stack: &mut Stack,
    receiver: Value,
    method: Option<MethodCode>,
    arguments: &Vec<Value>,
    task: &mut Task,
) -> Result<(), Halt>
    ensures { Leads code.now (next_task result task.new) stack.new world.new world.old (λ d x. out_value code.now d stack.old (run_step code.now d receiver arguments.now.items method (state_at world.old x))) }
{
    let Some(found) = method else {
        *task = Task::Act(Action::End(Stop::Stuck));
        return Ok(());
    };
    if arguments.len() != found.parameters.count as usize {
        *task = Task::Act(Action::End(Stop::Stuck));
        return Ok(());
    }
    stack.push_leave(found.is_void, world.this, world.locals.as_slice())?;
    become_arguments(&mut world.locals, arguments.as_slice())?;
    world.this = receiver;
    *task = Task::All(found.body);
    Ok(())
}

/// A method by its number.
#[tactic(auto, unfolding(kr_mean::specs::Steps::bind))]
fn run_numbered(
    code: &Code,
    world: &mut World,
    stack: &mut Stack,
    receiver: Value,
    method: Option<u32>,
    arguments: &Vec<Value>,
    task: &mut Task,
) -> Result<(), Halt>
    ensures { Leads code.now (next_task result task.new) stack.new world.new world.old (λ d x. out_value code.now d stack.old (numbered_step code.now d receiver arguments.now.items method (state_at world.old x))) }
{
    match method {
        None => {
            *task = Task::Act(Action::End(Stop::Stuck));
            Ok(())
        }
        Some(number) => {
            let found = code.method(number);
            run_method(code, world, stack, receiver, found, arguments, task)
        }
    }
}

/// The method that an object's class has.
#[tactic(auto, unfolding(kr_mean::specs::Steps::bind))]
fn run_on(
    code: &Code,
    world: &mut World,
    stack: &mut Stack,
    method: u32,
    object: Value,
    arguments: &Vec<Value>,
    task: &mut Task,
) -> Result<(), Halt>
    ensures { Leads code.now (next_task result task.new) stack.new world.new world.old (λ d x. out_value code.now d stack.old (on_step code.now d method object arguments.now.items (state_at world.old x))) }
{
    match object {
        Value::Ref(number) => {
            let found = code.method_in(method, class_of(world, number));
            run_numbered(code, world, stack, object, found, arguments, task)
        }
        Value::Null => {
            *task = Task::Act(Action::End(Stop::Trapped(Kind::NullPointerException)));
            Ok(())
        }
        _ => {
            *task = Task::Act(Action::End(Stop::Stuck));
            Ok(())
        }
    }
}

/// A static method, called through an object.
#[tactic(auto, unfolding(kr_mean::specs::Steps::bind))]
fn run_static(
    code: &Code,
    world: &mut World,
    stack: &mut Stack,
    method: u32,
    object: Value,
    arguments: &Vec<Value>,
    task: &mut Task,
) -> Result<(), Halt>
    ensures { Leads code.now (next_task result task.new) stack.new world.new world.old (λ d x. out_value code.now d stack.old (bind (class_step object) (λ c. run_step code.now d Null arguments.now.items (method_at code.now method)) (state_at world.old x))) }
{
    match object {
        Value::Ref(_) => {
            let found = code.method(method);
            run_method(code, world, stack, Value::Null, found, arguments, task)
        }
        Value::Null => {
            *task = Task::Act(Action::End(Stop::Trapped(Kind::NullPointerException)));
            Ok(())
        }
        _ => {
            *task = Task::Act(Action::End(Stop::Stuck));
            Ok(())
        }
    }
}

/// A new collection, which takes no arguments.
#[tactic(auto, unfolding(kr_mean::specs::Steps::bind))]
fn new_collection(
    code: &Code,
    world: &World,
    stack: &Stack,
    class: Class,
    arguments: &Vec<Value>,
    task: &mut Task,
) -> Result<(), Halt>
    ensures { Leads code.now (next_task result task.new) stack.now world.now world.now (λ d x. out_value code.now d stack.now (collection_step class arguments.now.items (state_at world.now x))) }
{
    match arguments.as_slice().split_first() {
        None => {
            *task = Task::Act(Action::NewCollection(class));
            Ok(())
        }
        Some(_) => {
            *task = Task::Act(Action::End(Stop::Stuck));
            Ok(())
        }
    }
}

/// A call on a collection.
fn collect_on(
    code: &Code,
    world: &mut World,
    stack: &Stack,
    call: CollectionCall,
    object: Value,
    arguments: &[Value],
    task: &mut Task,
) -> Result<(), Halt>
    ensures { Leads code.now (next_task result task.new) stack.now world.new world.old (λ d x. out_value code.now d stack.now (collect_step (name_of call) object arguments.now (state_at world.old x))) }
{
    match collect(world, call, object, arguments) {
        Ok(given) => {
            *task = Task::Got(given);
            Ok(())
        }
        Err(halt) => Err(halt),
    }
}

/// The use of arguments that are all there.
#[tactic(auto, unfolding(kr_mean::specs::Steps::bind))]
pub fn apply(
    alloc: Global,
    code: &Code,
    world: &mut World,
    stack: &mut Stack,
    goal: Goal,
    arguments: Vec<Value>,
    task: &mut Task,
) -> Result<(), Halt>
    ensures { Leads code.now (next_task result task.new) stack.new world.new world.old (λ d x. out_value code.now d stack.old (applied code.now d goal arguments.items (state_at world.old x))) }
{
    match goal {
        Goal::Stop => {
            *task = Task::Act(Action::End(Stop::Stuck));
            return Ok(());
        }
        Goal::Run(receiver, method) => {
            return run_numbered(code, world, stack, receiver, method, &arguments, task);
        }
        Goal::Own(method) => {
            let this = world.this;
            return run_on(code, world, stack, method, this, &arguments, task);
        }
        Goal::On(method, object) => {
            return run_on(code, world, stack, method, object, &arguments, task);
        }
        Goal::StaticOn(method, object) => {
            return run_static(code, world, stack, method, object, &arguments, task);
        }
        Goal::New(class) => return create(alloc, code, world, stack, class, arguments, task),
        Goal::NewCollection(class) => {
            return new_collection(code, world, stack, class, &arguments, task);
        }
        Goal::Collect(call, object) => {
            return collect_on(code, world, stack, call, object, arguments.as_slice(), task);
        }
    }
}
