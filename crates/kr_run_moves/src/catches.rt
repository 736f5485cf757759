// What is thrown, and what is caught.
ghost use Rattle.std.specs.Prelude.{Err};
ghost use Rattle.kr_mean.specs.Steps.{bind, declare as declare_step, tick as tick_step};
ghost use Rattle.kr_code.specs.Doing.{catch_at};
ghost use Rattle.kr_code.specs.Steps.{taken, throw_object};
ghost use Rattle.kr_run_frames.specs.Frames.{out_flow};
ghost use Rattle.kr_run_frames.specs.Leads.{Leads, next_task};
ghost use Rattle.kr_run_state.specs.Worlds.{state_at};

use crate::pushes::scope;
use kr_code::Code;
use kr_mean::Kind;
use kr_run_frames::{Stack, Task};
use kr_run_state::{Halt, World, add_local, take, throw, tick};
use kr_value::Value;
use std::alloc::Global;

/// An object is thrown.
pub fn throw_from(code: &Code, world: &mut World, stack: &Stack, object: Value) -> Halt
    ensures { Leads code.now (Err result) stack.now world.new world.old (λ d x. out_flow code.now d stack.now (throw_object code.now object (state_at world.old x))) }
{
    throw(code, world, object)
}

/// The block of a clause comes next, with the object as a local.
fn enter_block(
    code: &Code,
    world: &mut World,
    stack: &Stack,
    object: Value,
    body: u32,
    task: &mut Task,
) -> Result<(), Halt>
    ensures { Leads code.now (next_task result task.new) stack.now world.new world.old (λ d x. out_flow code.now d stack.now (bind (declare_step object) (λ u. d.exec body) (state_at world.old x))) }
{
    match add_local(world, object) {
        Err(halt) => Err(halt),
        Ok(()) => {
            *task = Task::Execute(body);
            Ok(())
        }
    }
}

/// The object that is caught, and then the block of a clause.
fn take_object(
    alloc: Global,
    code: &Code,
    world: &mut World,
    stack: &Stack,
    kind: Kind,
    body: u32,
    task: &mut Task,
) -> Result<(), Halt>
    ensures { Leads code.now (next_task result task.new) stack.now world.new world.old (λ d x. out_flow code.now d stack.now (bind (taken code.now kind) (λ o. bind (declare_step o) (λ u. d.exec body)) (state_at world.old x))) }
{
    match take(alloc, code, world, kind) {
        Err(halt) => Err(halt),
        Ok(object) => enter_block(code, world, stack, object, body, task),
    }
}

/// A unit of fuel, and then what is caught.
fn tick_catch(
    alloc: Global,
    code: &Code,
    world: &mut World,
    stack: &Stack,
    kind: Kind,
    body: u32,
    task: &mut Task,
) -> Result<(), Halt>
    ensures { Leads code.now (next_task result task.new) stack.now world.new world.old (λ d x. out_flow code.now d stack.now (bind tick_step (λ u. bind (taken code.now kind) (λ o. bind (declare_step o) (λ w. d.exec body))) (state_at world.old x))) }
{
    match tick(world) {
        Err(halt) => Err(halt),
        Ok(_) => take_object(alloc, code, world, stack, kind, body, task),
    }
}

/// A clause of a `try` catches a trap of this kind: the locals declared from here on end with it.
#[tactic(auto, using(crate::proofs::Moves::locals_long), unfolding(kr_mean::specs::Steps::bind))]
pub fn enter_catch(
    alloc: Global,
    code: &Code,
    world: &mut World,
    stack: &mut Stack,
    kind: Kind,
    body: u32,
    task: &mut Task,
) -> Result<(), Halt>
    ensures { Leads code.now (next_task result task.new) stack.new world.new world.old (λ d x. out_flow code.now d stack.old (catch_at code.now d body kind (state_at world.old x))) }
{
    scope(stack, world.locals.as_slice())?;
    tick_catch(alloc, code, world, stack, kind, body, task)
}
