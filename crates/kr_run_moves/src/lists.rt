// Lists of nodes: statements, declarators, updates, arguments.
ghost use Rattle.std.specs.Prelude.{◌≡◌, ◌∷◌, None, Some};
ghost use Rattle.kr_mean.specs.Steps.{bind};
ghost use Rattle.kr_code.specs.Tables.{listed};
ghost use Rattle.kr_code.specs.Doing.{all_at, all_declared, declared, updates_at};
ghost use Rattle.kr_run_frames.specs.Frames.{out_flow, repeated, tested};
ghost use Rattle.kr_run_frames.specs.declared.frame.TestFrame.TheVariants as tests;
ghost use Rattle.kr_run_frames.specs.Leads.{Leads, next_task};
ghost use Rattle.kr_run_state.specs.Worlds.{state_at};

use crate::pushes::flow;
use crate::values::{begin_round, initial_next, stop, wait_for_test};
use kr_code::{Code, Declarator, Nodes};
use kr_mean::Flow;
use kr_run_frames::{FlowFrame, Loop, Stack, Task, TestFrame};
use kr_run_state::{Halt, World, declare as add_local, tick};
use kr_value::Value;
use std::alloc::Global;

/// The last one of some statements: none waits for it.
#[inline(always)]
fn last(
    code: &Code,
    world: &World,
    stack: &Stack,
    node: u32,
    others: Nodes,
    task: &mut Task,
) -> Result<(), Halt>
    requires { others.count ≡ 0 }
    ensures { Leads code.now (next_task result task.new) stack.now world.now world.now (λ d x. out_flow code.now d stack.now (all_at d (node ∷ listed code.now others) (state_at world.now x))) }
{
    *task = Task::Execute(node);
    Ok(())
}

/// Statements, one after another.
#[inline(always)]
#[tactic(auto, unfolding(kr_mean::specs::Steps::bind))]
pub fn all(
    code: &Code,
    world: &World,
    stack: &mut Stack,
    nodes: Nodes,
    task: &mut Task,
) -> Result<(), Halt>
    ensures { Leads code.now (next_task result task.new) stack.new world.now world.now (λ d x. out_flow code.now d stack.old (all_at d (listed code.now nodes) (state_at world.now x))) }
{
    match code.split(nodes) {
        None => {
            *task = Task::Led(Flow::Next);
            Ok(())
        }
        Some((node, others)) => {
            if others.count == 0 {
                return last(code, world, stack, node, others, task);
            }
            flow(stack, FlowFrame::Rest(others))?;
            *task = Task::Execute(node);
            Ok(())
        }
    }
}

/// An update of a loop; where it is the last one, no frame for others waits.
#[inline(always)]
fn update_by(
    alloc: Global,
    code: &Code,
    world: &mut World,
    stack: &mut Stack,
    node: u32,
    others: Nodes,
    task: &mut Task,
) -> Result<(), Halt>
    ensures { Leads code.now (next_task result task.new) stack.new world.new world.old (λ d x. out_flow code.now d stack.old (updates_at d (node ∷ listed code.now others) (state_at world.old x))) }
{
    if others.count == 0 {
        return wait_for_test(alloc, code, world, stack, TestFrame::Discard, node, task);
    }
    wait_for_test(
        alloc,
        code,
        world,
        stack,
        TestFrame::Updates(others),
        node,
        task,
    )
}

/// The updates of a loop.
#[tactic(auto, unfolding(kr_mean::specs::Steps::bind))]
pub fn update(
    alloc: Global,
    code: &Code,
    world: &mut World,
    stack: &mut Stack,
    nodes: Nodes,
    task: &mut Task,
) -> Result<(), Halt>
    ensures { Leads code.now (next_task result task.new) stack.new world.new world.old (λ d x. out_flow code.now d stack.old (updates_at d (listed code.now nodes) (state_at world.old x))) }
{
    match code.split(nodes) {
        None => {
            *task = Task::Led(Flow::Next);
            Ok(())
        }
        Some((node, others)) => update_by(alloc, code, world, stack, node, others, task),
    }
}

/// A round of a loop, if there is one more.
#[inline(always)]
#[tactic(auto, unfolding(kr_mean::specs::Steps::bind))]
pub fn repeat(
    alloc: Global,
    code: &Code,
    world: &mut World,
    stack: &mut Stack,
    turn: Loop,
    task: &mut Task,
) -> Result<(), Halt>
    ensures { Leads code.now (next_task result task.new) stack.new world.new world.old (λ d x. out_flow code.now d stack.old (repeated code.now d turn (state_at world.old x))) }
{
    match tick(world) {
        Err(halt) => Err(halt),
        Ok(_) => begin_round(alloc, code, world, stack, turn, task),
    }
}

/// A local is declared, whose initial value, if it has one, comes next, and then the other declarators.
fn begin_local(
    alloc: Global,
    code: &Code,
    world: &mut World,
    stack: &mut Stack,
    local: u32,
    initial: Option<u32>,
    others: Nodes,
    given: Value,
    task: &mut Task,
) -> Result<(), Halt>
    ensures { Leads code.now (next_task result task.new) stack.new world.new world.old (λ d x. out_flow code.now d stack.old (tested code.now d (tests.Declared local initial others) given (state_at world.old x))) }
{
    match initial {
        None => next_declared(code, &*world, stack, local, others, given, task),
        Some(node) => initial_next(alloc, code, world, stack, local, node, others, task),
    }
}

/// A local without an initial value is declared; the other declarators come next.
#[tactic(auto, unfolding(kr_mean::specs::Steps::bind))]
fn next_declared(
    code: &Code,
    world: &World,
    stack: &Stack,
    local: u32,
    others: Nodes,
    given: Value,
    task: &mut Task,
) -> Result<(), Halt>
    ensures { Leads code.now (next_task result task.new) stack.now world.now world.now (λ d x. out_flow code.now d stack.now (tested code.now d (tests.Declared local None others) given (state_at world.now x))) }
{
    *task = Task::Declare(others);
    Ok(())
}

/// A unit, a new local, its initial value, and then the other declarators.
fn declare_local(
    alloc: Global,
    code: &Code,
    world: &mut World,
    stack: &mut Stack,
    declarator: Declarator,
    others: Nodes,
    task: &mut Task,
) -> Result<(), Halt>
    ensures { Leads code.now (next_task result task.new) stack.new world.new world.old (λ d x. out_flow code.now d stack.old (bind (declared d (Some declarator)) (λ u. all_declared code.now d (listed code.now others)) (state_at world.old x))) }
{
    match add_local(world, declarator.default) {
        Err(halt) => Err(halt),
        Ok(given) => begin_local(
            alloc,
            code,
            world,
            stack,
            declarator.local,
            declarator.initial,
            others,
            given,
            task,
        ),
    }
}

/// Declarators, one after another.
#[tactic(auto, unfolding(kr_mean::specs::Steps::bind))]
pub fn declare(
    alloc: Global,
    code: &Code,
    world: &mut World,
    stack: &mut Stack,
    nodes: Nodes,
    task: &mut Task,
) -> Result<(), Halt>
    ensures { Leads code.now (next_task result task.new) stack.new world.new world.old (λ d x. out_flow code.now d stack.old (all_declared code.now d (listed code.now nodes) (state_at world.old x))) }
{
    match code.split(nodes) {
        None => {
            *task = Task::Led(Flow::Next);
            Ok(())
        }
        Some((node, others)) => match code.declarator(node) {
            None => stop(code, &*world, stack, task),
            Some(declarator) => declare_local(alloc, code, world, stack, declarator, others, task),
        },
    }
}
