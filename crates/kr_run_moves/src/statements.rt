// A statement is entered: what comes next, and the frames that wait for it.
ghost use Rattle.kr_code.specs.Doing.{flow_of};
ghost use Rattle.kr_run_frames.specs.Frames.{out_flow};
ghost use Rattle.kr_run_frames.specs.Leads.{Leads, next_task};
ghost use Rattle.kr_run_state.specs.Worlds.{state_at};

use crate::lists::all;
use crate::pushes::{catches as catch_by, flow, scope};
use crate::values::{stop, test_next};
use kr_code::{Code, Statement};
use kr_mean::Flow;
use kr_run_frames::{FlowFrame, Loop, Stack, Task, TestFrame};
use kr_run_state::{Halt, World};
use std::alloc::Global;

/// A statement, after its unit.
#[inline(always)]
#[tactic(auto, using(crate::proofs::Moves::locals_long), unfolding(kr_mean::specs::Steps::bind, kr_mean::specs::Thrown::attempted))]
pub fn enter_statement(
    alloc: Global,
    code: &Code,
    world: &mut World,
    stack: &mut Stack,
    statement: &Statement,
    task: &mut Task,
) -> Result<(), Halt>
    ensures { Leads code.now (next_task result task.new) stack.new world.new world.old (λ d x. out_flow code.now d stack.old (flow_of code.now d statement.now (state_at world.old x))) }
{
    match statement {
        Statement::Stuck => stop(code, world, stack, task),
        Statement::Empty => {
            *task = Task::Led(Flow::Next);
            Ok(())
        }
        Statement::Block(statements) => {
            scope(stack, world.locals.as_slice())?;
            all(code, world, stack, *statements, task)
        }
        Statement::Evaluate(node) => test_next(
            alloc,
            code,
            world,
            stack,
            TestFrame::Discard,
            *node,
            task,
        ),
        Statement::IfThen { condition, then } => {
            test_next(
                alloc,
                code,
                world,
                stack,
                TestFrame::Then(*then),
                *condition,
                task,
            )
        }
        Statement::IfElse {
            condition,
            then,
            otherwise,
        } => test_next(
            alloc,
            code,
            world,
            stack,
            TestFrame::Branch(*then, *otherwise),
            *condition,
            task,
        ),
        Statement::While { condition, body } => {
            *task = Task::Repeat(Loop::While(*condition, *body));
            Ok(())
        }
        Statement::Do { body, condition } => {
            flow(stack, FlowFrame::Again(Loop::While(*condition, *body)))?;
            *task = Task::Execute(*body);
            Ok(())
        }
        Statement::For {
            initial,
            condition,
            updates,
            body,
        } => {
            scope(stack, world.locals.as_slice())?;
            flow(
                stack,
                FlowFrame::First(Loop::For(*condition, *updates, *body)),
            )?;
            *task = Task::All(*initial);
            Ok(())
        }
        Statement::Break => {
            *task = Task::Led(Flow::Broke);
            Ok(())
        }
        Statement::Continue => {
            *task = Task::Led(Flow::Continued);
            Ok(())
        }
        Statement::Leave => {
            *task = Task::Led(Flow::Left);
            Ok(())
        }
        Statement::Return(node) => test_next(
            alloc,
            code,
            world,
            stack,
            TestFrame::Return,
            *node,
            task,
        ),
        Statement::Throw(node) => test_next(
            alloc,
            code,
            world,
            stack,
            TestFrame::Throw,
            *node,
            task,
        ),
        Statement::Try { body, catches } => {
            catch_by(stack, *catches)?;
            *task = Task::Execute(*body);
            Ok(())
        }
        Statement::Declare(_) => stop(code, world, stack, task),
    }
}
