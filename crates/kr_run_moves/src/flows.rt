// A frame receives a statement's end.
ghost use Rattle.kr_run_frames.specs.Frames.{out_flow, led};
ghost use Rattle.kr_run_frames.specs.Leads.{Leads, next_task};
ghost use Rattle.kr_run_state.specs.Worlds.{state_at};

use crate::lists::all;
use kr_code::Code;
use kr_mean::Flow;
use kr_run_frames::{FlowFrame, Stack, Task};
use kr_run_state::{Halt, World};

/// A flow that leads on.
#[inline(always)]
#[tactic(auto, unfolding(kr_mean::specs::Steps::bind))]
pub fn take_flow(
    code: &Code,
    world: &World,
    stack: &mut Stack,
    frame: FlowFrame,
    flow: Flow,
    task: &mut Task,
) -> Result<(), Halt>
    ensures { Leads code.now (next_task result task.new) stack.new world.now world.now (λ d x. out_flow code.now d stack.old (led code.now d frame flow (state_at world.now x))) }
{
    match frame {
        FlowFrame::Rest(others) => match flow {
            Flow::Next => all(code, world, stack, others, task),
            _ => {
                *task = Task::Led(flow);
                Ok(())
            }
        },
        FlowFrame::Again(turn) => match flow {
            Flow::Next => {
                *task = Task::Repeat(turn);
                Ok(())
            }
            Flow::Continued => {
                *task = Task::Repeat(turn);
                Ok(())
            }
            Flow::Broke => {
                *task = Task::Led(Flow::Next);
                Ok(())
            }
            _ => {
                *task = Task::Led(flow);
                Ok(())
            }
        },
        FlowFrame::Update(updates) => match flow {
            Flow::Next => {
                *task = Task::Update(updates);
                Ok(())
            }
            Flow::Continued => {
                *task = Task::Update(updates);
                Ok(())
            }
            _ => {
                *task = Task::Led(flow);
                Ok(())
            }
        },
        FlowFrame::First(turn) => match flow {
            Flow::Next => {
                *task = Task::Repeat(turn);
                Ok(())
            }
            _ => {
                *task = Task::Led(flow);
                Ok(())
            }
        },
    }
}
