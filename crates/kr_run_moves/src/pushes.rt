// Frames that wait for what comes next.
ghost use Rattle.std.specs.Prelude.{◌≡◌, ◌∷◌, [], length, OnOk};
ghost use Rattle.kr_run_frames.specs.Frame as frames;
ghost use Rattle.kr_run_frames.specs.Kept.{HasNoList, frame_of};
ghost use Rattle.kr_run_frames.specs.declared.frame.ValueFrame.TheVariants as values;
ghost use Rattle.kr_run_frames.specs.declared.task.Task.TheVariants as tasks;
ghost use Rattle.kr_mean.specs.Steps.{bind};
ghost use Rattle.kr_code.specs.declared.code.Code.{Code};
ghost use Rattle.kr_run_frames.specs.Frames.{out_value, got, wrote};
ghost use Rattle.kr_run_frames.specs.Leads.{Leads, next_task};
ghost use Rattle.kr_run_state.specs.declared.world.World.{World};
ghost use Rattle.kr_run_state.specs.Worlds.{state_at};

use kr_code::Nodes;
use kr_run_frames::{
    FlowFrame, Goal, Stack, Task, TestFrame, UnitFrame, ValueFrame, Waiting, WriteFrame,
};
use kr_run_state::{Halt, Local, NoMemory};
use kr_value::Value;

/// A frame more, without lists.
#[inline(always)]
pub fn push(stack: &mut Stack, frame: Waiting) -> Result<(), NoMemory>
    requires { HasNoList frame }
    ensures pushed { OnOk result (stack.new ≡ frame_of frame [] [] ∷ stack.old) }
{
    stack.push(frame)
}

/// A block is entered, with these locals.
#[inline(always)]
pub(crate) fn scope(stack: &mut Stack, locals: &[Local]) -> Result<(), NoMemory>
    ensures pushed { OnOk result (stack.new ≡ frames.Scope (length locals.now) ∷ stack.old) }
{
    stack.push_scope(locals)
}

#[inline(always)]
pub fn value(stack: &mut Stack, frame: ValueFrame) -> Result<(), NoMemory>
    ensures pushed { OnOk result (stack.new ≡ frames.Value frame ∷ stack.old) }
{
    push(stack, Waiting::Value(frame))
}

#[inline(always)]
pub fn write(stack: &mut Stack, frame: WriteFrame) -> Result<(), NoMemory>
    ensures pushed { OnOk result (stack.new ≡ frames.Value (values.Write frame) ∷ stack.old) }
{
    value(stack, ValueFrame::Write(frame))
}

#[inline(always)]
pub(crate) fn test(stack: &mut Stack, frame: TestFrame) -> Result<(), NoMemory>
    ensures pushed { OnOk result (stack.new ≡ frames.Test frame ∷ stack.old) }
{
    push(stack, Waiting::Test(frame))
}

#[inline(always)]
pub fn flow(stack: &mut Stack, frame: FlowFrame) -> Result<(), NoMemory>
    ensures pushed { OnOk result (stack.new ≡ frames.Flow frame ∷ stack.old) }
{
    push(stack, Waiting::Flow(frame))
}

/// The block of a `try` is entered, with these clauses.
pub(crate) fn catches(stack: &mut Stack, clauses: Nodes) -> Result<(), NoMemory>
    ensures pushed { OnOk result (stack.new ≡ frames.Catch clauses ∷ stack.old) }
{
    push(stack, Waiting::Catch(clauses))
}

#[inline(always)]
pub fn unit(stack: &mut Stack, frame: UnitFrame) -> Result<(), NoMemory>
    ensures pushed { OnOk result (stack.new ≡ frames.Unit frame ∷ stack.old) }
{
    push(stack, Waiting::Unit(frame))
}

/// The arguments of a call are next, after those that are there.
pub fn await_arguments(
    stack: &mut Stack,
    goal: Goal,
    nodes: Nodes,
    found: &[Value],
) -> Result<(), NoMemory>
    ensures pushed { OnOk result (stack.new ≡ frames.Arguments goal nodes found.now ∷ stack.old) }
{
    stack.push_arguments(goal, nodes, found)
}

/// A node's value comes next, and then the frame.
#[inline(always)]
#[tactic(auto, unfolding(kr_mean::specs::Steps::bind))]
pub fn first(stack: &mut Stack, frame: ValueFrame, node: u32, task: &mut Task) -> Result<(), Halt>
    ensures { (code : Code) (world : World) → Leads code (next_task result task.new) stack.new world world (λ d x. out_value code d stack.old (bind (d.value node) (got code d frame) (state_at world x))) }
{
    value(stack, frame)?;
    *task = Task::Evaluate(node);
    Ok(())
}

/// A node's value comes next, and then the frame that writes.
#[inline(always)]
#[tactic(auto, unfolding(kr_mean::specs::Steps::bind))]
pub(crate) fn then_write(
    stack: &mut Stack,
    frame: WriteFrame,
    node: u32,
    task: &mut Task,
) -> Result<(), Halt>
    ensures { (code : Code) (world : World) → Leads code (next_task result task.new) stack.new world world (λ d x. out_value code d stack.old (bind (d.value node) (wrote code d frame) (state_at world x))) }
{
    write(stack, frame)?;
    *task = Task::Evaluate(node);
    Ok(())
}
