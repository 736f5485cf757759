// Frames that are passed by: by a flow that leaves the body, or by what stops the run, unless a `try` catches it.
ghost use Rattle.std.specs.Prelude.{◌≡◌, IfSome, MatchOption, None, OnOk, true};
ghost use Rattle.kr_mean.specs.declared.kind.Stop.{Stop as Reason};
ghost use Rattle.kr_code.specs.declared.code.Code.{Code as Program};
ghost use Rattle.kr_code.specs.Tables.{listed};
ghost use Rattle.kr_run.specs.Answers.{StepsTo};
ghost use Rattle.kr_run.specs.Unwinding.{Comes, HasPassed, IsCaught, IsLeaving, MayAwait, PassesBy, clause_at, clause_in, out_passing};
ghost use Rattle.kr_run.specs.declared.unwinding.Passing.TheVariants as passing;
ghost use Rattle.kr_run_frames.specs.Frames.{stopped};
ghost use Rattle.kr_run_state.specs.Worlds.{state_at};

use crate::steps::Step;
use kr_code::{Code, Nodes};
use kr_mean::{Flow, Kind, Stop};
use kr_run_frames::{Stack, Task, Waiting};
use kr_run_state::{Halt, NoMemory, World};
use kr_value::Value;

/// An outcome that passes frames by: a flow, or what stops the run.
#[derive(Clone, Copy)]
pub enum Passing {
    Flow(Flow),
    Stop(Stop),
}

/// A clause that catches a trap of this kind: its block.
#[derive(Clone, Copy)]
pub struct Caught {
    pub kind: Kind,
    pub body: u32,
}

/// The scope that ends with a frame: none, the locals of a block after so many, or a body, whose caller had this `this` and the
/// frame's locals.
#[derive(Clone, Copy)]
pub enum Ends {
    Nothing,
    Scope(usize),
    Body(Value),
}

/// Whether a flow leaves the body.
#[inline(always)]
pub(crate) fn is_leaving(flow: Flow) -> bool
    ensures { result ≡ true → IsLeaving flow }
{
    match flow {
        Flow::Left => true,
        Flow::Gave(_) => true,
        Flow::Next => false,
        Flow::Broke => false,
        Flow::Continued => false,
    }
}

/// The scope that ends with a frame that a flow passes by, if it does: blocks, those of a `try` too, and where it leaves the body frames that wait
/// for a statement's end.
#[inline(always)]
#[tactic(auto, using(crate::proofs::Passing::leaves))]
fn flow_past(code: &Code, frame: &Waiting, flow: Flow) -> Option<Ends>
    ensures { IfSome result (λ ends. PassesBy code.now frame.now (passing.Flow flow) ends) }
{
    match *frame {
        Waiting::Catch(_) => Some(Ends::Nothing),
        Waiting::Scope(count) => Some(Ends::Scope(count as usize)),
        Waiting::Flow(_) => {
            if is_leaving(flow) {
                Some(Ends::Nothing)
            } else {
                None
            }
        }
        _ => None,
    }
}

/// The first clause that fits a kind.
fn clause_for(code: &Code, clauses: Nodes, kind: Kind) -> Option<Caught>
    ensures { result ≡ clause_at code.now kind (listed code.now clauses) }
{
    let class = code.class_in_kind(kind);
    let mut left = clauses;
    'clauses: while let Some((node, others)) = code.split(left) {
        match code.catch(node) {
            None => return None,
            Some(clause) => {
                if code.is_caught_by(clause.caught, class) {
                    return Some(Caught {
                        kind,
                        body: clause.body,
                    });
                }
                left = others;
            }
        }
    }
    None
}

/// The clause by which a frame catches what stops the run, if it does.
#[inline(always)]
fn catcher(code: &Code, frame: &Waiting, why: Stop) -> Option<Caught>
    ensures { result ≡ clause_in code.now frame.now why }
{
    match *frame {
        Waiting::Catch(clauses) => match why {
            Stop::Trapped(kind) => clause_for(code, clauses, kind),
            Stop::OutOfFuel => None,
            Stop::Stuck => None,
        },
        _ => None,
    }
}

/// The scope that ends with a frame that what stops the run passes by.
#[tactic(auto, using(crate::proofs::Passing::uncaught))]
fn stop_past(frame: &Waiting) -> Ends
    ensures { (code : Program) (e : Reason) → clause_in code frame.now e ≡ None → PassesBy code frame.now (passing.Stop e) result }
{
    match *frame {
        Waiting::Scope(count) => Ends::Scope(count as usize),
        Waiting::Leave(_, this, _) => Ends::Body(this),
        Waiting::Back(this, _) => Ends::Body(this),
        Waiting::Value(_) => Ends::Nothing,
        Waiting::Test(_) => Ends::Nothing,
        Waiting::Flow(_) => Ends::Nothing,
        Waiting::Unit(_) => Ends::Nothing,
        Waiting::Arguments(_, _, _) => Ends::Nothing,
        Waiting::UpArguments(_, _, _) => Ends::Nothing,
        Waiting::UpEnter(_, _) => Ends::Nothing,
        Waiting::Construct(_, _, _) => Ends::Nothing,
        Waiting::Catch(_) => Ends::Nothing,
        Waiting::Complete => Ends::Nothing,
        Waiting::Made(_) => Ends::Nothing,
        Waiting::Store(_, _) => Ends::Nothing,
    }
}

/// The scope that ends with a frame by which what stops the run isn't caught.
#[inline(always)]
fn stop_behind(code: &Code, frame: &Waiting, why: Stop) -> Option<Ends>
    ensures { MatchOption result (MayAwait code.now frame.now (passing.Stop why)) (λ ends. PassesBy code.now frame.now (passing.Stop why) ends) }
{
    match catcher(code, frame, why) {
        None => Some(stop_past(frame)),
        Some(_) => None,
    }
}

/// The scope that ends with a frame that is passed by, if it is.
#[inline(always)]
fn past(code: &Code, frame: &Waiting, by: Passing) -> Option<Ends>
    ensures { MatchOption result (MayAwait code.now frame.now by) (λ ends. PassesBy code.now frame.now by ends) }
{
    match by {
        Passing::Flow(flow) => flow_past(code, frame, flow),
        Passing::Stop(why) => stop_behind(code, frame, why),
    }
}

/// All frames are left that don't wait for what comes.
#[tactic(auto, using(crate::proofs::Passing::has_passed, crate::proofs::Passing::all_passed))]
pub(crate) fn pass_by(
    code: &Code,
    world: &mut World,
    stack: &mut Stack,
    by: Passing,
) -> Result<(), NoMemory>
    ensures comes { OnOk result (Comes code.now by stack.new world.new world.old (λ d x. out_passing code.now d stack.old by (state_at world.old x))) }
    ensures all { OnOk result (HasPassed code.now by stack.new) }
{
    'frames: while let Some(top) = stack.top() {
        let Some(ends) = past(code, top, by) else {
            return Ok(());
        };
        match ends {
            Ends::Nothing => stack.drop_top(),
            Ends::Scope(count) => {
                stack.drop_top();
                world.locals.truncate(count);
            }
            Ends::Body(this) => {
                stack.take_locals(&mut world.locals)?;
                world.this = this;
            }
        }
    }
    Ok(())
}

/// The topmost frame catches what stops the run, or no frame is left.
#[tactic(auto, using(crate::proofs::Passing::ends))]
fn catch_or_end(
    code: &Code,
    world: &World,
    stack: &mut Stack,
    why: Stop,
    task: &mut Task,
) -> Result<Step, Halt>
    requires { IsCaught code.now stack.old why }
    ensures { StepsTo code.now result task.new stack.new world.now world.now (λ d x. stopped code.now d stack.old why (state_at world.now x)) }
{
    let Some(top) = stack.top() else {
        return Err(Halt::Ended(why));
    };
    match catcher(code, top, why) {
        None => Err(Halt::Ended(why)),
        Some(caught) => {
            stack.drop_top();
            *task = Task::Catch(caught.kind, caught.body);
            Ok(Step::More)
        }
    }
}

/// The run stops: frames are left, all of them unless one catches it.
#[inline(never)]
#[tactic(auto, using(crate::proofs::Passing::ends_then))]
pub(crate) fn end(
    code: &Code,
    world: &mut World,
    stack: &mut Stack,
    why: Stop,
    task: &mut Task,
) -> Result<Step, Halt>
    ensures { StepsTo code.now result task.new stack.new world.new world.old (λ d x. stopped code.now d stack.old why (state_at world.old x)) }
{
    match pass_by(code, world, stack, Passing::Stop(why)) {
        Ok(()) => catch_or_end(code, &*world, stack, why, task),
        Err(memory) => Err(Halt::Memory(memory)),
    }
}
