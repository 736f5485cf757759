// How a run goes on from a step that reads.
ghost use Rattle.std.specs.Prelude.{◌≡◌, ◌<◌, ◌∷◌, List, drop, length, IfSome, Ok};
ghost use Rattle.kr_value.specs.declared.object.Spot.TheVariants.{Field};
ghost use Rattle.kr_value.specs.declared.value.Value.TheVariants.{Ref as Reference};
ghost use Rattle.kr_mean.specs.Steps.{load as load_step};
ghost use Rattle.kr_code.specs.Steps.{load_named as load_named_step};
ghost use Rattle.kr_code.specs.declared.code.Code.{Code};
ghost use Rattle.kr_code.specs.Doing.{Doing, IsMeaning};
ghost use Rattle.kr_run_frames.specs.Frame.{Frame};
ghost use Rattle.kr_run_frames.specs.Frame as frames;
ghost use Rattle.kr_run_frames.specs.Frames.{resumed};
ghost use Rattle.kr_run_frames.specs.declared.task.Task.TheVariants as tasks;
ghost use Rattle.kr_run_state.specs.Noting.{noting};
ghost use Rattle.kr_run_state.specs.Actions.{acted};
ghost use Rattle.kr_run_state.specs.Worlds.{Agrees, state_at, state_of};
ghost use Rattle.kr_run_state.specs.Reading.{OnlyReads};
ghost use Rattle.kr_run_lookahead.specs.Ahead.{Grows, IsSpent, IsTold, TellsFrom, TellsOf, comes, flows};

use crate::leaving::left_ahead;
use crate::passing::{flow_from, flow_onward, value_from};
use kr_code::Code;
use kr_mean::Flow;
use kr_run_frames::{FlowFrame, Stack, TestFrame, ValueFrame, Waiting};
use kr_run_state::{Action, World, class_of, element, load_named, made_number};
use kr_value::{Class, Obj, SlotPlace, Spot, Value};

/// A value passes a frame that makes a value of it.
#[inline(always)]
fn pass_value(code: &Code, world: &mut World, frame: &ValueFrame, given: Value) -> Option<Value>
    ensures passes { IfSome result (λ v. (d : Doing) (fs : List Frame) → IsMeaning code.now d → comes code.now d (frames.Value frame.now ∷ fs) world.old given ≡ comes code.now d fs world.new v) }
    ensures spent { IsSpent world.old world.new }
{
    match value_from(code, &*world, frame, given, world.fuel) {
        None => None,
        Some(found) => {
            world.fuel = found.fuel;
            Some(found.value)
        }
    }
}

/// A value passes a frame that leads on.
#[inline(always)]
fn pass_test(code: &Code, world: &mut World, frame: &TestFrame, given: Value) -> Option<Flow>
    ensures passes { IfSome result (λ flow. (d : Doing) (fs : List Frame) → IsMeaning code.now d → comes code.now d (frames.Test frame.now ∷ fs) world.old given ≡ flows code.now d fs world.new flow) }
    ensures spent { IsSpent world.old world.new }
{
    match flow_from(code, &*world, frame, given, world.fuel) {
        None => None,
        Some(led) => {
            world.fuel = led.fuel;
            Some(led.flow)
        }
    }
}

/// A flow passes a frame.
#[inline(always)]
fn pass_flow(code: &Code, world: &mut World, frame: &FlowFrame, flow: Flow) -> Option<Flow>
    ensures passes { IfSome result (λ next. (d : Doing) (fs : List Frame) → IsMeaning code.now d → flows code.now d (frames.Flow frame.now ∷ fs) world.old flow ≡ flows code.now d fs world.new next) }
    ensures spent { IsSpent world.old world.new }
{
    match flow_onward(code, &*world, frame, flow, world.fuel) {
        None => None,
        Some(led) => {
            world.fuel = led.fuel;
            Some(led.flow)
        }
    }
}

/// A block's locals end.
#[inline(always)]
fn pass_scope(world: &mut World, count: usize)
    ensures passes { (code : Code) (d : Doing) (fs : List Frame) (flow : Flow) → flows code d (frames.Scope count ∷ fs) world.old flow ≡ flows code d fs world.new flow }
    ensures spent { IsSpent world.old world.new }
{
    world.locals.truncate(count);
}

/// The value that the run gives where the frames below so many receive a flow.
fn flow_ahead(
    code: &Code,
    world: &mut World,
    stack: &Stack,
    depth: usize,
    flow: Flow,
) -> Option<Value>
    ensures told { IfSome result (λ v. TellsOf code.now (drop depth stack.now) world.old flow v) }
    ensures spent { IsSpent world.old world.new }
{
    let mut next = flow;
    let mut at = depth;
    'frames: while at < stack.len() {
        if let Flow::Gave(value) = next {
            return left_ahead(code, stack, at, value, world.fuel);
        }
        match stack.frame_at(at) {
            None => return None,
            Some(waiting) => match waiting {
                Waiting::Flow(frame) => match pass_flow(code, world, frame, next) {
                    None => return None,
                    Some(led) => {
                        next = led;
                        at += 1;
                    }
                },
                Waiting::Scope(count) => {
                    pass_scope(world, *count as usize);
                    at += 1;
                }
                _ => return None,
            },
        }
    }
    None
}

/// The value that the run gives where the frames receive one.
fn value_ahead(code: &Code, world: &mut World, stack: &Stack, given: Value) -> Option<Value>
    ensures told { IfSome result (λ v. TellsFrom code.now stack.now world.old given v) }
    ensures spent { IsSpent world.old world.new }
{
    let mut value = given;
    let mut at = 0;
    'frames: while at < stack.len() {
        match stack.frame_at(at) {
            None => return None,
            Some(waiting) => match waiting {
                Waiting::Value(frame) => match pass_value(code, world, frame, value) {
                    None => return None,
                    Some(made) => {
                        value = made;
                        at += 1;
                    }
                },
                Waiting::Test(frame) => {
                    return match pass_test(code, world, frame, value) {
                        None => None,
                        Some(flow) => flow_ahead(code, world, stack, at + 1, flow),
                    };
                }
                _ => return None,
            },
        }
    }
    Some(value)
}

/// A field of a candidate, which is read, if there is memory.
#[inline(always)]
fn candidate_field(world: &mut World, object: Obj, at: u32) -> Option<Value>
    requires { object < length world.old.candidates }
    ensures agrees { IfSome result (λ v. Agrees (Ok v) world.new world.old (λ x. load_step (Reference object) (Field at) (state_at world.old x))) }
    ensures only { OnlyReads world.old world.new }
{
    let Some(value) = world.candidates.read(object, Spot::Field(at)) else {
        return None;
    };
    match world.reads.note(SlotPlace::At(object, Spot::Field(at))) {
        Ok(()) => Some(value),
        Err(_) => None,
    }
}

/// The field of a name, or an array's length, if it can be read: a run pauses before it reads a candidate, so a candidate's
/// field costs little here, and one of what the run has made isn't looked for.
#[inline(always)]
#[tactic(auto, unfolding(kr_mean::specs::Steps::bind))]
fn load(code: &Code, world: &mut World, name: u32, object: Value) -> Option<Value>
    ensures agrees { IfSome result (λ v. Agrees (Ok v) world.new world.old (λ x. load_named_step code.now name object (state_at world.old x))) }
    ensures only { OnlyReads world.old world.new }
{
    match object {
        Value::Ref(number) => match class_of(world, number) {
            Class::Object(class) => match code.position(name, class) {
                Some(at) => match made_number(world, number) {
                    None => candidate_field(world, number, at),
                    Some(_) => None,
                },
                None => None,
            },
            _ => match load_named(code, world, name, object) {
                Ok(value) => Some(value),
                Err(_) => None,
            },
        },
        _ => None,
    }
}

/// A value is read, of a field or an element, if it can be.
#[inline(always)]
#[tactic(auto, unfolding(kr_mean::specs::Steps::bind))]
fn read(code: &Code, world: &mut World, action: Action) -> Option<Value>
    ensures agrees { IfSome result (λ v. Agrees (Ok v) world.new world.old (λ x. acted code.now action (state_at world.old x))) }
    ensures only { OnlyReads world.old world.new }
{
    match action {
        Action::Load(name, object) => load(code, world, name, object),
        Action::Element(array, index) => match element(world, array, index) {
            Ok(value) => Some(value),
            Err(_) => None,
        },
        _ => None,
    }
}

/// The value of a run that is before a step that reads, with these frames waiting, where it is known at once. Candidates and
/// made objects are unchanged; fuel and locals are used up.
pub fn ahead(code: &Code, world: &mut World, stack: &Stack, action: Action) -> Option<Value>
    ensures told { IfSome result (λ v. (d : Doing) → IsMeaning code.now d → IsTold v world.new.reads (noting world.old.reads (resumed code.now d stack.now (tasks.Act action) (state_of world.old)))) }
    ensures made { world.new.made ≡ world.old.made }
    ensures candidates { world.new.candidates ≡ world.old.candidates }
    ensures reads { Grows world.old.reads world.new.reads }
{
    match read(code, world, action) {
        None => None,
        Some(given) => value_ahead(code, world, stack, given),
    }
}
