// Before which steps a run pauses: correctness doesn't depend on it, but that a run which has written a candidate doesn't.
ghost use Rattle.std.specs.Prelude.{◌≡◌, IfSome, true};
ghost use Rattle.kr_run_frames.specs.declared.task.Task.TheVariants.{Act};

use kr_code::Code;
use kr_run_frames::{Stack, Task};
use kr_run_state::{Action, World};
use kr_value::{Class, Obj, SlotPlace, Spot, Value};

/// Whether a candidate's spot wasn't read yet.
fn is_unread(world: &World, object: Obj, spot: Spot) -> bool {
    (object as usize) < world.candidates.len() && !world.reads.contains(SlotPlace::At(object, spot))
}

/// Whether loading the field of a name, or an array's length, reads a place for the first time.
fn loads_unread(code: &Code, world: &World, name: u32, object: Value) -> bool {
    let Value::Ref(number) = object else {
        return false;
    };
    if (number as usize) >= world.candidates.len() {
        return false;
    }
    match world.candidates.class_of(number) {
        Class::Object(class) => match code.position(name, class) {
            Some(at) => is_unread(world, number, Spot::Field(at)),
            None => false,
        },
        _ => is_unread(world, number, Spot::Length),
    }
}

/// Whether an element of an array reads a place for the first time.
fn reads_unread(world: &World, array: Value, index: Value) -> bool {
    let (Value::Ref(number), Value::Int(at)) = (array, index) else {
        return false;
    };
    if is_unread(world, number, Spot::Length) {
        return true;
    }
    match u32::try_from(at) {
        Ok(element) => is_unread(world, number, Spot::Element(element)),
        Err(_) => false,
    }
}

/// Whether a step reads a place for the first time.
fn action_reads(code: &Code, world: &World, action: Action) -> bool {
    match action {
        Action::Load(name, object) => loads_unread(code, world, name, object),
        Action::Element(array, index) => reads_unread(world, array, index),
        _ => false,
    }
}

/// Whether a copy of a run's position is small: few frames wait, and little was made and read.
fn is_small(world: &World, stack: &Stack) -> bool {
    let made = world.made.len();
    if stack.len() > 128 || made > 64 || world.reads.as_slice().len() > 512 {
        return false;
    }
    let mut room = 512usize;
    for object in 0..made as u32 {
        let size = world.made.size_of(object);
        if size > room {
            return false;
        }
        room -= size;
    }
    true
}

/// Where a run pauses that has written no candidate: before it reads a place for the first time, where a copy is small.
#[inline(always)]
pub(crate) fn pause_of(code: &Code, world: &World, stack: &Stack, task: &Task) -> Option<Action>
    ensures before { IfSome result (λ action. task.now ≡ Act action) }
    ensures frozen { IfSome result (λ action. world.now.is_frozen ≡ true) }
{
    let Task::Act(action) = task else {
        return None;
    };
    if world.is_frozen && action_reads(code, world, *action) && is_small(world, stack) {
        Some(*action)
    } else {
        None
    }
}
