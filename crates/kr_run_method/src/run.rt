// A method is run.
ghost use Rattle.std.specs.Prelude.{◌≡◌, [], IfOk, None, Result};
ghost use Rattle.kr_mean.specs.declared.kind.Stop.{Stop};
ghost use Rattle.kr_code.specs.Doing.{Doing, IsMeaning, run_method as run_step};
ghost use Rattle.kr_code.specs.Resolved.{IsCodeOf, Numbering};
ghost use Rattle.kr_code.specs.Tables.{method_at};
ghost use Rattle.kr_run_method.specs.Executed.{IsMethodOf, begun, ending_of, executed, executed_at, gives_nothing, left_by};
ghost use Rattle.kr_run_method.specs.Fits.{IsUnstuck};
ghost use Rattle.kr_run_frames.specs.Frames.{resumed};
ghost use Rattle.kr_mean.specs.Program.{Program};
ghost use Rattle.kr_run.specs.Answers.{Answers};
ghost use Rattle.kr_classes_table.specs.Table.{Method as TableMethod};
ghost use Rattle.kr_run_state.specs.Worlds.{state_at, state_of};

use crate::executed::{Executed, Method};
use kr_base::{Countdown, NoMemory};
use kr_classes_table::MethodId;
use kr_code::{Code, Nodes};
use kr_heap::Heap;
use kr_mean::Stop;
use kr_run::{Step, advance};
use kr_run_frames::{Goal, Stack, Task};
use kr_run_state::{Halt, Reads, World, ended};
use kr_value::Value;
use std::alloc::Global;

/// The world in which a run begins. It has no candidates.
pub(crate) fn world_of(alloc: Global, heap: Heap, fuel: u64) -> World
    ensures state { state_of result ≡ begun heap fuel }
    ensures locals { result.locals.items ≡ [] }
    ensures olds { result.olds.items ≡ [] }
    ensures thrown { result.thrown ≡ None }
    ensures candidates { result.candidates ≡ [] }
{
    World {
        this: Value::Null,
        locals: Vec::new(alloc),
        result: None,
        olds: Vec::new(alloc),
        thrown: None,
        candidates: Heap::new(alloc),
        made: heap,
        is_frozen: true,
        fuel,
        reads: Reads::new(alloc),
    }
}

/// Runs the machine from a task on, to the run's end.
fn run(
    alloc: Global,
    code: &Code,
    world: &mut World,
    stack: &mut Stack,
    task: Task,
) -> Result<Value, Halt>
    ensures { Answers code.now result world.new world.old (λ d x. resumed code.now d stack.old task (state_at world.old x)) }
{
    let mut next = task;
    let mut left = Countdown::start();
    'steps: while !left.is_over() {
        left.count();
        match advance(alloc, code, world, stack, &mut next) {
            Err(Halt::Ended(end)) => return Err(Halt::Ended(end)),
            Err(Halt::Memory(why)) => return Err(Halt::Memory(why)),
            Ok(Step::Finished(given)) => return Ok(given),
            Ok(Step::More) => {}
        }
    }
    Err(Halt::Memory(left.at_end()))
}

/// Calls a method on a receiver and arguments, with the room of a stack: what it gives, or how the run ends.
pub fn call(
    alloc: Global,
    code: &Code,
    world: &mut World,
    stack: &mut Stack,
    method: MethodId,
    receiver: Value,
    arguments: &[Value],
) -> Result<Value, Halt>
    ensures { Answers code.now result world.new world.old (λ d x. run_step code.now d receiver arguments.now (method_at code.now method) (state_at world.old x)) }
{
    stack.clear();
    let goal = Goal::Run(receiver, Some(method));
    let none = Nodes { first: 0, count: 0 };
    stack.push_arguments(goal, none, arguments)?;
    run(alloc, code, world, stack, Task::Arguments)
}

/// Runs a node as an expression, with the room of a stack: what it gives, or how the run ends.
pub fn value_of(
    alloc: Global,
    code: &Code,
    world: &mut World,
    stack: &mut Stack,
    node: u32,
) -> Result<Value, Halt>
    ensures { Answers code.now result world.new world.old (λ d x. d.value node (state_at world.old x)) }
{
    stack.clear();
    run(alloc, code, world, stack, Task::Evaluate(node))
}

/// Whether a method has no result.
fn is_void(code: &Code, method: MethodId) -> bool
    ensures { result ≡ gives_nothing (method_at code.now method) }
{
    match code.method(method) {
        Some(found) => found.is_void,
        None => false,
    }
}

/// The result of a run: none, where the method has no result.
pub(crate) fn given(is_void: bool, end: Result<Value, Stop>) -> Result<Option<Value>, Stop>
    ensures { result ≡ ending_of is_void end }
{
    match end {
        Ok(value) => { if is_void { Ok(None) } else { Ok(Some(value)) } }
        Err(Stop::Trapped(kind)) => Err(Stop::Trapped(kind)),
        Err(Stop::OutOfFuel) => Err(Stop::OutOfFuel),
        Err(Stop::Stuck) => Err(Stop::Stuck),
    }
}

/// Runs a method on a receiver and arguments.
fn run_on(
    alloc: Global,
    code: &Code,
    heap: Heap,
    method: MethodId,
    receiver: Value,
    arguments: &[Value],
    fuel: u64,
) -> Result<Executed, NoMemory>
    ensures { IfOk result (λ run. (d : Doing) → IsMeaning code.now d → run ≡ left_by (gives_nothing (method_at code.now method)) (run_step code.now d receiver arguments.now (method_at code.now method) (begun heap fuel))) }
{
    let mut world = world_of(alloc, heap, fuel);
    let mut stack = Stack::new(alloc);
    let said = call(
        alloc, code, &mut world, &mut stack, method, receiver, arguments,
    );
    let end = ended(said)?;
    Ok(Executed {
        end: given(is_void(code, method), end),
        heap: world.made,
        left: world.fuel,
        thrown: world.thrown,
    })
}

/// Runs a method on values, the receiver first where it isn't static.
fn run_method(
    alloc: Global,
    code: &Code,
    heap: Heap,
    method: Method,
    values: &[Value],
    fuel: u64,
) -> Result<Executed, NoMemory>
    ensures { IfOk result (λ run. (d : Doing) → IsMeaning code.now d → run ≡ executed_at code.now d method values.now heap fuel) }
{
    let number = method.number;
    if method.is_static {
        return run_on(alloc, code, heap, number, Value::Null, values, fuel);
    }
    match values.split_first() {
        Some((receiver, arguments)) => {
            run_on(alloc, code, heap, number, *receiver, arguments, fuel)
        }
        None => Ok(Executed {
            end: Err(Stop::Stuck),
            heap,
            left: fuel,
            thrown: None,
        }),
    }
}

/// Runs a method of code on values, the receiver first where it isn't static: how the run ends, and the heap and the fuel
/// that it leaves, in every meaning of the code, and so for every program whose code it is.
pub fn execute(
    alloc: Global,
    code: &Code,
    heap: Heap,
    method: Method,
    values: &[Value],
    fuel: u64,
) -> Result<Executed, NoMemory>
    ensures means { IfOk result (λ run. (d : Doing) → IsMeaning code.now d → run ≡ executed_at code.now d method values.now heap fuel) }
    ensures executes { IfOk result (λ run. (program : Program) (n : Numbering) (m : TableMethod) → IsCodeOf program code.now n → IsMethodOf code.now n m method → run ≡ executed program m values.now heap fuel) }
    ensures unstuck { IfOk result (IsUnstuck code.now method values.now heap) }
{
    run_method(alloc, code, heap, method, values, fuel)
}
