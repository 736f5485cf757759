// A test of a method that is composed of calls: the heap is built, each `\old` is evaluated, the method is executed,
// `this.repOk()` and then each postcondition are evaluated, each in the heap and with the fuel that the one before left.
ghost use Rattle.std.specs.Prelude.{◌<◌, ◌^◌, length};
ghost use Rattle.kr_mean.specs.Problem.{slots};
ghost use Rattle.kr_mean.specs.Space.{IsVector, space_of};
ghost use Rattle.kr_mean.specs.WellFormed.{IsWellFormed};
ghost use Rattle.kr_space_layout.specs.Bounds.{bare};

use kr_base::{NoMemory, Place};
use kr_build::build;
use kr_code::Code;
use kr_heap::Heap;
use kr_judge::Predicate;
use kr_judge_prepared::{Contract, OldCode};
use kr_mean::{Stop, Verdict};
use kr_run_method::{Env, Executed, Method, evaluate, execute};
use kr_space_layout::Layout;
use kr_value::Value;
use kr_vector::{Slot, Vector};
use std::alloc::Global;

/// The state between calls.
#[derive(Drop)]
struct World {
    heap: Heap,
    left: u64,
}

/// Takes what a call has left; what it gives.
fn take(world: &mut World, run: Executed) -> Result<Option<Value>, Stop> {
    let Executed {
        end,
        heap,
        left,
        thrown: _,
    } = run;
    world.heap = heap;
    world.left = left;
    end
}

/// The verdict where a call ends early.
fn ended(end: Stop, is_body: bool) -> Verdict {
    match end {
        Stop::Trapped(kind) => {
            if is_body {
                Verdict::Trap(kind)
            } else {
                Verdict::CheckTrap(kind)
            }
        }
        Stop::OutOfFuel => Verdict::Spent,
        Stop::Stuck => Verdict::Spent,
    }
}

/// The value of an expression, or the verdict. An expression always gives one.
fn value_at(
    alloc: Global,
    code: &Code,
    world: &mut World,
    node: u32,
    places: &[Place],
    env: &Env,
) -> Result<Result<Value, Verdict>, NoMemory> {
    let heap = std::mem::replace(&mut world.heap, Heap::new(alloc));
    let run = evaluate(alloc, code, heap, node, places, env, world.left)?;
    match take(world, run) {
        Ok(Some(value)) => Ok(Ok(value)),
        Ok(None) => Ok(Err(Verdict::Spent)),
        Err(end) => Ok(Err(ended(end, false))),
    }
}

/// Nothing where a condition holds, else the verdict.
fn condition(
    alloc: Global,
    code: &Code,
    world: &mut World,
    node: u32,
    places: &[Place],
    env: &Env,
    fails: Verdict,
) -> Result<Option<Verdict>, NoMemory> {
    match value_at(alloc, code, world, node, places, env)? {
        Err(verdict) => Ok(Some(verdict)),
        Ok(Value::Bool(true)) => Ok(None),
        Ok(_) => Ok(Some(fails)),
    }
}

/// The values of `\old`s, in source order; or the verdict.
fn old_values(
    alloc: Global,
    code: &Code,
    world: &mut World,
    olds: &[OldCode],
    env: &Env,
    values: &mut Vec<Value>,
) -> Result<Option<Verdict>, NoMemory> {
    for old in olds {
        match value_at(alloc, code, world, old.operand, &[], env)? {
            Err(verdict) => return Ok(Some(verdict)),
            Ok(value) => values.push(value)?,
        }
    }
    Ok(None)
}

/// The result of the method, or the verdict.
fn body(
    alloc: Global,
    code: &Code,
    world: &mut World,
    method: Method,
    values: &[Value],
) -> Result<Result<Option<Value>, Verdict>, NoMemory> {
    let heap = std::mem::replace(&mut world.heap, Heap::new(alloc));
    let run = execute(alloc, code, heap, method, values, world.left)?;
    match take(world, run) {
        Ok(given) => Ok(Ok(given)),
        Err(end) => Ok(Err(ended(end, true))),
    }
}

/// The verdict is that of the first postcondition that doesn't hold.
fn postconditions(
    alloc: Global,
    code: &Code,
    world: &mut World,
    nodes: &[u32],
    places: &[Place],
    env: &Env,
) -> Result<Verdict, NoMemory> {
    let mut number: u32 = 0;
    for node in nodes {
        number = number.saturating_add(1);
        let fails = Verdict::Ensures(number);
        if let Some(verdict) = condition(alloc, code, world, *node, places, env, fails)? {
            return Ok(verdict);
        }
    }
    Ok(Verdict::Pass)
}

/// `this.repOk()`, the predicate's first condition, and the postconditions.
fn behind(
    alloc: Global,
    predicate: &Predicate,
    contract: &Contract,
    world: &mut World,
    places: &[Place],
    env: &Env,
) -> Result<Verdict, NoMemory> {
    let Some(rep_ok) = predicate.conditions.as_slice().first() else {
        return Ok(Verdict::Spent);
    };
    let code = &predicate.code;
    if let Some(verdict) = condition(alloc, code, world, *rep_ok, &[], env, Verdict::RepOk)? {
        return Ok(verdict);
    }
    let nodes = contract.postconditions.as_slice();
    postconditions(alloc, code, world, nodes, places, env)
}

/// The places of `\old`s.
fn places_of(places: &mut Vec<Place>, olds: &[OldCode]) -> Result<(), NoMemory> {
    for old in olds {
        places.push(old.place)?;
    }
    Ok(())
}

/// The receiver and the arguments, in the order in which a call takes them.
fn given_to(values: &mut Vec<Value>, env: &Env) -> Result<(), NoMemory> {
    values.push(env.this)?;
    for value in &env.arguments {
        values.push(*value)?;
    }
    Ok(())
}

/// The whole, in a world and with what it sees: the `\old`s, the method, and the checks after it.
fn test(
    alloc: Global,
    predicate: &Predicate,
    contract: &Contract,
    world: &mut World,
    env: &mut Env,
) -> Result<Verdict, NoMemory> {
    let code = &predicate.code;
    let mut olds = Vec::new(alloc);
    let nodes = contract.olds.as_slice();
    if let Some(verdict) = old_values(alloc, code, world, nodes, env, &mut olds)? {
        return Ok(verdict);
    }
    env.olds = olds;
    let mut values = Vec::new(alloc);
    given_to(&mut values, env)?;
    let method = Method {
        number: contract.method,
        is_static: false,
    };
    match body(alloc, code, world, method, values.as_slice())? {
        Err(verdict) => Ok(verdict),
        Ok(given) => {
            env.result = given;
            let mut places = Vec::new(alloc);
            places_of(&mut places, nodes)?;
            behind(alloc, predicate, contract, world, places.as_slice(), env)
        }
    }
}

/// The value of a candidate at a slot.
fn value_in(layout: &Layout, vector: &Vector, slot: u32) -> Value
    requires vector { IsVector (space_of (bare layout.now)) vector.now }
{
    if slot < layout.slots() {
        return layout.value(slot, vector.get(Slot(slot)));
    }
    Value::Null
}

/// The values of the parameters, which are the slots after `this`.
fn add_arguments(values: &mut Vec<Value>, layout: &Layout, vector: &Vector) -> Result<(), NoMemory>
    requires vector { IsVector (space_of (bare layout.now)) vector.now }
    requires small { length (slots (bare layout.now)) < 2 ^ 31 }
{
    for number in 1..layout.slots() {
        if number as usize <= layout.parameters() {
            values.push(value_in(layout, vector, number))?;
        }
    }
    Ok(())
}

/// The test's view of a candidate.
fn seen_test(
    alloc: Global,
    predicate: &Predicate,
    contract: &Contract,
    layout: &Layout,
    vector: &Vector,
    world: &mut World,
) -> Result<Verdict, NoMemory>
    requires vector { IsVector (space_of (bare layout.now)) vector.now }
    requires small { length (slots (bare layout.now)) < 2 ^ 31 }
{
    let mut arguments = Vec::new(alloc);
    add_arguments(&mut arguments, layout, vector)?;
    let mut env = Env {
        this: value_in(layout, vector, 0),
        arguments,
        thrown: None,
        result: None,
        olds: Vec::new(alloc),
    };
    test(alloc, predicate, contract, world, &mut env)
}

/// The verdict of a method's contract on a candidate, with so much fuel.
pub(crate) fn composed(
    alloc: Global,
    predicate: &Predicate,
    contract: &Contract,
    layout: &Layout,
    vector: &Vector,
    fuel: u64,
) -> Result<Verdict, NoMemory>
    requires well { IsWellFormed (bare layout.now) }
    requires vector { IsVector (space_of (bare layout.now)) vector.now }
    requires small { length (slots (bare layout.now)) < 2 ^ 31 }
{
    let heap = build(alloc, layout, vector)?;
    let mut world = World { heap, left: fuel };
    seen_test(alloc, predicate, contract, layout, vector, &mut world)
}
