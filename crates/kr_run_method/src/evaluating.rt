// An expression of a contract is evaluated.
ghost use Rattle.std.specs.Prelude.{◌≡◌, ◌≤◌, ◌⊎◌, ◌++◌, [], IfOk, None, OnOk, false, map, option_to_list};
ghost use Rattle.kr_code.specs.Doing.{Doing, IsMeaning};
ghost use Rattle.kr_code.specs.Resolved.{IsCodeOf, Numbering};
ghost use Rattle.kr_classes_table.specs.Table.{Method as TableMethod};
ghost use Rattle.kr_mean.specs.Program.{Program};
ghost use Rattle.kr_mean.specs.Steps.{plain_local};
ghost use Rattle.kr_mean.specs.Verdicts.{olds_of};
ghost use Rattle.kr_run_state.specs.Shown.{local_of, old_of};
ghost use Rattle.kr_run_state.specs.Worlds.{state_of};
ghost use Rattle.kr_run_method.specs.Executed.{left_by};
ghost use Rattle.kr_run_method.specs.Evaluated.{evaluated, evaluated_at, places_of, seen, seen_locals, with_places};
ghost use Rattle.kr_run_method.specs.Fits.{IsEvaluatedUnstuck};

use crate::executed::{Env, Executed};
use crate::run::{given, value_of, world_of};
use kr_base::{NoMemory, Place};
use kr_code::Code;
use kr_heap::Heap;
use kr_run_frames::Stack;
use kr_run_state::{Local, Old, World, ended};
use kr_value::Value;
use std::alloc::Global;

/// Values are added after the locals.
fn add_locals(locals: &mut Vec<Local>, values: &[Value]) -> Result<(), NoMemory>
    ensures { OnOk result (map local_of locals.new.items ≡ map local_of locals.old.items ++ map plain_local values.now) }
{
    for value in values {
        locals.push(Local {
            value: *value,
            parameter: None,
        })?;
    }
    Ok(())
}

/// What is thrown is added, if there is something.
fn add_thrown(locals: &mut Vec<Local>, thrown: Option<Value>) -> Result<(), NoMemory>
    ensures { OnOk result (map local_of locals.new.items ≡ map local_of locals.old.items ++ map plain_local (option_to_list thrown)) }
{
    match thrown {
        None => Ok(()),
        Some(value) => add_locals(locals, &[value]),
    }
}

/// The locals that an expression sees are added.
fn add_seen(locals: &mut Vec<Local>, env: &Env) -> Result<(), NoMemory>
    ensures { OnOk result (map local_of locals.new.items ≡ map local_of locals.old.items ++ seen_locals env.now) }
{
    add_locals(locals, env.arguments.as_slice())?;
    add_thrown(locals, env.thrown)?;
    Ok(())
}

/// The lesser of two counts.
fn lesser(a: usize, b: usize) -> usize
    ensures is { (result ≡ a) ⊎ (result ≡ b) }
    ensures first { result ≤ a }
    ensures second { result ≤ b }
{
    if a < b { a } else { b }
}

/// The values of `\old`s come, each with the place of its node.
fn add_olds(olds: &mut Vec<Old>, places: &[Place], values: &[Value]) -> Result<(), NoMemory>
    ensures { OnOk result (map old_of olds.new.items ≡ map old_of olds.old.items ++ with_places places.now values.now) }
{
    let count = lesser(places.len(), values.len());
    for number in 0..count {
        olds.push(Old {
            place: places[number],
            value: values[number],
        })?;
    }
    Ok(())
}

/// A world that has a heap and nothing else gets what an expression sees.
fn show(world: &mut World, places: &[Place], env: &Env) -> Result<(), NoMemory>
    requires locals { world.old.locals.items ≡ [] }
    requires olds { world.old.olds.items ≡ [] }
    requires thrown { world.old.thrown ≡ None }
    requires none { world.old.candidates ≡ [] }
    ensures state { OnOk result (state_of world.new ≡ seen places.now env.now (state_of world.old).heap (state_of world.old).fuel) }
    ensures candidates { world.new.candidates ≡ world.old.candidates }
{
    world.this = env.this;
    world.result = env.result;
    add_seen(&mut world.locals, env)?;
    add_olds(&mut world.olds, places, env.olds.as_slice())?;
    Ok(())
}

/// Evaluates a node in a world without candidates.
fn evaluate_in(alloc: Global, code: &Code, world: World, node: u32) -> Result<Executed, NoMemory>
    requires { world.candidates ≡ [] }
    ensures { IfOk result (λ run. (d : Doing) → IsMeaning code.now d → run ≡ left_by false (d.value node (state_of world))) }
{
    let mut world = world;
    let mut stack = Stack::new(alloc);
    let said = value_of(alloc, code, &mut world, &mut stack, node);
    let end = ended(said)?;
    Ok(Executed {
        end: given(false, end),
        heap: world.made,
        left: world.fuel,
        thrown: world.thrown,
    })
}

/// Evaluates an expression of a method's contract, by its node in the code, where the method's `\old`s are at these places, in
/// source order: how the run ends, and the heap and the fuel that it leaves, in every meaning of the code, and so for every
/// program whose code it is. An `\old` has the value at its position among them.
pub fn evaluate(
    alloc: Global,
    code: &Code,
    heap: Heap,
    node: u32,
    places: &[Place],
    env: &Env,
    fuel: u64,
) -> Result<Executed, NoMemory>
    ensures means { IfOk result (λ run. (d : Doing) → IsMeaning code.now d → run ≡ evaluated_at d node places.now env.now heap fuel) }
    ensures evaluates { IfOk result (λ run. (program : Program) (n : Numbering) (m : TableMethod) → IsCodeOf program code.now n → places.now ≡ places_of (olds_of program m) → run ≡ evaluated program m (n.origin node) env.now heap fuel) }
    ensures unstuck { IfOk result (IsEvaluatedUnstuck code.now node places.now env.now heap) }
{
    let mut world = world_of(alloc, heap, fuel);
    show(&mut world, places, env)?;
    evaluate_in(alloc, code, world, node)
}
