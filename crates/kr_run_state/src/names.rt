// Fuel, `this`, locals, and what contracts name.
ghost use Rattle.std.specs.Prelude.{◌≡◌};
ghost use Rattle.std.specs.Prelude.{Ok, map, option_map, slice_get};
ghost use Rattle.kr_classes_table.specs.Constants.{is_at_place};
ghost use Rattle.kr_mean.specs.Places.{Parameter};
ghost use Rattle.kr_mean.specs.Steps.{give, bind, local_at, place_reads, tick as tick_step, declare as declare_step, assign as assign_step, read_local as read_step, get_result, get_old};
ghost use Rattle.kr_run_state.specs.Shown.{local_of};
ghost use Rattle.kr_value.specs.declared.value.Value.TheVariants.{Null};
ghost use Rattle.kr_run_state.specs.Worlds.{state_at, Agrees};

use crate::{Halt, Local, World};
use kr_base::Place;
use kr_heap::append;
use kr_mean::Stop;
use kr_value::{SlotPlace, Value};

/// One unit of fuel.
#[inline(always)]
#[tactic(auto, unfolding(kr_mean::specs::Steps::bind))]
pub fn tick(world: &mut World) -> Result<Value, Halt>
    ensures { Agrees result world.new world.old (λ x. bind tick_step (λ u. give Null) (state_at world.old x)) }
{
    if world.fuel == 0 {
        return Err(Halt::Ended(Stop::OutOfFuel));
    }
    world.fuel -= 1;
    Ok(Value::Null)
}

/// One unit of fuel, and a new local.
#[inline(always)]
#[tactic(auto, unfolding(kr_mean::specs::Steps::bind))]
pub fn declare(world: &mut World, value: Value) -> Result<Value, Halt>
    ensures { Agrees result world.new world.old (λ x. bind tick_step (λ u. bind (declare_step value) (λ w. give Null)) (state_at world.old x)) }
{
    if world.fuel == 0 {
        return Err(Halt::Ended(Stop::OutOfFuel));
    }
    world.fuel -= 1;
    let local = Local {
        value,
        parameter: None,
    };
    append(&mut world.locals, local)?;
    Ok(Value::Null)
}

/// A new local.
pub fn add_local(world: &mut World, value: Value) -> Result<(), Halt>
    ensures { Agrees result world.new world.old (λ x. declare_step value (state_at world.old x)) }
{
    let local = Local {
        value,
        parameter: None,
    };
    append(&mut world.locals, local)?;
    Ok(())
}

/// Gives a local another value, and then what is to be given.
#[inline(always)]
#[tactic(auto, unfolding(kr_mean::specs::Steps::bind))]
pub fn assign(world: &mut World, local: u32, value: Value, given: Value) -> Result<Value, Halt>
    ensures { Agrees result world.new world.old (λ x. bind (assign_step local value) (λ u. give given) (state_at world.old x)) }
{
    if (local as usize) < world.locals.len() {
        world.locals[local as usize] = Local {
            value,
            parameter: None,
        };
        return Ok(given);
    }
    Err(Halt::Ended(Stop::Stuck))
}

#[inline(always)]
fn found_in(locals: &Vec<Local>, local: u32) -> Option<Local>
    ensures { result ≡ slice_get locals.now.items local }
{
    locals.get(local as usize).copied()
}

#[inline(always)]
fn local_in(locals: &Vec<Local>, local: u32) -> Option<Local>
    ensures { option_map local_of result ≡ local_at (map local_of locals.now.items) local }
{
    found_in(locals, local)
}

#[inline(always)]
fn note_parameter(world: &mut World, parameter: Option<u32>) -> Result<(), Halt>
    ensures { Agrees result world.new world.old (λ x. record { said = Ok tt; after = state_at world.old x; reads = place_reads (option_map Parameter parameter) }) }
{
    match parameter {
        None => Ok(()),
        Some(number) => {
            world.reads.note(SlotPlace::Parameter(number))?;
            Ok(())
        }
    }
}

/// The value of a local, which is read where a candidate gives it.
#[inline(always)]
pub fn read_local(world: &mut World, local: u32) -> Result<Value, Halt>
    ensures { Agrees result world.new world.old (λ x. read_step local (state_at world.old x)) }
{
    match local_in(&world.locals, local) {
        None => Err(Halt::Ended(Stop::Stuck)),
        Some(found) => match note_parameter(world, found.parameter) {
            Err(halt) => Err(halt),
            Ok(()) => Ok(found.value),
        },
    }
}

/// The result of the method under test.
#[inline(always)]
pub fn result(world: &World) -> Result<Value, Halt>
    ensures { Agrees result world.now world.now (λ x. get_result (state_at world.now x)) }
{
    match world.result {
        Some(value) => Ok(value),
        None => Err(Halt::Ended(Stop::Stuck)),
    }
}

fn is_same_place(a: Place, b: Place) -> bool
    ensures { result ≡ is_at_place a b }
{
    a.file == b.file && a.line == b.line && a.col == b.col
}

/// The value of an `\old`.
pub fn old(world: &World, place: Place) -> Result<Value, Halt>
    ensures { Agrees result world.now world.now (λ x. get_old place (state_at world.now x)) }
{
    for old in &world.olds {
        if is_same_place(old.place, place) {
            return Ok(old.value);
        }
    }
    Err(Halt::Ended(Stop::Stuck))
}
