// What is thrown, and what is caught.
ghost use Rattle.std.specs.Prelude.{Err};
ghost use Rattle.kr_mean.specs.Steps.{make};
ghost use Rattle.kr_mean.specs.declared.flow.Flow.{Flow};
ghost use Rattle.kr_value.specs.declared.object.Class.TheVariants.{Object};
ghost use Rattle.kr_code.specs.Tables.{defaults_in};
ghost use Rattle.kr_code.specs.Steps.{new_thrown as new_step, taken, throw_object};
ghost use Rattle.kr_run_state.specs.Worlds.{state_at, Agrees};

use crate::memory::{class_of, new_collection, new_object};
use crate::{Halt, World};
use kr_classes_table::ClassId;
use kr_code::{ClassCode, Code};
use kr_mean::{Kind, Stop};
use kr_value::{Class, Value};
use std::alloc::Global;

/// Throws an object; null traps. The run ends, unless it is caught.
#[tactic(auto, unfolding(kr_mean::specs::Steps::bind))]
pub fn throw(code: &Code, world: &mut World, value: Value) -> Halt
    ensures { Agrees {A = Flow} (Err result) world.new world.old (λ x. throw_object code.now value (state_at world.old x)) }
{
    match value {
        Value::Ref(object) => match class_of(world, object) {
            Class::Object(class) => {
                world.thrown = Some(value);
                Halt::Ended(Stop::Trapped(code.kind_in(class)))
            }
            _ => Halt::Ended(Stop::Stuck),
        },
        Value::Null => Halt::Ended(Stop::Trapped(Kind::NullPointerException)),
        _ => Halt::Ended(Stop::Stuck),
    }
}

/// A new object of a class, whose fields are at their defaults.
fn new_of(
    alloc: Global,
    code: &Code,
    world: &mut World,
    number: ClassId,
    class: Option<ClassCode>,
) -> Result<Value, Halt>
    ensures { Agrees result world.new world.old (λ x. make (Object number) (defaults_in code.now class) (state_at world.old x)) }
{
    match class {
        None => new_collection(alloc, world, Class::Object(number)),
        Some(found) => new_object(alloc, code, world, number, found.defaults),
    }
}

/// The object of a trap, which is of this class.
fn new_thrown(
    alloc: Global,
    code: &Code,
    world: &mut World,
    class: Option<ClassId>,
) -> Result<Value, Halt>
    ensures { Agrees result world.new world.old (λ x. new_step code.now class (state_at world.old x)) }
{
    match class {
        None => Err(Halt::Ended(Stop::Stuck)),
        Some(number) => new_of(alloc, code, world, number, code.class(number)),
    }
}

/// The object that was thrown; of a trap a new one.
pub fn take(alloc: Global, code: &Code, world: &mut World, kind: Kind) -> Result<Value, Halt>
    ensures { Agrees result world.new world.old (λ x. taken code.now kind (state_at world.old x)) }
{
    match world.thrown {
        Some(object) => {
            world.thrown = None;
            Ok(object)
        }
        None => new_thrown(alloc, code, world, code.class_in_kind(kind)),
    }
}
