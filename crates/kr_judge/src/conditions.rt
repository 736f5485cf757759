// Conditions, each looked at only where those before it hold.
ghost use Rattle.std.specs.Prelude.{map};
ghost use Rattle.kr_judge.specs.Judged.{HoldsAs, MeansAs, hold_at};
ghost use Rattle.kr_judge.specs.One.{OneAs};
ghost use Rattle.kr_judge.specs.Vocabulary.{hold_all_step, IsCodeOf, Numbering, Program, state_of};

use kr_base::Permit;
use kr_code::Code;
use kr_mean::Stop;
use kr_run::evaluate;
use kr_run_state::{Halt, World};
use kr_value::Value;
use std::alloc::Global;

/// Whether one condition holds; a value that is no truth value has no meaning.
fn holds(alloc: Global, code: &Code, world: &mut World, condition: u32) -> Result<bool, Halt>
    ensures { OneAs code.now result world.new world.old.reads condition (state_of world.old) }
{
    match evaluate(alloc, code, world, condition) {
        Err(halt) => return Err(halt),
        Ok(value) => match value {
            Value::Bool(truth) => return Ok(truth),
            Value::Int(_) => return Err(Halt::Ended(Stop::Stuck)),
            Value::Null => return Err(Halt::Ended(Stop::Stuck)),
            Value::Ref(_) => return Err(Halt::Ended(Stop::Stuck)),
        },
    }
}

/// Whether the conditions at these nodes hold, in every meaning of the code.
fn hold(alloc: Global, code: &Code, world: &mut World, conditions: &[u32]) -> Result<bool, Halt>
    ensures { HoldsAs code.now result world.new world.old.reads (λ d. hold_at d conditions.now (state_of world.old)) }
{
    'conditions: for condition in conditions {
        match holds(alloc, code, world, *condition) {
            Err(halt) => return Err(halt),
            Ok(truth) => {
                if !truth {
                    return Ok(false);
                }
            }
        }
    }
    Ok(true)
}

/// Whether the conditions at these nodes hold, the world that they leave, and the places that
/// were read, each where it is read first; or how the run ends. It uses up the permit of the run.
pub(crate) fn hold_all(
    alloc: Global,
    code: &Code,
    world: &mut World,
    conditions: &[u32],
    permit: Permit,
) -> Result<bool, Halt>
    ensures { (program : Program) (n : Numbering) → IsCodeOf program code.now n → MeansAs result world.new world.old.reads (hold_all_step program (map n.origin conditions.now) (state_of world.old)) }
{
    drop(permit);
    hold(alloc, code, world, conditions)
}
