// The state of a run.
ghost use Rattle.std.specs.Prelude.{◌≡◌};
ghost use Rattle.kr_run_state.specs.Ends.{IsEnd};
ghost use Rattle.kr_run_state.specs.declared.world.Halt.TheVariants.{Memory};

use crate::Reads;
use kr_base::{NoMemory, Place};
use kr_heap::Heap;
use kr_mean::Stop;
use kr_value::Value;

/// Why a machine doesn't go on: the run has ended, or memory ran out.
#[derive(Clone, Copy)]
pub enum Halt {
    Ended(Stop),
    Memory(NoMemory),
}

impl From<NoMemory> for Halt {
    ghost from_gives = { λ why halt. halt ≡ Memory why };

    fn from(why: NoMemory) -> Halt {
        Halt::Memory(why)
    }
}

/// How a run has ended.
pub fn ended<T: Copy>(answer: Result<T, Halt>) -> Result<Result<T, Stop>, NoMemory>
    ensures { IsEnd answer result }
{
    match answer {
        Ok(value) => Ok(Ok(value)),
        Err(Halt::Ended(end)) => Ok(Err(end)),
        Err(Halt::Memory(why)) => Err(why),
    }
}

/// A local's value, and of which parameter a candidate gives it, where it does.
#[derive(Clone, Copy)]
pub struct Local {
    pub value: Value,
    pub parameter: Option<u32>,
}

/// The value of an `\old`, by the place of its node.
#[derive(Clone, Copy)]
pub struct Old {
    pub place: Place,
    pub value: Value,
}

/// The state of a run, and its reads. The heap's objects are the candidates, followed by those that the run has made;
/// candidates are frozen until one is written, which thaws them.
#[derive(Drop)]
pub struct World {
    pub this: Value,
    pub locals: Vec<Local>,
    pub result: Option<Value>,
    pub olds: Vec<Old>,
    /// An object that is thrown, until it is caught.
    pub thrown: Option<Value>,
    pub candidates: Heap,
    pub made: Heap,
    pub is_frozen: bool,
    pub fuel: u64,
    pub reads: Reads,
}
