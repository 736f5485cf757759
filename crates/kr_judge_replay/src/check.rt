// Positions of runs.
ghost use Rattle.std.specs.Prelude.{◌≡◌, IfOk, IfSome, OnOk, take};
ghost use Rattle.kr_run_lookahead.specs.Ahead.{Grows};
ghost use Rattle.kr_judge_replay.specs.Foretelling.{IsForeseen};
ghost use Rattle.kr_judge_replay.specs.Going.{IsCopyOf};
ghost use Rattle.kr_judge_replay.specs.States.{HasStateOf};

use kr_base::NoMemory;
use kr_code::Code;
use kr_heap::refill;
use kr_judge::blank_world;
use kr_run_frames::Stack;
use kr_run_lookahead::ahead;
use kr_run_state::{Action, Old, World};
use kr_value::Value;
use std::alloc::Global;

/// The position of a run: the condition, the next task, the frames that waited, the world but for its candidates and its reads,
/// and how many places it had read.
#[derive(Drop)]
pub struct Check {
    pub condition: usize,
    pub action: Action,
    pub stack: Stack,
    pub world: World,
    pub count: usize,
}

/// The value of a run that goes on from a checkpoint: in which condition, and how many places it had read at the checkpoint.
#[derive(Clone, Copy)]
pub(crate) struct Foreseen {
    pub condition: usize,
    pub value: Value,
    pub count: usize,
}

/// The values of `\old`s in place of others, in the room that is there. A predicate has none, so that nothing is copied.
#[inline(always)]
fn refill_olds(olds: &mut Vec<Old>, others: &[Old]) -> Result<(), NoMemory>
    ensures { OnOk result (olds.new.items ≡ others.now) }
{
    if others.is_empty() {
        olds.clear();
        return Ok(());
    }
    refill(olds, others)
}

/// A world's state in place of another's but for what was made, in the room that is there; the candidates stay, and what was
/// read.
#[inline(always)]
fn resume_but_made(world: &mut World, other: &World) -> Result<(), NoMemory>
    ensures copied { OnOk result (HasStateOf other.now (record world.new { made = other.now.made })) }
    ensures made { world.new.made ≡ world.old.made }
    ensures candidates { world.new.candidates ≡ world.old.candidates }
    ensures frozen { world.new.is_frozen ≡ world.old.is_frozen }
    ensures reads { world.new.reads ≡ world.old.reads }
{
    world.this = other.this;
    world.result = other.result;
    world.thrown = other.thrown;
    world.fuel = other.fuel;
    refill(&mut world.locals, other.locals.as_slice())?;
    refill_olds(&mut world.olds, other.olds.as_slice())?;
    Ok(())
}

/// A world's state in place of another's, in the room that is there; the candidates stay, and what was read.
pub(crate) fn resume(alloc: Global, world: &mut World, other: &World) -> Result<(), NoMemory>
    ensures copied { OnOk result (HasStateOf other.now world.new) }
    ensures candidates { world.new.candidates ≡ world.old.candidates }
    ensures frozen { world.new.is_frozen ≡ world.old.is_frozen }
    ensures reads { world.new.reads ≡ world.old.reads }
{
    resume_but_made(world, other)?;
    world.made.copy_from(alloc, &other.made)?;
    Ok(())
}

impl Check {
    /// A checkpoint that is to be filled. It takes no memory.
    pub(crate) fn blank(alloc: Global) -> Check {
        Check {
            condition: 0,
            action: Action::This,
            stack: Stack::new(alloc),
            world: blank_world(alloc),
            count: 0,
        }
    }

    /// Becomes a checkpoint of a run's position, in the room that is there.
    pub(crate) fn fill(
        &mut self,
        alloc: Global,
        condition: usize,
        action: Action,
        stack: &Stack,
        world: &World,
    ) -> Result<(), NoMemory>
        ensures { OnOk result (IsCopyOf condition action stack.now world.now self.new) }
    {
        self.condition = condition;
        self.action = action;
        self.stack.copy_from(alloc, stack)?;
        resume(alloc, &mut self.world, world)?;
        self.count = world.reads.as_slice().len();
        Ok(())
    }

    /// The value of a run that goes on from here, where that is known at once. The made objects are lent to the world, and
    /// given back: none is copied.
    #[inline(always)]
    pub(crate) fn foresee(
        &mut self,
        code: &Code,
        world: &mut World,
    ) -> Result<Option<Foreseen>, NoMemory>
        ensures same { self.new ≡ self.old }
        ensures candidates { world.new.candidates ≡ world.old.candidates }
        ensures reads { OnOk result (Grows (take self.old.count world.old.reads) world.new.reads) }
        ensures foreseen { IfOk result (λ found. IfSome found (λ f. IsForeseen code.now self.old world.old world.new f)) }
    {
        world.reads.truncate(self.count);
        resume_but_made(world, &self.world)?;
        std::mem::swap(&mut world.made, &mut self.world.made);
        let found = ahead(code, world, &self.stack, self.action);
        std::mem::swap(&mut world.made, &mut self.world.made);
        match found {
            None => Ok(None),
            Some(value) => Ok(Some(Foreseen {
                condition: self.condition,
                value,
                count: self.count,
            })),
        }
    }
}
