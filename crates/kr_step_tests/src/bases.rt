// Two subclasses, worked by hand: a root with two fields, each in two objects of one class and two of another.
ghost use Rattle.std.specs.Prelude.{◌≡◌, [], ◌∷◌, IfOk};

use kr_base::{NoMemory, Steps};
use kr_iso::{Object, Slots};
use kr_step::{Candidate, Ending};
use kr_vector::{Slot, Vector};
use std::alloc::Global;
use std::sync::ledger::Ledger;

/// The current candidate, the order of the last run, and how many runs were made.
#[derive(Drop)]
pub(crate) struct Bases {
    indices: Vector,
    ran: [u32; 3],
    count: u32,
}

impl Bases {
    pub(crate) fn count(&self) -> u32 {
        self.count
    }
}

impl Slots for Bases {
    ghost use Rattle.kr_step.specs.Bases.{bases};

    ghost space = { λ _. bases };

    fn slots(&self) -> u32 {
        3
    }

    fn size(&self, slot: u32) -> u32 {
        if slot == 0 { 1 } else { 4 }
    }

    fn object_at(&self, slot: u32, index: u32) -> Option<Object> {
        if slot == 0 {
            return Some(Object {
                domain: 0,
                number: index,
            });
        }
        if index < 2 {
            return Some(Object {
                domain: 1,
                number: index,
            });
        }
        Some(Object {
            domain: 2,
            number: index - 2,
        })
    }

    fn row(&self, _slot: u32, _index: u32) -> u32 {
        1
    }
}

impl Candidate for Bases {
    ghost use Rattle.kr_step.specs.Bases.{bases_order, bases_ending};

    ghost order = { λ _. bases_order };

    ghost ending = { λ _. bases_ending };

    ghost vector = { λ s. s.indices };

    ghost last = { λ s. s.ran };

    fn set(&mut self, slot: u32, index: u32) {
        self.indices.set(Slot(slot), index);
    }

    fn run<L: Ledger>(&mut self, runs: &mut Steps<L>) -> Result<Ending, NoMemory> {
        runs.tick();
        self.count = self.count.saturating_add(1);
        self.ran = [0, 1, 2];
        Ok(Ending::Valid)
    }

    fn last_order(&self) -> &[u32] {
        &self.ran
    }

    fn current(&self) -> &Vector {
        &self.indices
    }

    fn index(&self, slot: u32) -> u32 {
        self.indices.get(Slot(slot))
    }

    fn laws(&self) {}
}

pub(crate) fn start(alloc: Global) -> Result<Bases, NoMemory>
    ensures { IfOk result (λ start. start.indices ≡ 0 ∷ 0 ∷ 0 ∷ []) }
{
    Ok(Bases {
        indices: Vector::zero(alloc, 3)?,
        ran: [0; 3],
        count: 0,
    })
}
