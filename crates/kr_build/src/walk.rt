// The slots that are reachable in a candidate's heap, breadth first.
ghost use Rattle.std.specs.Prelude.{◌≡◌, ◌<◌, ◌^◌, ℕ, [], OnOk, length};
ghost use Rattle.kr_build.specs.Vocabulary.{bare, IsVector, IsWellFormed, root_slots, slots, space_of, walk};
ghost use Rattle.kr_build.specs.Visits.{IsVisit};

use crate::objects::{Stretch, add_slots, slots_of};
use kr_base::NoMemory;
use kr_space_layout::{Layout, is_marked, mark};
use kr_vector::{Slot, Vector};
use std::alloc::Global;
use std::marker::Model;

/// The slots that were walked last, in the order in which they were met. Contracts see the list.
#[derive(Drop)]
pub struct Walk {
    met: Vec<bool>,
    slots: Vec<u32>,
}

impl Model for Walk {
    ghost use Rattle.std.specs.Prelude.{List, ℕ};

    ghost Value = { List ℕ };

    ghost view = { λ w. w.slots.items };
}

/// Looks at a slot: where it has an object that wasn't met, the object's slots are walked after all others.
#[inline(always)]
fn visit(
    layout: &Layout,
    vector: &Vector,
    slot: u32,
    met: &mut Vec<bool>,
    order: &mut Vec<u32>,
) -> Result<(), NoMemory>
    requires well { IsWellFormed (bare layout.now) }
    requires vector { IsVector (space_of (bare layout.now)) vector.now }
    requires small { length (slots (bare layout.now)) < 2 ^ 31 }
    requires slot { slot < length (slots (bare layout.now)) }
    ensures { OnOk result (IsVisit (bare layout.now) vector.now slot met.old.items order.old.items met.new.items order.new.items) }
{
    let Some(object) = layout.object(slot, vector.get(Slot(slot))) else {
        return Ok(());
    };
    let number = layout.heap_number(object);
    if is_marked(met.as_slice(), number) {
        return Ok(());
    }
    mark(met, number)?;
    add_slots(order, slots_of(layout, vector, object))
}

/// Walks on from the roots, which come first.
fn walk_on(
    layout: &Layout,
    vector: &Vector,
    met: &mut Vec<bool>,
    order: &mut Vec<u32>,
) -> Result<(), NoMemory>
    requires well { IsWellFormed (bare layout.now) }
    requires vector { IsVector (space_of (bare layout.now)) vector.now }
    requires small { length (slots (bare layout.now)) < 2 ^ 31 }
    requires none { met.old.items ≡ [] }
    requires roots { order.old.items ≡ root_slots (bare layout.now) }
    ensures { OnOk result (order.new.items ≡ walk (bare layout.now) vector.now) }
{
    let mut at = 0;
    while at < order.len() {
        let slot = order[at];
        visit(layout, vector, slot, met, order)?;
        at += 1;
    }
    Ok(())
}

impl Walk {
    /// No slots. It takes no memory.
    pub fn new(alloc: Global) -> Walk
        ensures { result ≡ [] }
    {
        Walk {
            met: Vec::new(alloc),
            slots: Vec::new(alloc),
        }
    }

    /// Walks a candidate: the roots, and then what each object has, in the order in which objects are met. Once its
    /// room has grown it takes no memory.
    pub fn walk(&mut self, layout: &Layout, vector: &Vector) -> Result<(), NoMemory>
        requires well { IsWellFormed (bare layout.now) }
        requires vector { IsVector (space_of (bare layout.now)) vector.now }
        requires small { length (slots (bare layout.now)) < 2 ^ 31 }
        ensures { OnOk result (self.new ≡ walk (bare layout.now) vector.now) }
    {
        self.met.clear();
        self.slots.clear();
        let roots = Stretch {
            first: 0,
            count: layout.parameters() as u32 + 1,
        };
        add_slots(&mut self.slots, roots)?;
        walk_on(layout, vector, &mut self.met, &mut self.slots)
    }

    /// The slots, in order.
    pub fn slots(&self) -> &[u32]
        ensures { result.now ≡ self.now }
    {
        self.slots.as_slice()
    }
}
