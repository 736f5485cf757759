// The numbers of array types, each once, with a mark at each number that is there.
ghost use Rattle.std.specs.Prelude.{◌≡◌, ◌++◌, ◌∷◌, [], OnOk};
ghost use Rattle.kr_space_names.specs.Numbers.{has_number, with_number};

use kr_base::NoMemory;
use kr_space_layout::{is_marked, mark};
use std::alloc::Global;
use std::marker::Model;

/// Numbers of array types, each once, in the order in which they came. Contracts see the list.
#[derive(Drop)]
pub struct Arrays {
    numbers: Vec<u32>,
    marks: Vec<bool>,
}

impl Model for Arrays {
    ghost use Rattle.std.specs.Prelude.{List, ℕ};
    ghost use Rattle.kr_space_names.specs.Numbers.{AreMarked};

    ghost Value = { List ℕ };

    ghost view = { λ a. a.numbers.items };

    ghost invariant = { λ a. AreMarked a.marks.items a.numbers.items };
}

/// Adds a number at the end.
fn put(numbers: &mut Vec<u32>, number: u32) -> Result<(), NoMemory>
    ensures { OnOk result (numbers.new.items ≡ numbers.old.items ++ number ∷ []) }
{
    numbers.push(number)?;
    Ok(())
}

impl Arrays {
    /// None. It takes no memory.
    pub(crate) fn new(alloc: Global) -> Arrays
        ensures { result ≡ [] }
    {
        Arrays {
            numbers: Vec::new(alloc),
            marks: Vec::new(alloc),
        }
    }

    /// Whether a number is there.
    pub(crate) fn has(&self, number: u32) -> bool
        ensures { result ≡ has_number self.now number }
    {
        is_marked(self.marks.as_slice(), number)
    }

    /// Adds a number, where it isn't there yet. Once there is room for it, it takes constant time; on out-of-memory the numbers
    /// may be lost.
    pub(crate) fn add(&mut self, number: u32) -> Result<(), NoMemory>
        ensures { OnOk result (self.new ≡ with_number self.old number) }
    {
        if is_marked(self.marks.as_slice(), number) {
            return Ok(());
        }
        mark(&mut self.marks, number)?;
        match put(&mut self.numbers, number) {
            Ok(()) => Ok(()),
            Err(why) => {
                self.numbers.clear();
                self.marks.clear();
                Err(why)
            }
        }
    }

    /// The numbers, in order.
    pub fn into_vec(self) -> Vec<u32>
        ensures { result.items ≡ self }
    {
        self.numbers
    }
}
