// Where the remainder of a span is split.
ghost use Rattle.std.specs.Prelude.{◌≡◌, IfOk};
ghost use Rattle.kr_base.specs.Inside.{inside_of, Adds};

use crate::{Bound, Cut, NoMemory};

/// Adds a number to a front: raised by one where the result is below the bound, else as it is. Reports whether it was
/// raised.
fn push_raised(front: &mut Vec<u32>, number: u32, bound: &Bound) -> Result<bool, NoMemory>
    ensures { IfOk result (λ is_raised. Adds front.old.items number bound.now is_raised front.new.items) }
{
    if number == u32::MAX {
        front.push(number)?;
        return Ok(false);
    }
    front.push(number + 1)?;
    if bound.is_above_key(front.as_slice()) {
        return Ok(true);
    }
    let _ = front.pop();
    front.push(number)?;
    Ok(false)
}

impl Cut {
    /// Where to split the remainder after this cut and up to `bound`. The candidates are the cut's prefixes, shortest
    /// first, each with its last number raised by one; the first below the bound is taken.
    pub fn inside(&self, bound: &Bound) -> Result<Option<Cut>, NoMemory>
        ensures { IfOk result (λ cut. cut ≡ inside_of self.now bound.now) }
    {
        let mut front = Vec::new(*self.numbers.allocator());
        for number in self.numbers.as_slice() {
            if push_raised(&mut front, *number, bound)? {
                return Ok(Some(Cut { numbers: front }));
            }
        }
        Ok(None)
    }
}
