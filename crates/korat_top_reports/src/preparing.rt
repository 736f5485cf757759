// A problem with what its search and its listing need.
ghost use Rattle.std.specs.Prelude.{◌≡◌, IfOk};

use kr_base::NoMemory;
use kr_judge_code::problem_code;
use kr_judge_prepared::{Accepted, Prepared};
use std::alloc::Global;

/// A problem with what its search and its listing need.
pub fn prepare(alloc: Global, found: Accepted) -> Result<Prepared, NoMemory>
    ensures { IfOk result (λ prepared. prepared.problem ≡ found) }
{
    let code = problem_code(alloc, &found)?;
    Prepared::new(alloc, found, code)
}
