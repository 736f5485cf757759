// Out of memory, as a call of a seat's worker answered it.
ghost use Rattle.std.specs.Prelude.{◌≡◌};
ghost use Rattle.kr_pool_workers.specs.Refusals.{whose};

use kr_base::NoMemory;

/// Out of memory, with the number of the seat to whose worker a call answered so. It is made of that answer, and hands it on to
/// nobody: so it can't become another seat's.
#[derive(Drop)]
pub struct Refusal {
    seat: u32,
    why: NoMemory,
}

impl Refusal {
    pub(crate) fn of(seat: u32, why: NoMemory) -> Refusal
        ensures { whose result ≡ seat }
    {
        Refusal { seat, why }
    }
}
