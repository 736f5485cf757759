// Why no builders can be written for a problem.
ghost use Rattle.std.specs.Prelude.{◌≡◌};
ghost use Rattle.kr_emit.specs.declared.refusal.BuildRefusal.TheVariants.{NoMemory as Lacking};

use kr_base::{ItemName, NoMemory, Place};

/// A rule that a problem breaks, or no memory.
#[derive(Drop)]
pub enum BuildRefusal {
    /// E1, at the name of a constructor or of a field.
    Construction { place: Place },
    /// E2, at the name of a class.
    ClassName { place: Place },
    /// E3, at an item of the finitization.
    Elements { item: ItemName },
    NoMemory(NoMemory),
}

impl From<NoMemory> for BuildRefusal {
    ghost from_gives = { λ why refusal. refusal ≡ Lacking why };

    fn from(why: NoMemory) -> BuildRefusal {
        BuildRefusal::NoMemory(why)
    }
}
