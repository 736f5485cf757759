// Who takes the rows of a listing.
ghost use Rattle.std.specs.Prelude.{◌≡◌, ◌↔◌, ◌++◌, [], ◌∷◌, ℕ, List, Option, Some, IfOk, length, true};
ghost use Rattle.kr_survey.specs.declared.taker.Room.{Room as RoomOf};
ghost use Rattle.kr_survey.specs.declared.taker.Room.TheVariants.{Full as IsFull, More};
ghost use Rattle.kr_survey.specs.Takings.{Took, is_past};

use crate::RowList;
use kr_base::{Cut, Failed, NoMemory};

/// Whether a taker takes more rows. It is full once it was handed more of them than its limit allows.
#[derive(Clone, Copy, PartialEq, Eq)]
pub enum Room {
    More,
    Full,
}

/// Why rows were handed over no further: a put failed, or memory was refused.
#[derive(Clone, Copy, PartialEq, Eq)]
pub enum Halt {
    Sink,
    Memory(NoMemory),
}

/// How the rows of a span end: all were handed over, of so many entries, the last of them spent if there is a key; or the taker
/// is full.
#[derive(Drop)]
pub enum End {
    Whole { tried: u64, spent: Option<Cut> },
    Full,
}

/// Takes the rows of a listing in their order, and writes, counts or keeps them.
pub trait Taker<K> {
    type Row;

    /// That it was handed these rows since it and its output were the first two, and then had that room; none where a put
    /// failed.
    ghost takes: { Self → K → List Self.Row → Self → K → Option RoomOf → Type 0 };

    /// How many rows it wants, if there is a limit.
    ghost limit: { Self → Option ℕ };

    fn limit(&self) -> Option<u32>
        ensures { result ≡ limit self.now };

    /// Takes the next rows. It is full exactly where it was handed more than it wants.
    fn take(&mut self, rows: RowList<Self::Row>, out: &mut K) -> Result<Room, Halt>
        ensures took { (start : Self) (from : K) (done : List Self.Row) → takes start from done self.old out.old (Some More) → Took takes start from done rows self.new out.new result }
        ensures limit { limit self.new ≡ limit self.old }
        ensures full { (start : Self) (from : K) (done : List Self.Row) → takes start from done self.old out.old (Some More) → IfOk result (λ room. (room ≡ IsFull) ↔ (is_past (limit self.old) (length (done ++ rows)) ≡ true)) };
}

/// Takes rows one by one too, each as it is found.
pub trait RowTaker<K>: Taker<K> {
    /// Takes the next row. What is left of it isn't said, so that its memory may be used again.
    fn take_row(&mut self, row: &mut Self::Row, out: &mut K) -> Result<Room, Halt>
        ensures { (start : Self) (from : K) (done : List Self.Row) → Self.takes start from done self.old out.old (Some More) → Took Self.takes start from done (row.old ∷ []) self.new out.new result };
}

impl From<Failed> for Halt {
    ghost use Rattle.std.specs.Prelude.{◌≡◌};
    ghost use Rattle.kr_survey.specs.declared.taker.Halt.TheVariants.{Sink};

    ghost from_gives = { λ _ e. e ≡ Sink };

    fn from(_: Failed) -> Self {
        Halt::Sink
    }
}

impl From<NoMemory> for Halt {
    ghost use Rattle.std.specs.Prelude.{◌≡◌};
    ghost use Rattle.kr_survey.specs.declared.taker.Halt.TheVariants.{Memory};

    ghost from_gives = { λ why e. e ≡ Memory why };

    fn from(why: NoMemory) -> Self {
        Halt::Memory(why)
    }
}
