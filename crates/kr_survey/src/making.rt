// What rows are made into.
ghost use Rattle.std.specs.Prelude.{◌≡◌, OnOk};

use kr_base::NoMemory;

/// What each row of a survey is made into. It never changes, so that workers may share it.
pub trait Making<R> {
    /// What a row is made into.
    type Row;

    /// What is kept from one row for the next.
    type Room: Drop;

    /// What a row is made into, as a function.
    ghost made_of: { Self → R → Self.Row };

    /// Room for the first row.
    fn room(&self) -> Self::Room;

    /// A row in whose memory others are made.
    fn blank(&self) -> Self::Row;

    /// Makes a row into another, in the memory that this has. What is left of the row isn't said.
    fn make(&self, room: &mut Self::Room, row: &mut R, made: &mut Self::Row) -> Result<(), NoMemory>
        ensures { OnOk result (made.new ≡ made_of self.now row.old) };
}
