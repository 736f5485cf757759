// The output of a call: a sink that takes bytes and counts its faults.
ghost use Rattle.std.specs.Prelude.{◌≡◌, List, ℕ, Option};
ghost use Rattle.kr_base.specs.Told.{Puts, Writes};

/// A put failed. The sink has counted a fault.
#[derive(Clone, Copy, PartialEq, Eq)]
pub struct Failed;

pub trait Sink {
    /// The bytes taken so far, if the sink knows them.
    ghost taken: { Self → Option (List ℕ) };

    /// The count of failures. It never falls, and stops at 2^64 - 1.
    ghost faults: { Self → ℕ };

    /// Takes a prefix of the piece, at least one byte unless the piece is empty, and returns its length.
    fn put(&mut self, piece: &[u8]) -> Result<usize, Failed>
        ensures { Puts taken faults self.old self.new piece.now result };
}

/// Writes all of the bytes, by as many puts as needed.
pub fn put_all<K: Sink>(out: &mut K, bytes: &[u8]) -> Result<(), Failed>
    ensures { Writes K.taken K.faults out.old out.new bytes.now result }
{
    let mut rest = bytes;
    while !rest.is_empty() {
        let count = out.put(rest)?;
        rest = &rest[count..];
    }
    Ok(())
}
