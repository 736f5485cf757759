// A shard as it is kept.
ghost use Rattle.std.specs.Prelude.{◌≡◌, IfOk};
ghost use Rattle.kr_shard.specs.declared.shard.ShardRefusal.TheVariants.{NoMemory as Lacking};

use kr_base::{Cut, NoMemory, Span};
use std::alloc::Global;
use std::marker::Model;

/// Rows in one buffer: their lines, and how many they are. Contracts see both.
#[derive(Drop)]
pub struct Rows {
    bytes: Vec<u8>,
    count: u64,
}

impl Model for Rows {
    ghost use Rattle.kr_shard.specs.ReadRows.{RowLines};

    ghost Value = { RowLines };

    ghost view = { λ r. record { bytes = r.bytes.items; count = r.count } };
}

impl Rows {
    /// A copy of so many lines.
    pub(crate) fn of(alloc: Global, bytes: &[u8], count: u64) -> Result<Rows, NoMemory>
        ensures { IfOk result (λ rows. rows ≡ record { bytes = bytes.now; count = count }) }
    {
        Ok(Rows {
            bytes: Vec::from_slice(alloc, bytes)?,
            count,
        })
    }

    /// The lines, one after another.
    pub fn as_bytes(&self) -> &[u8]
        ensures { result.now ≡ self.now.bytes }
    {
        self.bytes.as_slice()
    }

    /// How many they are.
    pub fn count(&self) -> u64
        ensures { result ≡ self.now.count }
    {
        self.count
    }
}

/// What a shard's text says: its span, its rows, and how it ends: with the number of entries tried, or with the key of
/// a spent one, and then `tried` is 0.
#[derive(Drop)]
pub struct Shard {
    pub span: Span,
    pub rows: Rows,
    pub tried: u64,
    pub spent: Option<Cut>,
}

/// A text is no shard's, or memory was refused.
#[derive(Clone, Copy, PartialEq, Eq)]
pub enum ShardRefusal {
    /// The number of the first line, from 1, through which the text begins no shard's.
    Malformed(u64),
    NoMemory(NoMemory),
}

impl From<NoMemory> for ShardRefusal {
    ghost from_gives = { λ why refusal. refusal ≡ Lacking why };

    fn from(why: NoMemory) -> ShardRefusal {
        ShardRefusal::NoMemory(why)
    }
}
