// A row as it is written.
ghost use Rattle.std.specs.Prelude.{◌≡◌, OnOk};

use kr_base::{Cut, NoMemory};
use std::alloc::Global;
use std::marker::Model;

/// A text. Contracts see its bytes.
#[derive(Drop)]
pub struct Text {
    bytes: Vec<u8>,
}

impl Model for Text {
    ghost use Rattle.std.specs.Prelude.{List, ℕ};

    ghost Value = { List ℕ };

    ghost view = { λ t. t.bytes.items };
}

impl Text {
    /// These bytes. It takes no memory.
    pub fn new(bytes: Vec<u8>) -> Self
        ensures { result ≡ bytes.items }
    {
        Text { bytes }
    }

    /// Becomes these bytes, in the memory that it has.
    pub fn assign(&mut self, bytes: &[u8]) -> Result<(), NoMemory>
        ensures { OnOk result (self.new ≡ bytes.now) }
    {
        self.bytes.clear();
        self.bytes.extend_from_slice(bytes)?;
        Ok(())
    }

    pub fn as_slice(&self) -> &[u8]
        ensures { result.now ≡ self.now }
    {
        self.bytes.as_slice()
    }
}

/// A row as it is written: its key, its line, and whether its verdict is failing.
#[derive(Drop)]
pub struct RowLine {
    pub key: Cut,
    pub text: Text,
    pub failing: bool,
}

impl RowLine {
    /// A row in whose memory others are made. It takes none.
    pub fn blank(alloc: Global) -> RowLine {
        RowLine {
            key: Cut::empty(alloc),
            text: Text::new(Vec::new(alloc)),
            failing: false,
        }
    }
}
