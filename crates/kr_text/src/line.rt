// A line that is assembled before it is written, so that it costs one write.
ghost use Rattle.std.specs.Prelude.{◌≡◌, ◌<◌, ◌++◌, [], true, OnOk, OnErr, is_some};

use kr_base::{Failed, NoMemory, Sink};
use std::alloc::Global;

/// A sink that keeps the bytes it takes. When out of memory it fails, counts a fault, and keeps the cause.
#[derive(Drop)]
pub struct Line {
    bytes: Vec<u8>,
    refused: Option<NoMemory>,
    faults: u64,
    /// After a fault, the cause is kept.
    ghost kept: { 0 < faults → is_some refused ≡ true },
}

impl Line {
    ghost use Rattle.kr_text.specs.Lines.{line_bytes, line_faults, line_refused};

    /// An empty line. Allocates nothing.
    pub fn new(alloc: Global) -> Self
        ensures empty { line_bytes result ≡ [] }
        ensures faults { line_faults result ≡ 0 }
    {
        Line {
            bytes: Vec::new(alloc),
            refused: None,
            faults: 0,
        }
    }

    /// The bytes taken since the line was made or cleared.
    pub fn bytes(&self) -> &[u8]
        ensures { result.now ≡ line_bytes self.now }
    {
        &self.bytes
    }

    /// The cause of the last failed put, if a fault was counted.
    pub fn refused(&self) -> Option<NoMemory>
        ensures refused { result ≡ line_refused self.now }
        ensures kept { 0 < line_faults self.now → is_some result ≡ true }
    {
        self.refused
    }

    /// Adds bytes. When out of memory it adds none, and counts no fault.
    pub fn add(&mut self, bytes: &[u8]) -> Result<(), NoMemory>
        ensures added { OnOk result (line_bytes self.new ≡ line_bytes self.old ++ bytes.now) }
        ensures unchanged { OnErr result (line_bytes self.new ≡ line_bytes self.old) }
        ensures faults { line_faults self.new ≡ line_faults self.old }
    {
        self.bytes.extend_from_slice(bytes)?;
        Ok(())
    }

    /// Empties the line, and keeps its memory.
    pub fn clear(&mut self)
        ensures empty { line_bytes self.new ≡ [] }
        ensures faults { line_faults self.new ≡ line_faults self.old }
    {
        self.bytes.clear();
    }
}

impl Sink for Line {
    ghost use Rattle.std.specs.Prelude.{Some};

    ghost taken = { λ s. Some s.bytes.items };

    ghost faults = { λ s. s.faults };

    fn put(&mut self, piece: &[u8]) -> Result<usize, Failed> {
        match self.bytes.extend_from_slice(piece) {
            Ok(()) => Ok(piece.len()),
            Err(why) => {
                self.refused = Some(why.into());
                self.faults = self.faults.saturating_add(1);
                Err(Failed)
            }
        }
    }
}
