// A writer of builders.
ghost use Rattle.std.specs.Prelude.{◌≡◌, []};

use kr_report_streaming::LineWriter;
use std::alloc::Global;

/// Writes builders, each with its number, at most so many.
#[derive(Drop)]
pub struct BuilderWriter {
    pub(crate) alloc: Global,
    pub(crate) lines: LineWriter,
    pub(crate) count: u32,
}

impl BuilderWriter {
    /// No builder is written yet. It takes no memory.
    pub fn new(alloc: Global, limit: u32) -> BuilderWriter
        ensures limit { result.lines.limit ≡ limit }
        ensures valid { result.lines.valid ≡ 0 }
        ensures failing { result.lines.failing ≡ 0 }
        ensures last { result.lines.last ≡ [] }
        ensures count { result.count ≡ 0 }
    {
        BuilderWriter {
            alloc,
            lines: LineWriter::new(alloc, limit),
            count: 0,
        }
    }
}
