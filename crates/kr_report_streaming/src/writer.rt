// A writer of lines.
ghost use Rattle.std.specs.Prelude.{◌≡◌, ◌≤◌, ◌+◌, [], length};
ghost use Rattle.kr_report_streaming.specs.Lines.{failing_lines, last_of};

use crate::row_line::RowLine;
use kr_base::Cut;
use std::alloc::Global;

/// Writes rows as lines, at most so many, and counts them and those that fail. It keeps the key of the last one.
#[derive(Drop)]
pub struct LineWriter {
    pub(crate) alloc: Global,
    pub(crate) limit: u32,
    pub(crate) valid: u32,
    pub(crate) failing: u32,
    pub(crate) last: Cut,
    ghost few: { failing ≤ valid },
    ghost fits: { valid ≤ limit },
}

/// How many of these rows fail.
fn count_failing(rows: &[RowLine]) -> u32
    requires { length rows.now ≤ 4294967295 }
    ensures failing { result ≡ length (failing_lines rows.now) }
    ensures few { result ≤ length rows.now }
{
    let mut count: u32 = 0;
    for row in rows {
        count += u32::from(row.failing);
    }
    count
}

impl LineWriter {
    /// No line is written yet. It takes no memory.
    pub fn new(alloc: Global, limit: u32) -> LineWriter
        ensures limit { result.limit ≡ limit }
        ensures valid { result.valid ≡ 0 }
        ensures failing { result.failing ≡ 0 }
        ensures last { result.last ≡ [] }
    {
        LineWriter {
            alloc,
            limit,
            valid: 0,
            failing: 0,
            last: Cut::empty(alloc),
        }
    }

    /// Counts rows that were written.
    pub(crate) fn count(&mut self, rows: Vec<RowLine>)
        requires { self.old.valid + length rows.items ≤ self.old.limit }
        ensures limit { self.new.limit ≡ self.old.limit }
        ensures valid { self.new.valid ≡ self.old.valid + length rows.items }
        ensures failing { self.new.failing ≡ self.old.failing + length (failing_lines rows.items) }
        ensures last { self.new.last ≡ last_of self.old.last rows.items }
    {
        let mut rows = rows;
        let failing = count_failing(rows.as_slice());
        self.valid += rows.len() as u32;
        self.failing += failing;
        if let Some(row) = rows.pop() {
            self.last = row.key;
        }
    }
}
