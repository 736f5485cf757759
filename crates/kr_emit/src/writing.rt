// Builders written as they are handed over.
ghost use Rattle.std.specs.Prelude.{◌≡◌, ◌↔◌, ◌++◌, List, Some, IfOk, length, min, true};
ghost use Rattle.kr_emit.specs.Vocabulary.{Full, is_past, More, Took};
ghost use Rattle.kr_emit.specs.Writers.{WritesBuilders};
ghost use Rattle.kr_emit.specs.declared.making.Builder.{Builder as BuilderOf};
ghost use Rattle.kr_emit.specs.declared.writer.BuilderWriter.{BuilderWriter as WriterOf};

use crate::making::Builder;
use crate::putting::{line_of, lines_of};
use crate::writer::BuilderWriter;
use kr_base::Sink;
use kr_report_streaming::LineWriter;
use kr_survey::{Halt, Room, RowList, RowTaker, Taker};

/// A number, or the last one of 32 bits if that is less.
fn at_most(number: usize) -> u32
    ensures { result ≡ min number 4294967295 }
{
    if number < 4294967295 {
        number as u32
    } else {
        4294967295
    }
}

impl<K: Sink> Taker<K> for BuilderWriter {
    ghost use Rattle.std.specs.Prelude.{Some};
    ghost use Rattle.kr_emit.specs.Writers.{WritesBuilders};

    type Row = Builder;

    ghost takes = { λ a from rows b out room. WritesBuilders K.taken K.faults a from rows b out room };

    ghost limit = { λ w. Some w.lines.limit };

    fn limit(&self) -> Option<u32> {
        <LineWriter as Taker<K>>::limit(&self.lines)
    }

    fn take(&mut self, rows: RowList<Builder>, out: &mut K) -> Result<Room, Halt>
        ensures took { (start : WriterOf) (from : K) (done : List BuilderOf) → WritesBuilders K.taken K.faults start from done self.old out.old (Some More) → Took (WritesBuilders K.taken K.faults) start from done rows self.new out.new result }
        ensures limit { Some self.new.lines.limit ≡ Some self.old.lines.limit }
        ensures full { (start : WriterOf) (from : K) (done : List BuilderOf) → WritesBuilders K.taken K.faults start from done self.old out.old (Some More) → IfOk result (λ room. (room ≡ Full) ↔ (is_past (Some self.old.lines.limit) (length (done ++ rows)) ≡ true)) }
    {
        let rows = rows.into_vec();
        let more = at_most(rows.len());
        let lines = match lines_of(self.alloc, rows, self.count) {
            Ok(lines) => lines,
            Err(why) => return Err(Halt::Memory(why)),
        };
        match self.lines.take(RowList::new(lines), out) {
            Err(halt) => Err(halt),
            Ok(room) => {
                self.count = self.count.saturating_add(more);
                Ok(room)
            }
        }
    }
}

impl<K: Sink> RowTaker<K> for BuilderWriter {
    fn take_row(&mut self, row: &mut Builder, out: &mut K) -> Result<Room, Halt> {
        let mut line = match line_of(self.alloc, row, u64::from(self.count)) {
            Ok(line) => line,
            Err(why) => return Err(Halt::Memory(why)),
        };
        match self.lines.take_row(&mut line, out) {
            Err(halt) => Err(halt),
            Ok(room) => {
                self.count = self.count.saturating_add(1);
                Ok(room)
            }
        }
    }
}
