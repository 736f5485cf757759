// Rows written as they are handed over.
ghost use Rattle.std.specs.Prelude.{◌≡◌, ◌↔◌, ◌++◌, List, Some, IfOk, length, true};
ghost use Rattle.kr_report_streaming.specs.Writers.{WritesLines};
ghost use Rattle.kr_report_streaming.specs.declared.row_line.RowLine.{RowLine as LineOf};
ghost use Rattle.kr_report_streaming.specs.declared.writer.LineWriter.{LineWriter as WriterOf};
ghost use Rattle.kr_survey.specs.Takings.{Took, is_past};
ghost use Rattle.kr_survey.specs.declared.taker.Room.TheVariants.{Full, More};

use crate::putting::put_rows;
use crate::row_line::RowLine;
use crate::writer::LineWriter;
use kr_base::{Sink, put_all};
use kr_survey::{Halt, Room, RowList, RowTaker, Taker};
use std::mem;

impl<K: Sink> Taker<K> for LineWriter {
    ghost use Rattle.std.specs.Prelude.{Some};
    ghost use Rattle.kr_report_streaming.specs.Writers.{WritesLines};

    type Row = RowLine;

    ghost takes = { λ a from rows b out room. WritesLines K.taken K.faults a from rows b out room };

    ghost limit = { λ w. Some w.limit };

    fn limit(&self) -> Option<u32> {
        Some(self.limit)
    }

    fn take(&mut self, rows: RowList<RowLine>, out: &mut K) -> Result<Room, Halt>
        ensures took { (start : WriterOf) (from : K) (done : List LineOf) → WritesLines K.taken K.faults start from done self.old out.old (Some More) → Took (WritesLines K.taken K.faults) start from done rows self.new out.new result }
        ensures limit { Some self.new.limit ≡ Some self.old.limit }
        ensures full { (start : WriterOf) (from : K) (done : List LineOf) → WritesLines K.taken K.faults start from done self.old out.old (Some More) → IfOk result (λ room. (room ≡ Full) ↔ (is_past (Some self.old.limit) (length (done ++ rows)) ≡ true)) }
    {
        let room = (self.limit - self.valid) as usize;
        let mut rows = rows.into_vec();
        let is_past = rows.len() > room;
        rows.truncate(room);
        match put_rows(self.alloc, rows.as_slice(), out) {
            Err(_) => Err(Halt::Sink),
            Ok(()) => {
                self.count(rows);
                Ok(if is_past { Room::Full } else { Room::More })
            }
        }
    }
}

impl<K: Sink> RowTaker<K> for LineWriter {
    fn take_row(&mut self, row: &mut RowLine, out: &mut K) -> Result<Room, Halt> {
        if self.valid == self.limit {
            return Ok(Room::Full);
        }
        match put_all(out, row.text.as_slice()) {
            Err(_) => Err(Halt::Sink),
            Ok(()) => {
                self.valid += 1;
                self.failing += u32::from(row.failing);
                mem::swap(&mut self.last, &mut row.key);
                Ok(Room::More)
            }
        }
    }
}
