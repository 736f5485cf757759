// A problem's entries with the lines of their rows, or with their number alone.
ghost use Rattle.std.specs.Prelude.{◌≡◌, ◌<◌, OnOk, true, is_some};
ghost use Rattle.kr_space_problem.specs.Posed.{posed};
ghost use Rattle.kr_report.specs.Reports.{is_failing};
ghost use Rattle.kr_report.specs.Texts.{row_text};
ghost use Rattle.kr_text.specs.Lines.{line_bytes};
ghost use Rattle.kr_report_streaming.specs.Lines.{line_of};

use kr_base::{Failed, NoMemory};
use kr_judge_prepared::Prepared;
use kr_mean::{Row, Verdict};
use kr_report_rows::row_text;
use kr_report_streaming::{RowLine, Text};
use kr_scan::Scan;
use kr_survey::{Making, Mapped};
use kr_text::Line;
use std::alloc::Global;
use std::marker::Model;
use std::mem;

/// Whether a verdict is failing.
fn is_failure(verdict: Option<Verdict>) -> bool
    ensures { result ≡ is_failing verdict }
{
    match verdict {
        None => false,
        Some(Verdict::Pass) => false,
        Some(Verdict::Ensures(_)) => true,
        Some(Verdict::Signals(_)) => true,
        Some(Verdict::RepOk) => true,
        Some(Verdict::Trap(_)) => true,
        Some(Verdict::CheckTrap(_)) => true,
        Some(Verdict::Spent) => true,
    }
}

/// Makes a line that of a row.
fn write_row(prepared: &Prepared, row: &Row, line: &mut Line) -> Result<(), NoMemory>
    ensures { OnOk result (line_bytes line.new ≡ row_text (posed prepared.now.problem) row.now) }
{
    line.clear();
    match row_text(prepared, row, line) {
        Ok(()) => Ok(()),
        Err(Failed) => match line.refused() {
            Some(why) => Err(why),
            // a line that failed was refused memory
            None => unreachable!(),
        },
    }
}

/// Makes rows into lines. Contracts see the problem.
#[derive(Drop)]
pub struct ToLines<'p> {
    alloc: Global,
    prepared: &'p Prepared,
}

impl<'p> Model for ToLines<'p> {
    ghost use Rattle.kr_space_problem.specs.declared.problem.Problem.{Problem as ProblemOf};

    ghost Value = { ProblemOf };

    ghost view = { λ s. s.prepared.now.problem };
}

impl<'p> ToLines<'p> {
    /// Makes a text that of a row.
    fn write_text(&self, row: &Row, line: &mut Line, text: &mut Text) -> Result<(), NoMemory>
        ensures { OnOk result (text.new ≡ row_text (posed self.now) row.now) }
    {
        match write_row(self.prepared, row, line) {
            Ok(()) => {
                text.assign(line.bytes())?;
                Ok(())
            }
            Err(why) => Err(why),
        }
    }
}

impl<'p> Making<Row> for ToLines<'p> {
    ghost use Rattle.kr_space_problem.specs.Posed.{posed};
    ghost use Rattle.kr_report_streaming.specs.Lines.{line_of};

    type Row = RowLine;

    type Room = Line;

    ghost made_of = { λ s row. line_of (posed s) row };

    fn room(&self) -> Line {
        Line::new(self.alloc)
    }

    fn blank(&self) -> RowLine {
        RowLine::blank(self.alloc)
    }

    fn make(&self, room: &mut Line, row: &mut Row, made: &mut RowLine) -> Result<(), NoMemory> {
        match self.write_text(&*row, room, &mut made.text) {
            Ok(()) => {
                mem::swap(&mut made.key, &mut row.key);
                made.failing = is_failure(row.verdict);
                Ok(())
            }
            Err(why) => Err(why),
        }
    }
}

/// The entries of a prepared problem, with the lines of their rows.
pub type Lines<'p> = Mapped<Scan<'p>, ToLines<'p>>;

/// The survey of a problem's entries with their lines. It takes no memory before it is scanned.
pub fn lines_of(alloc: Global, prepared: &Prepared) -> Mapped<Scan<'_>, ToLines<'_>>
    ensures survey { result.survey ≡ prepared.now.problem }
    ensures making { result.making ≡ prepared.now.problem }
{
    Mapped::new(
        alloc,
        Scan::new(alloc, prepared),
        ToLines { alloc, prepared },
    )
}

/// Leaves out what rows say, so that only their number is left.
#[derive(Drop)]
pub struct ToUnits;

impl Making<Row> for ToUnits {
    type Row = ();

    type Room = ();

    ghost made_of = { λ s row. tt };

    fn room(&self) {}

    fn blank(&self) {}

    fn make(&self, room: &mut (), row: &mut Row, made: &mut ()) -> Result<(), NoMemory> {
        let _ = room;
        let _ = row;
        *made = ();
        Ok(())
    }
}

/// The entries of a prepared problem, of which rows are counted alone.
pub type Units<'p> = Mapped<Scan<'p>, ToUnits>;

/// The survey of a problem's entries without what their rows say. It takes no memory before it is scanned.
pub fn units_of(alloc: Global, prepared: &Prepared) -> Mapped<Scan<'_>, ToUnits>
    ensures { result.survey ≡ prepared.now.problem }
{
    Mapped::new(alloc, Scan::new(alloc, prepared), ToUnits)
}
