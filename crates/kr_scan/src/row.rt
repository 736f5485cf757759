// The row of a valid entry.
ghost use Rattle.std.specs.Prelude.{◌≡◌, ◌++◌, OnOk};
ghost use Rattle.kr_mean.specs.Entries.{mark_of};
ghost use Rattle.kr_mean.specs.Runs.{end_on, key_of};
ghost use Rattle.kr_mean.specs.Space.{IsVector, space_of};
ghost use Rattle.kr_step.specs.Scans.{ending_of};
ghost use Rattle.kr_space_problem.specs.Posed.{posed};
ghost use Rattle.kr_survey.specs.Scans.{row_of as rows_at};

use crate::maker::RowMaker;
use kr_base::NoMemory;
use kr_mean::Row;
use kr_step::{Candidate, Ending, SpanSearch};

/// Adds the row of the walk's current entry, if its candidate is valid.
pub(crate) fn add_row<C: Candidate + Drop>(
    ending: Ending,
    maker: &mut RowMaker<'_>,
    span: &SpanSearch<C>,
    rows: &mut Vec<Row>,
) -> Result<(), NoMemory>
    requires vector { IsVector (space_of (posed maker.old.problem)) (C.vector span.now.candidates) }
    requires key { span.now.cut ≡ key_of (posed maker.old.problem) (C.vector span.now.candidates) }
    requires ends { ending ≡ ending_of (end_on (posed maker.old.problem) (C.vector span.now.candidates)) }
    ensures maker { maker.new ≡ maker.old }
    ensures rows { OnOk result (rows.new.items ≡ rows.old.items ++ rows_at (mark_of (posed maker.old.problem) (C.vector span.now.candidates))) }
{
    match ending {
        Ending::Valid => {
            let row = maker.row(span.cut(), span.candidates())?;
            rows.push(row)?;
            Ok(())
        }
        Ending::Invalid => Ok(()),
        Ending::Spent => Ok(()),
    }
}
