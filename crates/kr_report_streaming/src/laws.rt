// Laws of reports.
ghost use Rattle.kr_report_streaming.specs.Lines.{LinesLaw};
ghost use Rattle.kr_report_streaming.specs.Tallies.{CountLaw};
ghost use Rattle.kr_report_streaming.specs.Worked.{AreLines};

use kr_mean::Row;
use kr_survey::mapped_law;

/// The listing of a problem's lines is the listing of its entries.
pub fn lines_law()
    ensures { LinesLaw }
{
    mapped_law::<Row, crate::RowLine>();
}

/// The tally of entries whose rows are left out is the tally of the entries.
pub fn count_law()
    ensures { CountLaw }
{
    mapped_law::<Row, ()>();
}

/// The text of a log with an event of each kind.
pub fn worked_lines()
    ensures { AreLines }
{}
