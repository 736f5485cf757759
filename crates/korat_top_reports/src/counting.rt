// How many classes and slots a problem has.
ghost use Rattle.std.specs.Prelude.{◌≡◌, ◌<◌, ◌^◌, length};
ghost use Rattle.kr_report.specs.Endings.{EndsListing};
ghost use Rattle.kr_space_problem.specs.Posed.{posed};
ghost use Rattle.korat_top_reports.specs.Reports.{counts_of};

use kr_base::Sink;
use kr_classes_table::PREDEFINED_CLASSES;
use kr_judge_prepared::Accepted;
use kr_report::{Summary, once_written, summary_text};

/// Counts the classes of the files, and the slots of their problem.
pub fn count<K: Sink>(found: &Accepted, out: &mut K) -> u8
    ensures { EndsListing K.taken K.faults (counts_of (posed found.now)) out.old out.new result }
{
    let problem = found.problem();
    let classes = problem
        .program
        .table
        .members
        .len()
        .saturating_sub(PREDEFINED_CLASSES) as u32;
    let slots = problem.layout.slots();
    once_written(summary_text(&Summary::Check { classes, slots }, out), 0)
}
