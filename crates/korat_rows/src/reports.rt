// The lines and reports of small problems.
ghost use Rattle.korat_rows.specs.WorkedReports.{WorkedLines};

/// The lines and reports of small problems, worked by hand.
#[tactic(auto, using(crate::proofs::WorkedReports::worked))]
pub fn worked_lines()
    ensures { WorkedLines }
{}
