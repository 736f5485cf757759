// Laws of parts, and of every board of a survey.
ghost use Rattle.kr_board.specs.Boards.{BoardLaw};
ghost use Rattle.kr_board.specs.Parts.{PartLaw};

/// A scan from a lease's mark gives a part of its survey, which may be reported.
pub fn part_law<R>()
    ensures { PartLaw R }
{}

/// The survey's rows are those drained, and then of each segment those kept and those to come.
pub fn board_law<R>()
    ensures { BoardLaw R }
{}
