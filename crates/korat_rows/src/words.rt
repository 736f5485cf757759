// The meaning of some command lines, worked by hand.
ghost use Rattle.korat_rows.specs.WorkedWords.{WorkedWords};

/// Commands and faults of some words.
pub fn worked_words()
    ensures { WorkedWords }
{}
