// What a structure's text goes through, and a row, worked out.
ghost use Rattle.kr_report_rows.specs.Worked.{WorkedRow};
ghost use Rattle.kr_report_rows.specs.Written.{WrittenLaw};

/// A structure's text has the parameters, and then each object that is met, in the order in which they are met, with what
/// the structure has of its slots.
pub fn written_law()
    ensures { WrittenLaw }
{}

/// A row of a test, with its key, its verdict, its parameters and its objects.
pub fn worked_law()
    ensures { WorkedRow }
{}
