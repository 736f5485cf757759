// What holds of the lines of a log.
ghost use Rattle.korat_top_laws.specs.Ends.{EndsLaw};
ghost use Rattle.korat_top_laws.specs.Honest.{HonestLaw};
ghost use Rattle.korat_top_laws.specs.Listings.{ListingLaw};
ghost use Rattle.korat_top_laws.specs.More.{MoreLaw};
ghost use Rattle.korat_top_laws.specs.Printed.{EventLaw, LogLaw};
ghost use Rattle.korat_top_laws.specs.RowLines.{RowLaw};
ghost use Rattle.korat_top_laws.specs.Spent.{SpentLaw};
ghost use Rattle.korat_top_laws.specs.Texts.{TextLaw};
ghost use Rattle.korat_top_laws.specs.Whole.{WholeLaw};
ghost use Rattle.korat_top_laws.specs.Worked.{WorkedListings};

/// The line that is written of an event is read as that event.
pub fn event_law()
    ensures { EventLaw }
{}

/// The lines that are written of a log that the rules accept lead to the state in which the log ends.
pub fn log_law()
    ensures { LogLaw }
{}

/// A text of rows, a last line and a log that agree is accepted.
pub fn text_law()
    ensures { TextLaw }
{}

/// A log that is honest about all entries is accepted beside the rows that were written of them.
pub fn honest_law<R>()
    ensures { HonestLaw R }
{}

/// A listing of all valid entries of a span, with the log that tried all entries of it, is accepted.
pub fn whole_law<R>()
    ensures { WholeLaw R }
{}

/// Rows of the valid entries, any last line that agrees, and a log that is honest about all entries are accepted.
pub fn listing_law<R>()
    ensures { ListingLaw R }
{}

/// The line of a row is read as its key and whether it passes.
pub fn row_law()
    ensures { RowLaw }
{}

/// Where an entry of a span is spent, `spent KEY` agrees with the rows and with an honest log without a stop.
pub fn spent_law<R>()
    ensures { SpentLaw R }
{}

/// Where rows are left out, `more KEY` agrees with the rows and with an honest log without a stop, or of more drained rows.
pub fn more_law<R>()
    ensures { MoreLaw R }
{}

/// Where no entry of a span is spent, the line of how many rows and entries there are agrees with them and with an honest log
/// without a stop.
pub fn ends_law<R>()
    ensures { EndsLaw R }
{}

/// Three listings, with what the laws ask of them.
pub fn worked_listings()
    ensures { WorkedListings }
{}
