// What the entries of a problem are like.
ghost use Rattle.kr_shard_laws.specs.Entries.{EntriesLaw, LinesLaw};

/// Where names have no line feed and slots and values aren't too many, each entry has a key that is a cut's, and a line.
pub fn lines_law()
    ensures { LinesLaw }
{}

/// So all entries of a listing's problem are those of a listing.
pub fn entries_law()
    ensures { EntriesLaw }
{}
