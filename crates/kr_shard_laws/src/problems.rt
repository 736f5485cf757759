// What holds of the shards of every problem.
ghost use Rattle.kr_shard_laws.specs.Entries.{AcceptedLinesLaw};
ghost use Rattle.kr_shard_laws.specs.Problems.{AcceptedShardsLaw, ListingLaw};

/// The entries of a problem that is accepted, for a listing or a test, have lines (`lines_law`).
pub fn accepted_lines_law()
    ensures { AcceptedLinesLaw }
{}

/// All entries of a problem that is accepted for a listing are those of a listing.
pub fn listing_law()
    ensures { ListingLaw }
{}

/// What `shard` writes of spans of such a problem that adjoin is put together, in any order, to what `list` writes of the whole.
pub fn accepted_shards_law()
    ensures { AcceptedShardsLaw }
{}
