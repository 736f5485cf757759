// What holds of the texts of every listing.
ghost use Rattle.kr_shard_laws.specs.Law.{BackLaw};

/// What `shard` writes of a span of a listing is read as the shard of its entries.
pub fn back_law()
    ensures { BackLaw }
{}
