// What holds of the shards of every listing.
ghost use Rattle.kr_shard_laws.specs.Theorem.{ShardLaw};

/// What `shard` writes of spans that adjoin is read back, and put together in any order it is the listing of the whole.
pub fn shard_law()
    ensures { ShardLaw }
{}
