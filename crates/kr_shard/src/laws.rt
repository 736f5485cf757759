// What holds of the listings that files of shards give.
ghost use Rattle.kr_shard.specs.Files.{OneMerge};

/// Files of shards have at most one answer.
pub fn one_merge()
    ensures { OneMerge }
{}
