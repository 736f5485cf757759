// Small texts as they are read.
ghost use Rattle.korat_rows.specs.WorkedShards.{WorkedShards};

/// What is read of small texts, worked by hand.
pub fn shard_rows()
    ensures { WorkedShards }
{}
