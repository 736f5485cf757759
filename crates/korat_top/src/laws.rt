// What holds of the answers that `run` gives.
ghost use Rattle.korat_top.specs.Ends.{OneAnswer};

use korat_top_files::one_outcome;
use kr_shard::one_merge;

/// Words and files have at most one answer, but for the log after it.
pub fn one_answer()
    ensures { OneAnswer }
{
    one_outcome();
    one_merge();
}
