// What holds of each problem that a command's steps accept.
ghost use Rattle.korat_top_laws.specs.Laws.{AcceptedLaw, MergedLaw, UpgradedLaw, WrittenLaw};
ghost use Rattle.korat_top_laws.specs.Traced.{TracedLaw};
ghost use Rattle.korat_top_laws.specs.Words.{WordsLaw};

use kr_base::reading_law;

/// What the steps accept is accepted as the laws on programs ask.
pub fn accepted_law()
    ensures { AcceptedLaw }
{}

/// What `upgrade` writes of a finitization that the steps accept is accepted too, with an equal problem.
pub fn upgraded_law()
    ensures { UpgradedLaw }
{}

/// What `shard` writes of a span is the text that `merged_law` speaks of.
pub fn written_law()
    ensures { WrittenLaw }
{}

/// Files that hold what `shard` writes of spans that adjoin are answered by `merge` as `list` answers the whole.
pub fn merged_law()
    ensures { MergedLaw }
{}

/// The words of `shard` give a span that `merged_law` speaks of, and what is reported of a problem then is its text.
pub fn words_law()
    ensures { WordsLaw }
{
    reading_law();
}

/// What a listing or a test writes with a trace is accepted by `trace`, for the same span and number of workers.
pub fn traced_law()
    ensures { TracedLaw }
{}
