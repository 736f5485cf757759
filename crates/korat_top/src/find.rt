// The work for a search, before anything is written.
ghost use Rattle.kr_args.specs.Sources.{SearchesSources};
ghost use Rattle.kr_args.specs.declared.forms.Command.TheVariants.{Search as SearchFor};
ghost use Rattle.korat_top_files.specs.Found.{CountStays};
ghost use Rattle.korat_top.specs.Found.{Finds};

use korat_top_files::{Stop, find_built, find_demo, find_files, find_test};
use kr_args::forms::Search;
use kr_io::Files;
use kr_judge_prepared::Accepted;
use kr_mean::Mode;
use std::alloc::Global;

/// Does the steps of a search, up to the problem.
pub(crate) fn find<F: Files>(
    alloc: Global,
    search: &Search,
    files: &mut F,
) -> Result<Accepted, Stop>
    requires { SearchesSources search.now }
    ensures found { Finds F.held F.faults F.last (SearchFor search.now) files.old files.new result }
    ensures count { CountStays (F.faults files.old) (F.faults files.new) result }
{
    match search {
        Search::List(ask) => {
            find_files(alloc, Mode::List, ask.fin.as_str(), &ask.sources, files)
        }
        Search::Test { method, ask } => find_test(alloc, method, ask, files),
        Search::Demo { n, .. } => find_demo(alloc, *n),
        Search::Shard(ask) => {
            find_files(alloc, Mode::List, ask.fin.as_str(), &ask.sources, files)
        }
        Search::Emit(ask) => find_built(alloc, ask, files),
    }
}
