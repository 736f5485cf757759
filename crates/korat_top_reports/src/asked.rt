// The span that a search asks for, and whether it is for one worker.
ghost use Rattle.std.specs.Prelude.{◌≡◌, ◌==◌, ◌&&◌, not, IfOk};
ghost use Rattle.korat_top_reports.specs.Reports.{is_alone, is_one, span_in};

use kr_args::forms::{Ask, Search};
use kr_base::{NoMemory, Span};

/// The span that is asked for.
pub(crate) fn span_of(ask: &Ask) -> Result<Span, NoMemory>
    ensures { IfOk result (λ span. span ≡ span_in ask.now) }
{
    let after = ask.from.try_clone()?;
    match ask.to.try_clone() {
        Ok(upto) => Ok(Span { after, upto }),
        Err(why) => Err(why),
    }
}

/// One worker, and no trace.
fn is_one(ask: &Ask) -> bool
    ensures { result ≡ is_one ask.now }
{
    ask.workers == 1 && !ask.trace
}

/// Whether a search is for one worker, without a trace.
pub fn is_alone(search: &Search) -> bool
    ensures { result ≡ is_alone search.now }
{
    match search {
        Search::List(ask) => is_one(ask),
        Search::Test { ask, .. } => is_one(ask),
        Search::Demo { workers, .. } => *workers == 1,
        Search::Shard(ask) => is_one(ask),
        Search::Emit(_) => true,
    }
}
