// The listing of a span by many workers.
ghost use Rattle.std.specs.Prelude.{◌≡◌, ◌<◌, ◌≤◌, List, true, IfOk};
ghost use Rattle.kr_pool.specs.Vocabulary.{EntryOf, listed_in, Lists, Sink};
ghost use Rattle.kr_pool.specs.Collecting.{Collected};
ghost use Rattle.kr_pool.specs.Sharing.{is_whole};

use crate::collector::Collector;
use crate::shares::share;
use kr_base::{NoMemory, Span};
use kr_io::Gate;
use kr_survey::{End, Halt, Listing, Survey};
use std::alloc::Global;
use std::sync::Wait;
use std::thread::Threads;

/// Why the rows of a span weren't all kept.
fn refusal_of(halt: Halt) -> NoMemory
    requires { halt ≡ Sink → ⊥ }
{
    match halt {
        Halt::Memory(why) => why,
        Halt::Sink => unreachable!(),
    }
}

/// The listing of which all rows were kept.
fn listing_of<R>(rows: Collector<R>, end: End) -> Listing<R>
    requires { is_whole end ≡ true }
    ensures { (es : List (EntryOf R)) → Collected es rows end → Lists es result }
{
    match end {
        End::Full => unreachable!(),
        End::Whole { tried, spent } => Listing {
            rows: rows.into_rows(),
            tried,
            spent,
        },
    }
}

/// The listing of a span, by so many workers in threads of their own: rows, number of entries and spent key are those of
/// the survey's entries there, whatever the schedule.
pub fn list_shared<S: Survey<Row: Drop + Send> + Sync, G: Gate + Sync, W: Threads + Wait + Sync>(
    rt: &W,
    alloc: Global,
    survey: &S,
    span: Span,
    workers: u32,
    gate: &G,
) -> Result<Listing<S::Row>, NoMemory>
    requires workers { (0 < workers) × (workers ≤ 64) }
    ensures { IfOk result (Lists (listed_in (S.all survey.now) span)) }
{
    let mut rows = Collector::new(alloc);
    let mut out = ();
    let shared = share(
        rt, alloc, survey, span, workers, None, &mut rows, &mut out, gate,
    );
    match shared {
        Err(halt) => Err(refusal_of(halt)),
        Ok((end, _)) => Ok(listing_of(rows, end)),
    }
}
