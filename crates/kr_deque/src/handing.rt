// A span by workers over deques, its rows handed over.
ghost use Rattle.std.specs.Prelude.{◌<◌, ◌≤◌, [], Some};
ghost use Rattle.kr_survey.specs.Listings.{listed_in};
ghost use Rattle.kr_survey.specs.Takings.{Hands};
ghost use Rattle.kr_survey.specs.declared.taker.Room.TheVariants.{More};

use crate::listing::list_deque;
use kr_base::Span;
use kr_io::Gate;
use kr_pool::hand_listing;
use kr_survey::{End, Halt, Survey, Taker};
use std::alloc::Global;
use std::sync::Wait;
use std::thread::Threads;

/// Spreads a span over so many workers with deques, in threads of their own, and hands its rows over in order once all are
/// found. Where memory is refused before, nothing is handed over. It may wait.
pub fn spread<
    S: Survey<Row: Drop + Send> + Sync,
    T: Taker<K, Row = S::Row>,
    K,
    G: Gate + Sync,
    W: Threads + Wait + Sync,
>(
    rt: &W,
    alloc: Global,
    survey: &S,
    span: Span,
    workers: u32,
    taker: &mut T,
    out: &mut K,
    gate: &G,
) -> Result<End, Halt>
    requires workers { (0 < workers) × (workers ≤ 64) }
    requires fresh { T.takes taker.old out.old [] taker.old out.old (Some More) }
    ensures { Hands T.takes (listed_in (S.all survey.now) span) taker.old out.old taker.new out.new result }
{
    match list_deque(rt, alloc, survey, span, workers, gate) {
        Err(why) => Err(Halt::Memory(why)),
        Ok(listing) => hand_listing(listing, taker, out),
    }
}
