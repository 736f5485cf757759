// The seats of all workers: made, and given back.
ghost use Rattle.std.specs.Prelude.{◌≡◌, ◌<◌, length, IfOk, IfSome, IfNone};
ghost use Rattle.kr_pool_desk.specs.Seats.{calls_of, numbers_below, numbers_of};

use crate::crew::Crew;
use crate::seat::Seat;
use kr_base::NoMemory;
use std::alloc::Global;
use std::sync::ledger::Share;

// A seat for each worker, which share the ledger's parts.
#[tactic(auto, using(crate::proofs::Seating::calls_of_append, crate::proofs::Seating::numbers_append, crate::proofs::Seating::numbers_more, crate::proofs::Seating::numbers_last))]
pub(crate) fn seats_for<N: Crew>(
    alloc: Global,
    workers: u32,
    all: Share<N>,
) -> Result<Vec<Seat<N>>, NoMemory>
    requires parts { all.parts ≡ workers }
    requires amount { all.amount ≡ 0 }
    requires workers { N.workers ≡ workers }
    requires some { 0 < workers }
    ensures count { IfOk result (λ seats. length seats.items ≡ workers) }
    ensures numbers { IfOk result (λ seats. numbers_of seats.items ≡ numbers_below workers) }
    ensures none { IfOk result (λ seats. calls_of seats.items ≡ 0) }
{
    let mut all = all;
    let mut seats = Vec::new(alloc);
    for i in 1..workers {
        let calls = all.split_off(1, 0);
        seats.push(Seat {
            number: workers - i,
            calls,
        })?;
    }
    seats.push(Seat {
        number: 0,
        calls: all,
    })?;
    Ok(seats)
}

// The shares of all seats, in one.
#[tactic(auto, using(crate::proofs::Seating::calls_of_append))]
pub(crate) fn all_calls<N: Crew>(seats: Vec<Seat<N>>) -> Option<Share<N>>
    ensures some { IfSome result (λ all. (all.parts ≡ length seats.items) × (all.amount ≡ calls_of seats.items)) }
    ensures none { IfNone result (length seats.items ≡ 0) }
{
    let mut seats = seats;
    match seats.pop() {
        None => None,
        Some(Seat { calls: mut all, .. }) => {
            while let Some(Seat { calls: part, .. }) = seats.pop() {
                all.merge(part);
            }
            Some(all)
        }
    }
}
