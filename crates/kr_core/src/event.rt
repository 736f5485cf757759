// Events, and the replies to them.

use kr_base::{Bound, Cut};

/// An event. Seats are the workers' numbers, and segments go by their numbers.
#[derive(Drop)]
pub enum Event {
    /// The seat becomes the owner of a segment.
    Take {
        seat: u32,
        segment: u64,
    },
    /// A segment ends at the cut, and the rest of it is a new segment of the seat.
    Steal {
        seat: u32,
        victim: u64,
        cut: Cut,
        segment: u64,
    },
    /// The seat has scanned its segment up to the reach: so many candidates were tried, and so many of them gave a row.
    /// `spent` says that the last one ran out of fuel.
    Report {
        seat: u32,
        segment: u64,
        reach: Bound,
        rows: u64,
        tried: u64,
        spent: bool,
    },
    /// The seat gives its segment back.
    GiveUp {
        seat: u32,
        segment: u64,
    },
    /// So many rows are taken out, from the first segment on.
    Drain {
        rows: u64,
    },
    /// All ends at the first segment's mark.
    StopAt {
        mark: Cut,
    },
    /// The seat looks, and finds nothing to do.
    Look {
        seat: u32,
    },
}

/// A part that a seat is to scan: a segment from its mark on.
#[derive(Drop)]
pub struct Lease {
    pub seat: u32,
    pub segment: u64,
    pub mark: Cut,
    pub upto: Bound,
}

/// The reply to an event that was taken.
#[derive(Drop)]
pub enum Reply {
    /// The lease of the segment that was taken or stolen.
    Lease(Lease),
    /// The segment has more to scan, under this lease.
    Go(Lease),
    /// The segment was scanned to its end.
    Done,
    Noted,
}
