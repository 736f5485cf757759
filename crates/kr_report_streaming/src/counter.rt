// A counter of rows.
ghost use Rattle.std.specs.Prelude.{◌≡◌, ◌≤◌, ◌↔◌, ◌++◌, List, Option, ℕ, Some, None, IfOk, OnErr, length, true};
ghost use Rattle.kr_base.specs.declared.entry.Entry.{Entry};
ghost use Rattle.kr_report.specs.Endings.{EndsListing};
ghost use Rattle.kr_report_streaming.specs.Tallies.{HasCounted, count_answer, summary_by};
ghost use Rattle.kr_report_streaming.specs.declared.counter.Counter.{Counter as CounterOf};
ghost use Rattle.kr_survey.specs.Takings.{Hands, Took, is_past};
ghost use Rattle.kr_survey.specs.declared.taker.Room.TheVariants.{Full, More};

use crate::halting::put_halt;
use kr_base::Sink;
use kr_report::{Summary, once_written, summary_text};
use kr_survey::{End, Halt, Room, RowList, RowTaker, Taker};

/// Counts rows, and stays at the last number of 64 bits.
#[derive(Drop)]
pub struct Counter {
    pub(crate) count: u64,
}

impl<K> Taker<K> for Counter {
    ghost use Rattle.std.specs.Prelude.{None};
    ghost use Rattle.kr_report_streaming.specs.Tallies.{HasCounted};

    type Row = ();

    ghost takes = { λ a from rows b out room. HasCounted from rows b out room };

    ghost limit = { λ c. None };

    fn limit(&self) -> Option<u32> {
        None
    }

    fn take(&mut self, rows: RowList<()>, out: &mut K) -> Result<Room, Halt>
        ensures took { (start : CounterOf) (from : K) (done : List (Unit {0})) → HasCounted from done self.old out.old (Some More) → Took (λ a from rows b out room. HasCounted from rows b out room) start from done rows self.new out.new result }
        ensures limit { let none : Option ℕ = None in none ≡ none }
        ensures full { (start : CounterOf) (from : K) (done : List (Unit {0})) → HasCounted from done self.old out.old (Some More) → IfOk result (λ room. (room ≡ Full) ↔ (is_past None (length (done ++ rows)) ≡ true)) }
    {
        let _ = out;
        self.count = self.count.saturating_add(rows.len() as u64);
        Ok(Room::More)
    }
}

impl<K> RowTaker<K> for Counter {
    fn take_row(&mut self, row: &mut (), out: &mut K) -> Result<Room, Halt> {
        let _ = row;
        let _ = out;
        self.count = self.count.saturating_add(1);
        Ok(Room::More)
    }
}

impl Counter {
    /// No row yet.
    pub fn new() -> Counter
        ensures { result.count ≡ 0 }
    {
        Counter { count: 0 }
    }

    /// With what a count of structures of so many nodes ends.
    fn summary(self, nodes: u32, end: End) -> Summary
        ensures { result ≡ summary_by nodes self.count end }
    {
        match end {
            End::Whole {
                tried: _,
                spent: Some(key),
            } => Summary::Spent(key),
            End::Whole {
                tried: _,
                spent: None,
            } => Summary::Demo {
                nodes,
                valid: self.count,
            },
            End::Full => Summary::Demo {
                nodes,
                valid: self.count,
            },
        }
    }

    /// Writes one line: how many rows were counted, for so many nodes, or the key of the spent entry. Returns the status.
    pub fn close<K: Sink>(self, nodes: u32, put: Result<End, Halt>, out: &mut K) -> u8
        ensures late { OnErr put (7 ≤ result) }
        ensures ends { (a : CounterOf) (from : K) (es : List (Entry (Unit {0}))) → Hands (λ a from rows b out room. HasCounted from rows b out room) es a from self out.old put → EndsListing K.taken K.faults (count_answer nodes es) from out.new result }
    {
        match put {
            Err(halt) => put_halt(halt, out),
            Ok(end) => {
                let summary = self.summary(nodes, end);
                once_written(summary_text(&summary, out), summary.status())
            }
        }
    }
}
