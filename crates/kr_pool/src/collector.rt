// A taker that keeps all rows.
ghost use Rattle.std.specs.Prelude.{◌≡◌, ◌↔◌, ◌++◌, ℕ, List, Option, [], Some, None, IfOk, length, true};
ghost use Rattle.kr_pool.specs.Vocabulary.{Full, is_past, joined, lists, More, Took};
ghost use Rattle.kr_pool.specs.Collecting.{Collects};
ghost use Rattle.kr_pool.specs.declared.collector.Collector.{Collector as CollectorOf};

use kr_survey::{Halt, Room, RowList, Rows, Taker};
use std::alloc::Global;

/// Keeps the rows in pieces, as they came.
#[derive(Drop)]
pub struct Collector<R> {
    pub(crate) pieces: Vec<Vec<R>>,
}

impl<R> Collector<R> {
    /// No row yet. It takes no memory.
    pub fn new(alloc: Global) -> Self
        ensures { result.pieces.items ≡ [] }
    {
        Collector {
            pieces: Vec::new(alloc),
        }
    }

    /// The rows.
    pub fn into_rows(self) -> Rows<R>
        ensures { result ≡ joined (lists self.pieces.items) }
    {
        Rows::new(self.pieces)
    }
}

impl<R: Drop, K> Taker<K> for Collector<R> {
    ghost use Rattle.std.specs.Prelude.{None};
    ghost use Rattle.kr_pool.specs.Collecting.{Collects};

    type Row = R;

    ghost takes = { λ a from rows b out room. Collects a rows b room };

    ghost limit = { λ c. None };

    fn limit(&self) -> Option<u32> {
        None
    }

    #[tactic(auto, using(crate::proofs::Collected::collects_more))]
    fn take(&mut self, rows: RowList<R>, out: &mut K) -> Result<Room, Halt>
        ensures took { (start : CollectorOf R) (from : K) (done : List R) → Collects start done self.old (Some More) → Took (λ a from rows b out room. Collects a rows b room) start from done rows self.new out.new result }
        ensures limit { let none : Option ℕ = None in none ≡ none }
        ensures full { (start : CollectorOf R) (from : K) (done : List R) → Collects start done self.old (Some More) → IfOk result (λ room. (room ≡ Full) ↔ (is_past None (length (done ++ rows)) ≡ true)) }
    {
        let _ = out;
        match self.pieces.push(rows.into_vec()) {
            Err(why) => Err(Halt::Memory(why.into())),
            Ok(()) => Ok(Room::More),
        }
    }
}
