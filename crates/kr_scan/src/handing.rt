// The rows of a span, handed over one by one, as they are found.
ghost use Rattle.std.specs.Prelude.{◌≡◌, ◌≤◌, ◌+◌, ◌-◌, ◌^◌, [], IfOk, List, Some, length, map, min};
ghost use Rattle.kr_base.specs.Entries.{entries_in};
ghost use Rattle.kr_base.specs.declared.span.Bound.TheVariants.{At};
ghost use Rattle.kr_mean.specs.Entries.{all_entries, mark_of};
ghost use Rattle.kr_mean.specs.Runs.{end_on, key_of};
ghost use Rattle.kr_mean.specs.Space.{IsVector, space_of};
ghost use Rattle.kr_space_problem.specs.Posed.{posed};
ghost use Rattle.kr_scan.specs.Filling.{IfFull, StopsWhenFull};
ghost use Rattle.kr_scan.specs.Stops.{EndsAt};
ghost use Rattle.kr_step.specs.Scans.{RunsOn, ending_of};
ghost use Rattle.kr_survey.specs.Listings.{listed_in};
ghost use Rattle.kr_survey.specs.Mapping.{entries_by};
ghost use Rattle.kr_survey.specs.Scans.{row_of as rows_at};
ghost use Rattle.kr_survey.specs.Takings.{Hands, Took};
ghost use Rattle.kr_survey.specs.declared.taker.Room.TheVariants.{More};

use crate::batch::is_spent;
use crate::maker::{RowMaker, cut_of};
use crate::scan::Scan;
use kr_base::{Span, Steps};
use kr_mean::Row;
use kr_step::{Candidate, Ending, Next, SpanSearch};
use kr_survey::{End, Halt, Making, Mapped, Room, RowTaker};
use std::alloc::Global;
use std::sync::ledger::Ledger;

/// A count that has risen by one, and stays at the last number.
fn one_more(count: u64) -> u64
    ensures { result ≡ min (count + 1) (2 ^ 64 - 1) }
{
    count.saturating_add(1)
}

/// How the rows end where the last of so many entries is spent.
fn spent_at(alloc: Global, key: &[u32], tried: u64) -> Result<End, Halt>
    ensures { EndsAt tried key.now result }
{
    match cut_of(alloc, key) {
        Ok(key) => Ok(End::Whole {
            tried,
            spent: Some(key),
        }),
        Err(why) => Err(Halt::Memory(why)),
    }
}

/// The memory in which one row after another is made, and made into another.
#[derive(Drop)]
struct Rooms<R, O> {
    row: Row,
    room: O,
    made: R,
}

/// Makes the row of a candidate that is valid, and hands it over.
fn hand_valid<R, M: Making<Row, Row = R>, T: RowTaker<K, Row = R>, C: Candidate + Drop, K>(
    making: &M,
    rooms: &mut Rooms<R, M::Room>,
    maker: &mut RowMaker<'_>,
    span: &SpanSearch<C>,
    taker: &mut T,
    out: &mut K,
) -> Result<Room, Halt>
    requires vector { IsVector (space_of (posed maker.old.problem)) (C.vector span.now.candidates) }
    requires key { span.now.cut ≡ key_of (posed maker.old.problem) (C.vector span.now.candidates) }
    requires ends { Ending.Valid ≡ ending_of (end_on (posed maker.old.problem) (C.vector span.now.candidates)) }
    ensures maker { maker.new ≡ maker.old }
    ensures took { (start : T) (from : K) (done : List R) → T.takes start from done taker.old out.old (Some More) → Took T.takes start from done (map (M.made_of making.now) (rows_at (mark_of (posed maker.old.problem) (C.vector span.now.candidates)))) taker.new out.new result }
{
    match maker.fill(span.cut(), span.candidates(), &mut rooms.row) {
        Err(why) => Err(Halt::Memory(why)),
        Ok(()) => match making.make(&mut rooms.room, &mut rooms.row, &mut rooms.made) {
            Err(why) => Err(Halt::Memory(why)),
            Ok(()) => taker.take_row(&mut rooms.made, out),
        },
    }
}

/// Hands over the row of the entry at which a walk over a span is, if its candidate is valid.
fn hand_entry<R, M: Making<Row, Row = R>, T: RowTaker<K, Row = R>, C: Candidate + Drop, K>(
    ending: Ending,
    making: &M,
    rooms: &mut Rooms<R, M::Room>,
    maker: &mut RowMaker<'_>,
    span: &SpanSearch<C>,
    taker: &mut T,
    out: &mut K,
) -> Result<Room, Halt>
    requires vector { IsVector (space_of (posed maker.old.problem)) (C.vector span.now.candidates) }
    requires key { span.now.cut ≡ key_of (posed maker.old.problem) (C.vector span.now.candidates) }
    requires ends { ending ≡ ending_of (end_on (posed maker.old.problem) (C.vector span.now.candidates)) }
    ensures maker { maker.new ≡ maker.old }
    ensures took { (start : T) (from : K) (done : List R) → T.takes start from done taker.old out.old (Some More) → Took T.takes start from done (map (M.made_of making.now) (rows_at (mark_of (posed maker.old.problem) (C.vector span.now.candidates)))) taker.new out.new result }
{
    match ending {
        Ending::Valid => hand_valid(making, rooms, maker, span, taker, out),
        Ending::Invalid => Ok(Room::More),
        Ending::Spent => Ok(Room::More),
    }
}

/// Hands over the rows of a span's entries: each before the next candidate is run.
fn hand_over<
    R: Drop,
    M: Making<Row, Row = R>,
    T: RowTaker<K, Row = R>,
    C: Candidate + Drop,
    K,
    L: Ledger,
>(
    alloc: Global,
    making: &M,
    maker: &mut RowMaker<'_>,
    span: &mut SpanSearch<C>,
    taker: &mut T,
    out: &mut K,
    runs: &mut Steps<L>,
) -> Result<End, Halt>
    requires fresh { T.takes taker.old out.old [] taker.old out.old (Some More) }
    requires runs_on { RunsOn (posed maker.old.problem) (C.space span.old.candidates) (C.order span.old.candidates) (C.ending span.old.candidates) }
    ensures hands { Hands T.takes (entries_by (M.made_of making.now) (entries_in (At span.old.cut) span.old.upto (all_entries (posed maker.old.problem)))) taker.old out.old taker.new out.new result }
    ensures runs { IfOk result (λ end. runs.new ≤ runs.old + length (entries_in (At span.old.cut) span.old.upto (all_entries (posed maker.old.problem))) + 1) }
    ensures full { IfOk result (λ end. IfFull end (StopsWhenFull T.takes (entries_by (M.made_of making.now) (entries_in (At span.old.cut) span.old.upto (all_entries (posed maker.old.problem)))) taker.old out.old runs.old runs.new 0)) }
{
    let mut rooms = Rooms {
        row: Row::blank(alloc),
        room: making.room(),
        made: making.blank(),
    };
    let mut tried: u64 = 0;
    loop {
        let ending = match span.next(runs) {
            Err(why) => return Err(Halt::Memory(why)),
            Ok(Next::End) => return Ok(End::Whole { tried, spent: None }),
            Ok(Next::Found(ending)) => ending,
        };
        tried = one_more(tried);
        if is_spent(ending) {
            return spent_at(alloc, span.cut(), tried);
        }
        match hand_entry(ending, making, &mut rooms, maker, &*span, taker, out) {
            Err(halt) => return Err(halt),
            Ok(Room::Full) => return Ok(End::Full),
            Ok(Room::More) => {}
        }
    }
}

/// The rows of a problem's entries in a span, made into others and handed over by one worker: each before the next candidate is
/// run. There is at most one run an entry, beside those that seeking takes, and none once the taker is full. It waits for nobody.
pub fn walk<'p, R: Drop, M: Making<Row, Row = R>, T: RowTaker<K, Row = R>, K, L: Ledger>(
    survey: &Mapped<Scan<'p>, M>,
    span: Span,
    taker: &mut T,
    out: &mut K,
    runs: &mut Steps<L>,
) -> Result<End, Halt>
    requires { T.takes taker.old out.old [] taker.old out.old (Some More) }
    ensures hands { Hands T.takes (listed_in (entries_by (M.made_of survey.now.making) (all_entries (posed survey.now.survey))) span) taker.old out.old taker.new out.new result }
    ensures runs { IfOk result (λ end. runs.new ≤ runs.old + length (entries_in (At span.after) span.upto (all_entries (posed survey.now.survey))) + length span.after + 2) }
    ensures full { IfOk result (λ end. IfFull end (StopsWhenFull T.takes (listed_in (entries_by (M.made_of survey.now.making) (all_entries (posed survey.now.survey))) span) taker.old out.old runs.old runs.new (length span.after + 1))) }
{
    let scan = &survey.survey;
    let mut maker = match RowMaker::new(scan.alloc, scan.prepared) {
        Ok(maker) => maker,
        Err(why) => return Err(Halt::Memory(why)),
    };
    let search = match scan.seek(&span.after, runs) {
        Ok(search) => search,
        Err(why) => return Err(Halt::Memory(why)),
    };
    let mut found = SpanSearch::of(search, span.upto);
    hand_over(
        scan.alloc,
        &survey.making,
        &mut maker,
        &mut found,
        taker,
        out,
        runs,
    )
}
