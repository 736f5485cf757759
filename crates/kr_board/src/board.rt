// A board: the machine, the rows beside it, and the log.
ghost use Rattle.std.specs.Prelude.{◌≡◌, ◌+◌, ◌-◌, ◌^◌, ◌<◌, ◌≤◌, [], Some, None, true, length, replicate, vec_len, vec_capacity, IfOk, IfErr, OnOk, OnErr};
ghost use Rattle.kr_survey.specs.Joins.{joined};
ghost use Rattle.kr_core.specs.Openings.{AreInside, opening};
ghost use Rattle.kr_core.specs.Steps.{fits};
ghost use Rattle.kr_core.specs.Rows.{brought};
ghost use Rattle.kr_board.specs.Boards.{IsBoardOf, Adds};
ghost use Rattle.kr_board.specs.Rooms.{IsAdded};
ghost use Rattle.kr_board.specs.Windows.{Admits, IsInWindow};

mod closing;
mod releasing;
mod reporting;
mod splitting;
mod taking;
mod windows;

use crate::edits::{edit_of, empty_lists, make_room, write};
pub use closing::{Closed, Logged};
use kr_base::{Cut, NoMemory, Span};
use kr_core::{Core, CoreRefusal, Event, Reply, Segment};
use kr_survey::Survey;
pub use releasing::GivenUp;
pub use reporting::{Refused, Reported};
use std::alloc::Global;
use std::marker::Model;
pub use taking::Taken;

/// A board whose rows are of one type. Contracts see the machine's state, the rows, the log, and how many rows may be kept.
#[derive(Drop)]
pub struct Board<R> {
    alloc: Global,
    core: Core,
    kept: Vec<Vec<R>>,
    log: Vec<Event>,
    window: Option<u64>,
}

impl<R> Model for Board<R> {
    ghost use Rattle.kr_survey.specs.Joins.{lists};
    ghost use Rattle.kr_board.specs.Held.{Held};
    ghost use Rattle.kr_board.specs.Rooms.{IsSound};
    ghost use Rattle.kr_board.specs.Windows.{IsInWindow};

    ghost Value = { Held R };

    ghost view = { λ b. record { core = b.core; kept = lists b.kept.items; log = b.log.items; window = b.window } };

    ghost invariant = { λ b. IsSound b.core (lists b.kept.items) b.log × IsInWindow b.window (lists b.kept.items) };
}

// Makes room in the log for an event, and then for each owner to give up, where there are so many segments.
fn make_log_room(log: &mut Vec<Event>, segments: &[Segment]) -> Result<(), NoMemory>
    ensures items { log.new.items ≡ log.old.items }
    ensures len { vec_len log.new ≡ vec_len log.old }
    ensures never_less { vec_capacity log.old ≤ vec_capacity log.new }
    ensures room { IfOk result (λ _. vec_len log.new + (length segments.now + 2) ≤ vec_capacity log.new) }
{
    match segments.len().checked_add(2) {
        None => Err(NoMemory::at_limit(segments)),
        Some(places) => {
            log.reserve(places)?;
            Ok(())
        }
    }
}

// Rows that weren't taken in, as memory was refused.
#[derive(Drop)]
struct Untaken<R> {
    rows: Vec<R>,
    why: NoMemory,
}

impl<R: Drop> Board<R> {
    /// Segments that adjoin at the cuts, and no rows. The survey gives the rows their type.
    pub fn new<S: Survey<Row = R>>(
        alloc: Global,
        survey: &S,
        span: Span,
        cuts: &[Cut],
    ) -> Result<Board<R>, NoMemory>
        requires { AreInside cuts.now span }
        ensures core { IfOk result (λ board. board.core ≡ opening span cuts.now) }
        ensures kept { IfOk result (λ board. board.kept ≡ replicate (length cuts.now + 1) []) }
        ensures log { IfOk result (λ board. board.log ≡ []) }
        ensures window { IfOk result (λ board. board.window ≡ None) }
        ensures of_survey { IfOk result (IsBoardOf (S.all survey.now) span cuts.now) }
    {
        Board::open(alloc, survey, span, cuts, None)
    }

    /// A board with a window: of the rows reported it keeps at most so many and 256 more.
    pub fn with_window<S: Survey<Row = R>>(
        alloc: Global,
        survey: &S,
        span: Span,
        cuts: &[Cut],
        window: u64,
    ) -> Result<Board<R>, NoMemory>
        requires inside { AreInside cuts.now span }
        requires window { (0 < window) × (window ≤ 65536) }
        ensures core { IfOk result (λ board. board.core ≡ opening span cuts.now) }
        ensures kept { IfOk result (λ board. board.kept ≡ replicate (length cuts.now + 1) []) }
        ensures log { IfOk result (λ board. board.log ≡ []) }
        ensures window { IfOk result (λ board. board.window ≡ Some window) }
        ensures of_survey { IfOk result (IsBoardOf (S.all survey.now) span cuts.now) }
    {
        Board::open(alloc, survey, span, cuts, Some(window))
    }

    // A board with or without a window.
    fn open<S: Survey<Row = R>>(
        alloc: Global,
        survey: &S,
        span: Span,
        cuts: &[Cut],
        window: Option<u64>,
    ) -> Result<Board<R>, NoMemory>
        requires { AreInside cuts.now span }
        ensures core { IfOk result (λ board. board.core ≡ opening span cuts.now) }
        ensures kept { IfOk result (λ board. board.kept ≡ replicate (length cuts.now + 1) []) }
        ensures log { IfOk result (λ board. board.log ≡ []) }
        ensures window { IfOk result (λ board. board.window ≡ window) }
        ensures of_survey { IfOk result (IsBoardOf (S.all survey.now) span cuts.now) }
    {
        let _ = survey;
        let core = Core::open(alloc, &span, cuts)?;
        let kept = empty_lists(alloc, core.segments().len())?;
        Ok(Board {
            alloc,
            core,
            kept,
            log: Vec::new(alloc),
            window,
        })
    }

    /// The events so far, in order.
    pub fn log(&self) -> &[Event]
        ensures { result.now ≡ self.now.log }
    {
        self.log.as_slice()
    }

    /// The segments, in the order of candidates.
    pub fn segments(&self) -> &[Segment]
        ensures { result.now ≡ self.now.core.segments }
    {
        self.core.segments()
    }

    // One event that fits, with the rows that it brings: room first, then the step, then what can't fail. Rows that aren't
    // taken are given back.
    fn add(&mut self, event: Event, logged: Event, rows: Vec<R>) -> Result<Reply, Untaken<R>>
        requires same { logged ≡ event }
        requires fits { fits self.old.core event ≡ true }
        requires kind { IsAdded event }
        requires brings { brought event ≡ length rows.items }
        requires few { length rows.items ≤ (2 ^ 64 - 1) - length (joined self.old.kept) }
        requires admits { Admits self.old event (length rows.items) }
        ensures added { IfOk result (λ reply. Adds self.old event reply rows.items self.new) }
        ensures unchanged { OnErr result (self.new ≡ self.old) }
        ensures back { IfErr result (λ untaken. untaken.rows ≡ rows) }
    {
        let edit = edit_of(&self.core, &logged);
        match make_log_room(&mut self.log, self.core.segments()) {
            Err(why) => return Err(Untaken { rows, why }),
            Ok(()) => {}
        }
        match make_room(&mut self.kept, edit, rows.len()) {
            Err(why) => return Err(Untaken { rows, why }),
            Ok(()) => {}
        }
        match self.core.apply(event) {
            Err(CoreRefusal::Illegal(_)) => unreachable!(),
            Err(CoreRefusal::NoMemory(why)) => Err(Untaken { rows, why }),
            Ok(reply) => {
                write(self.alloc, &mut self.kept, edit, rows);
                let _ = self.log.push(logged);
                Ok(reply)
            }
        }
    }

    // A seat looks, and finds nothing to do.
    fn look(&mut self, seat: u32) -> Result<(), NoMemory>
        ensures added { OnOk result (Adds self.old (Event.Look seat) Reply.Noted [] self.new) }
        ensures unchanged { OnErr result (self.new ≡ self.old) }
    {
        match self.add(
            Event::Look { seat },
            Event::Look { seat },
            Vec::new(self.alloc),
        ) {
            Ok(_) => Ok(()),
            Err(untaken) => Err(untaken.why),
        }
    }
}
