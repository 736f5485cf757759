// The board that workers share, as it lies under their lock.
ghost use Rattle.std.specs.Prelude.{◌≡◌, ◌+◌, ◌<◌, ◌≤◌, ◌↔◌, [], Some, None, true, false, length, take, drop, IfOk, IfErr, IfSome, IfNone, OnOk, OnErr};
ghost use Rattle.kr_base.specs.declared.span.Bound.TheVariants.{At};
ghost use Rattle.kr_base.specs.Bounds.{less};
ghost use Rattle.kr_base.specs.Entries.{Ascends};
ghost use Rattle.kr_core.specs.declared.event.Event.TheVariants.{Drain, GiveUp, Steal};
ghost use Rattle.kr_core.specs.declared.event.Reply.TheVariants.{Lease as Leased, Noted};
ghost use Rattle.kr_core.specs.Counts.{AllClosed};
ghost use Rattle.kr_core.specs.Openings.{AreInside, opening};
ghost use Rattle.kr_core.specs.Rows.{drained};
ghost use Rattle.kr_core.specs.States.{segment_of};
ghost use Rattle.kr_core.specs.Steps.{may_give_up};
ghost use Rattle.kr_survey.specs.Listings.{listed_in};
ghost use Rattle.kr_survey.specs.Scans.{rows_of};
ghost use Rattle.kr_board.specs.Boards.{IsBoardOf, Adds};
ghost use Rattle.kr_board.specs.Closing.{all_closed, front_rows};
ghost use Rattle.kr_board.specs.Parts.{IsPart};
ghost use Rattle.kr_board.specs.Reporting.{IsRefusal, refusal, report_event, reply_of as report_reply};
ghost use Rattle.kr_board.specs.Splitting.{split_of};
ghost use Rattle.kr_board.specs.Taking.{IsLater, take_event, reply_of as take_reply};
ghost use Rattle.kr_board.specs.declared.board.taking.Taken.TheVariants.{Later, Finished};
ghost use Rattle.kr_board.specs.declared.board.releasing.GivenUp.TheVariants.{Released, Gone};
ghost use Rattle.kr_pool_desk.specs.Runs.{IsRun, are_shared};
ghost use Rattle.kr_pool_desk.specs.Leasing.{IsLeaseOf, Takes, Reports};
ghost use Rattle.kr_pool_desk.specs.Short.{AreShortEvents, IsShort, IsShortBound, IsShortRun};
ghost use Rattle.kr_survey.specs.Takings.{is_past};
ghost use Rattle.kr_pool_desk.specs.Limits.{IsWanted, KeepsWindow, begins_within};
ghost use Rattle.kr_pool_desk.specs.Draining.{last_rows, rows_kept};
ghost use Rattle.kr_pool_desk.specs.Laying.{LaysOut};
ghost use Rattle.kr_pool_desk.specs.Seats.{calls_of};
ghost use Rattle.kr_pool_desk.specs.Observed.{ObservesDrain};

use crate::crew::Run;
use crate::seat::Seat;
use crate::seats::all_calls;
use crate::wanted::Wanted;
use kr_base::{Bound, NoMemory};
use kr_board::{Board, Event, GivenUp, Lease, Refused, Reported, Taken, part_law};
use kr_survey::{Part, Rows};
use std::marker::Model;
use std::sync::ledger::{Book, Ledger, Share};

/// A board; the books of the calls that were logged at it and of the rows that were drained from it; and how many rows are
/// still wanted. Contracts see the board, and how many calls were logged.
#[derive(Drop)]
pub struct Desk<R, N: Run<R>, D: Ledger> {
    pub(crate) board: Board<R>,
    calls: Book<N>,
    rows: Book<D>,
    wanted: Wanted,
}

impl<R, N: Run<R>, D: Ledger> Model for Desk<R, N, D> {
    ghost use Rattle.std.specs.Prelude.{◌≡◌, ℕ, true};
    ghost use Rattle.kr_core.specs.Rows.{drained};
    ghost use Rattle.kr_board.specs.Held.{Held};
    ghost use Rattle.kr_pool_desk.specs.Runs.{IsRun};
    ghost use Rattle.kr_core.specs.Openings.{opening};
    ghost use Rattle.kr_pool_desk.specs.Limits.{IsWanted, KeepsWindow, begins_within};

    ghost Value = { Held R × ℕ };

    ghost view = { λ d. (d.board, d.calls.total) };

    ghost invariant = { λ d. IsRun N.all N.span N.cuts N.opening N.workers d.board d.calls.total × (d.board.window ≡ N.window)
        × (drained d.board.log ≡ d.rows.total) × IsWanted N.limit (drained d.board.log) d.wanted × (begins_within N.limit 0 d.board.log ≡ true)
        × KeepsWindow N.window (opening N.span N.cuts) d.board.log };
}

/// The rows that the last event took out.
pub fn last_rows(log: &[Event]) -> u64
    ensures { result ≡ last_rows log.now }
{
    match log.last() {
        Some(Event::Drain { rows }) => *rows,
        Some(_) => 0,
        None => 0,
    }
}

impl<R: Drop, N: Run<R>, D: Ledger> Desk<R, N, D> {
    /// The board, of which no call was counted yet, and from which no row was drained.
    pub fn new(board: Board<R>, calls: Book<N>, rows: Book<D>, limit: Option<u64>) -> Self
        requires ascends { Ascends N.all }
        requires inside { AreInside N.cuts N.span }
        requires board { IsBoardOf N.all N.span N.cuts board }
        requires opening { board.log ≡ N.opening }
        requires shared { are_shared N.workers N.opening ≡ true }
        requires window { board.window ≡ N.window }
        requires limit { limit ≡ N.limit }
        requires undrained { drained N.opening ≡ 0 }
        requires short { AreShortEvents N.opening }
        requires kept { KeepsWindow N.window (opening N.span N.cuts) N.opening }
        requires none { (calls.total ≡ 0) × (rows.total ≡ 0) }
        ensures { result.0 ≡ board }
    {
        Desk {
            board,
            calls,
            rows,
            wanted: Wanted::new(limit),
        }
    }

    /// The board again, once all seats are back. Its log is longer than at the start by as many events as the seats' calls,
    /// and as many rows were drained as the share counts.
    pub fn shut(self, seats: Vec<Seat<N>>, tap: &mut Share<D>) -> Board<R>
        requires all { length seats.items ≡ N.parts }
        requires some { 0 < N.parts }
        requires whole { tap.old.parts ≡ D.parts }
        ensures drained { drained result.log ≡ tap.old.amount }
        ensures run { IsRun N.all N.span N.cuts N.opening N.workers result (calls_of seats.items) }
        ensures limit { begins_within N.limit 0 result.log ≡ true }
        ensures window { result.window ≡ N.window }
        ensures kept { KeepsWindow N.window (opening N.span N.cuts) result.log }
        ensures board { result ≡ self.0 }
    {
        let Desk {
            board,
            mut calls,
            mut rows,
            wanted: _,
        } = self;
        rows.audit(tap);
        match all_calls(seats) {
            None => {}
            Some(mut all) => calls.audit(&mut all),
        }
        board
    }

    /// The board is the run's. It takes no time.
    pub fn run_law(&self)
        ensures { IsRun N.all N.span N.cuts N.opening N.workers self.now.0 self.now.1 }
    {
        let _ = &self.board;
    }

    /// Whether nothing is left to do.
    pub fn is_finished(&self) -> bool
        ensures { result ≡ all_closed self.now.0.core }
    {
        self.board.is_finished()
    }

    /// Whether more rows than the limit were drained.
    pub fn is_past(&self) -> bool
        ensures { result ≡ is_past N.limit (drained self.now.0.log) }
    {
        let _ = &self.board;
        self.wanted.is_past()
    }

    /// The next rows of the run's span after those that the share counts, and whether nothing is left to do then.
    pub fn drain(
        &mut self,
        seat: &mut Seat<N>,
        tap: &mut Share<D>,
    ) -> Result<(Rows<R>, bool), NoMemory>
        requires whole { tap.old.parts ≡ D.parts }
        requires some { 0 < tap.old.parts }
        ensures rows { IfOk result (λ r. r.0 ≡ take (length r.0) (drop tap.old.amount (rows_of (listed_in N.all N.span)))) }
        ensures front { IfOk result (λ r. r.0 ≡ front_rows self.old.0) }
        ensures event { IfOk result (λ r. Adds self.old.0 (Drain (length r.0)) Noted [] self.new.0) }
        ensures kept { IfOk result (λ r. rows_kept self.new.0 + length r.0 ≤ rows_kept self.old.0) }
        ensures counted { IfOk result (λ r. tap.new.amount ≡ tap.old.amount + length r.0) }
        ensures finished { IfOk result (λ r. r.1 ≡ all_closed self.new.0.core) }
        ensures observed { IfOk result (λ r. ObservesDrain N.all N.span N.cuts N.opening N.workers seat.old.calls.amount seat.new.calls.amount tap.new.amount r.0 r.1) }
        ensures last { IfOk result (λ r. r.1 ≡ true → tap.new.amount ≡ length (rows_of (listed_in N.all N.span))) }
        ensures unchanged { OnErr result (self.new.0 ≡ self.old.0) }
        ensures uncounted { OnErr result (tap.new.amount ≡ tap.old.amount) }
        ensures parts { tap.new.parts ≡ tap.old.parts }
        ensures number { seat.new.number ≡ seat.old.number }
    {
        self.rows.audit(tap);
        match self.board.drain() {
            Err(why) => Err(why),
            Ok(rows) => {
                self.board.counts_few();
                self.calls.add(&mut seat.calls, 1);
                let count = last_rows(self.board.log());
                self.rows.add(tap, count);
                self.wanted = self.wanted.after(count);
                let finished = self.board.is_finished();
                Ok((rows, finished))
            }
        }
    }

    /// A seat takes a lease.
    pub fn take(&mut self, seat: u32, calls: &mut Share<N>) -> Result<Taken, NoMemory>
        requires part { 0 < calls.old.parts }
        requires below { seat < N.workers }
        requires open { is_past N.limit (drained self.old.0.log) ≡ false }
        ensures lease { IfOk result (Takes (IsShortRun N.all N.span N.cuts) seat) }
        ensures event { IfOk result (λ taken. Adds self.old.0 (take_event seat self.old.0.core) (take_reply taken) [] self.new.0) }
        ensures later { IfOk result (λ taken. (taken ≡ Later) ↔ IsLater self.old.0.core) }
        ensures finished { IfOk result (λ taken. (taken ≡ Finished) ↔ AllClosed self.old.0.core) }
        ensures kept { rows_kept self.new.0 ≤ rows_kept self.old.0 }
        ensures unchanged { OnErr result (self.new.0 ≡ self.old.0) }
        ensures drained { drained self.new.0.log ≡ drained self.old.0.log }
        ensures counted { OnOk result (calls.new.amount ≡ calls.old.amount + 1) }
        ensures uncounted { OnErr result (calls.new.amount ≡ calls.old.amount) }
        ensures parts { calls.new.parts ≡ calls.old.parts }
        ensures total { self.new.1 + calls.old.amount ≡ self.old.1 + calls.new.amount }
    {
        match self.board.take(seat) {
            Err(refused) => Err(refused),
            Ok(taken) => {
                self.board.counts_few();
                self.calls.add(calls, 1);
                Ok(taken)
            }
        }
    }

    /// A seat reports what a scan of the run's entries gave from its lease's mark on.
    pub fn report(
        &mut self,
        seat: u32,
        lease: Lease,
        part: Part<R>,
        calls: &mut Share<N>,
    ) -> Result<Reported<R>, Refused<R>>
        requires part { 0 < calls.old.parts }
        requires below { seat < N.workers }
        requires lease { lease.seat ≡ seat }
        requires honest { IsPart N.all lease.mark part }
        requires few { length part.rows ≤ 256 }
        requires short { IsShortRun N.all N.span N.cuts → IsShortBound part.reach }
        ensures lease { IfOk result (Reports (IsShortRun N.all N.span N.cuts) seat lease part) }
        ensures refusal { IfOk result (IsRefusal (refusal self.old.0 lease part)) }
        ensures event { IfOk result (λ reported. Adds self.old.0 (report_event self.old.0 lease part) (report_reply reported) part.rows self.new.0) }
        ensures kept { rows_kept self.new.0 ≤ rows_kept self.old.0 + length part.rows }
        ensures unchanged { OnErr result (self.new.0 ≡ self.old.0) }
        ensures drained { drained self.new.0.log ≡ drained self.old.0.log }
        ensures back { IfErr result (λ refused. (refused.lease ≡ lease) × (refused.part ≡ part)) }
        ensures counted { OnOk result (calls.new.amount ≡ calls.old.amount + 1) }
        ensures uncounted { OnErr result (calls.new.amount ≡ calls.old.amount) }
        ensures parts { calls.new.parts ≡ calls.old.parts }
        ensures total { self.new.1 + calls.old.amount ≡ self.old.1 + calls.new.amount }
    {
        part_law::<R>();
        match self.board.report(lease, part) {
            Err(refused) => Err(refused),
            Ok(reported) => {
                self.board.counts_few();
                self.calls.add(calls, 1);
                Ok(reported)
            }
        }
    }

    /// A seat steals from itself the rest after a cut, if there is one.
    pub fn split(
        &mut self,
        seat: u32,
        lease: &Lease,
        calls: &mut Share<N>,
    ) -> Result<Option<Lease>, NoMemory>
        requires part { 0 < calls.old.parts }
        requires below { seat < N.workers }
        requires lease { lease.now.seat ≡ seat }
        requires open { is_past N.limit (drained self.old.0.log) ≡ false }
        ensures seat { IfOk result (λ rest. IfSome rest (λ r. r.seat ≡ seat)) }
        ensures short { IfOk result (λ rest. IfSome rest (λ r. IsShortRun N.all N.span N.cuts → IsShort r.mark)) }
        ensures cut { IfOk result (λ rest. IfSome rest (λ r. split_of self.old.0.core lease.now ≡ Some r.mark)) }
        ensures event { IfOk result (λ rest. IfSome rest (λ r. Adds self.old.0 (Steal seat lease.now.segment r.mark self.old.0.core.next) (Leased r) [] self.new.0)) }
        ensures no_cut { IfOk result (λ rest. IfNone rest (split_of self.old.0.core lease.now ≡ None)) }
        ensures none { IfOk result (λ rest. IfNone rest (self.new.0 ≡ self.old.0)) }
        ensures unchanged { OnErr result (self.new.0 ≡ self.old.0) }
        ensures owned { IfOk result (λ rest. IfSome rest (λ r. may_give_up seat (segment_of r.segment self.new.0.core.segments) ≡ true)) }
        ensures drained { drained self.new.0.log ≡ drained self.old.0.log }
        ensures ahead { IfOk result (λ rest. IfSome rest (λ r. less (At lease.now.mark) (At r.mark) ≡ true)) }
        ensures counted { IfOk result (λ rest. IfSome rest (λ r. calls.new.amount ≡ calls.old.amount + 1)) }
        ensures uncounted { IfOk result (λ rest. IfNone rest (calls.new.amount ≡ calls.old.amount)) }
        ensures refused { OnErr result (calls.new.amount ≡ calls.old.amount) }
        ensures parts { calls.new.parts ≡ calls.old.parts }
        ensures total { self.new.1 + calls.old.amount ≡ self.old.1 + calls.new.amount }
    {
        match self.board.split(lease) {
            Err(refused) => Err(refused),
            Ok(None) => Ok(None),
            Ok(Some(rest)) => {
                self.board.counts_few();
                self.calls.add(calls, 1);
                Ok(Some(rest))
            }
        }
    }

    // A seat cuts what it has left, and gives the rest up. The lease under which it goes on, and whether there was a cut.
    fn cut_off(&mut self, seat: u32, lease: Lease, calls: &mut Share<N>) -> (Lease, bool)
        requires part { 0 < calls.old.parts }
        requires below { seat < N.workers }
        requires lease { IsLeaseOf (IsShortRun N.all N.span N.cuts) seat lease }
        requires open { is_past N.limit (drained self.old.0.log) ≡ false }
        ensures lease { IsLeaseOf (IsShortRun N.all N.span N.cuts) seat result.0 }
        ensures laid { LaysOut 1 self.old.0 lease self.new.0 result.0 result.1 }
        ensures drained { drained self.new.0.log ≡ drained self.old.0.log }
        ensures parts { calls.new.parts ≡ calls.old.parts }
        ensures total { self.new.1 + calls.old.amount ≡ self.old.1 + calls.new.amount }
    {
        match self.split(seat, &lease, calls) {
            Err(_) => (lease, false),
            Ok(None) => (lease, false),
            Ok(Some(rest)) => {
                self.give_up(seat, &rest, calls);
                (
                    Lease {
                        seat: lease.seat,
                        segment: lease.segment,
                        mark: lease.mark,
                        upto: Bound::At(rest.mark),
                    },
                    true,
                )
            }
        }
    }

    /// A seat splits rests off its segment for others, unless something can be taken already or the window has no
    /// room for rows after its segment. The highest cuts come first, and often nothing follows them, so it splits off up to
    /// three at once. The lease under which it goes on, and whether it cut.
    pub fn lay_out(&mut self, seat: u32, lease: Lease, calls: &mut Share<N>) -> (Lease, bool)
        requires part { 0 < calls.old.parts }
        requires below { seat < N.workers }
        requires lease { IsLeaseOf (IsShortRun N.all N.span N.cuts) seat lease }
        requires open { is_past N.limit (drained self.old.0.log) ≡ false }
        ensures lease { IsLeaseOf (IsShortRun N.all N.span N.cuts) seat result.0 }
        ensures laid { LaysOut 3 self.old.0 lease self.new.0 result.0 result.1 }
        ensures drained { drained self.new.0.log ≡ drained self.old.0.log }
        ensures parts { calls.new.parts ≡ calls.old.parts }
        ensures total { self.new.1 + calls.old.amount ≡ self.old.1 + calls.new.amount }
    {
        if !self.is_rest_wanted(&lease) {
            return (lease, false);
        }
        let (first, cut) = self.cut_off(seat, lease, calls);
        if !cut {
            return (first, false);
        }
        let (second, cut) = self.cut_off(seat, first, calls);
        if !cut {
            return (second, true);
        }
        let (third, _) = self.cut_off(seat, second, calls);
        (third, true)
    }

    /// A seat gives a lease back.
    pub fn give_up(&mut self, seat: u32, lease: &Lease, calls: &mut Share<N>) -> GivenUp
        requires part { 0 < calls.old.parts }
        requires below { seat < N.workers }
        requires lease { lease.now.seat ≡ seat }
        ensures released { result ≡ Released → calls.new.amount ≡ calls.old.amount + 1 }
        ensures gone { result ≡ Gone → calls.new.amount ≡ calls.old.amount }
        ensures unowned { (result ≡ Gone) ↔ (may_give_up seat (segment_of lease.now.segment self.old.0.core.segments) ≡ false) }
        ensures event { result ≡ Released → Adds self.old.0 (GiveUp seat lease.now.segment) Noted [] self.new.0 }
        ensures unchanged { result ≡ Gone → self.new.0 ≡ self.old.0 }
        ensures kept { self.new.0.kept ≡ self.old.0.kept }
        ensures drained { drained self.new.0.log ≡ drained self.old.0.log }
        ensures parts { calls.new.parts ≡ calls.old.parts }
        ensures total { self.new.1 + calls.old.amount ≡ self.old.1 + calls.new.amount }
    {
        match self.board.give_up(lease) {
            GivenUp::Gone => GivenUp::Gone,
            GivenUp::Released => {
                self.board.counts_few();
                self.calls.add(calls, 1);
                GivenUp::Released
            }
        }
    }
}
