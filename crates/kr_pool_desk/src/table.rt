// The locked value: the desk, and the pace of its seats.
ghost use Rattle.std.specs.Prelude.{◌≡◌, ◌+◌, ◌≤◌, true, length, None, is_some, IfOk, IfErr, IfSome, IfNone, OnErr};
ghost use Rattle.kr_board.specs.Parts.{IsPart};
ghost use Rattle.kr_pool_desk.specs.Leasing.{IsLeaseOf, Takes, Reports};
ghost use Rattle.kr_pool_desk.specs.Short.{IsShortBound, IsShortRun};
ghost use Rattle.kr_pool_desk.specs.Tables.{Answers, CanCome, Gives, GoesOn, GoesWithin, has_free_front};
ghost use Rattle.kr_pool_desk.specs.Observed.{ObservesReport, ObservesTake};

use crate::crew::Run;
use crate::desk::Desk;
use crate::pace::Pace;
use crate::seat::Seat;
use kr_base::NoMemory;
use kr_board::{Lease, Refused, Reported, Taken};
use kr_survey::Part;
use std::sync::ledger::Ledger;

/// A desk, and the pace of its seats.
#[derive(Drop)]
pub struct Table<R, N: Run<R>, D: Ledger> {
    pub desk: Desk<R, N, D>,
    pub pace: Pace,
}

impl<R: Drop, N: Run<R>, D: Ledger> Table<R, N, D> {
    /// The answer to a seat that wants work: a lease that was nobody's and is near enough to the front; nothing any more, since nothing
    /// is left or more rows than the limit were drained. None where it should wait.
    pub fn take(&mut self, seat: &mut Seat<N>) -> Result<Option<Taken>, NoMemory>
        ensures lease { IfOk result (λ taken. IfSome taken (Takes (IsShortRun N.all N.span N.cuts) seat.old.number)) }
        ensures answer { IfOk result (Gives N.limit seat.old.number self.old.desk.0 self.new.desk.0) }
        ensures observed { IfOk result (ObservesTake N.all N.span N.cuts N.opening N.workers N.limit seat.old.number seat.old.calls.amount seat.new.calls.amount) }
        ensures idle { IfOk result (λ taken. IfNone taken (seat.new.calls.amount ≡ seat.old.calls.amount)) }
        ensures front { IfOk result (λ taken. has_free_front self.old.desk.0.core.segments ≡ true → CanCome seat.old.number self.old.pace.beginning.coming → is_some taken ≡ true) }
        ensures unchanged { OnErr result (self.new.desk.0 ≡ self.old.desk.0) }
        ensures number { seat.new.number ≡ seat.old.number }
    {
        self.desk.run_law();
        let taken = self.give(seat);
        self.desk.run_law();
        taken
    }

    fn give(&mut self, seat: &mut Seat<N>) -> Result<Option<Taken>, NoMemory>
        ensures lease { IfOk result (λ taken. IfSome taken (Takes (IsShortRun N.all N.span N.cuts) seat.old.number)) }
        ensures answer { IfOk result (Gives N.limit seat.old.number self.old.desk.0 self.new.desk.0) }
        ensures idle { IfOk result (λ taken. IfNone taken (seat.new.calls.amount ≡ seat.old.calls.amount)) }
        ensures front { IfOk result (λ taken. has_free_front self.old.desk.0.core.segments ≡ true → CanCome seat.old.number self.old.pace.beginning.coming → is_some taken ≡ true) }
        ensures unchanged { OnErr result (self.new.desk.0 ≡ self.old.desk.0) }
        ensures total { self.new.desk.1 + seat.old.calls.amount ≡ self.old.desk.1 + seat.new.calls.amount }
        ensures number { seat.new.number ≡ seat.old.number }
    {
        if self.desk.is_past() {
            return Ok(Some(Taken::Finished));
        }
        self.pace.beginning.arrive(seat.number);
        if !self.may_give(seat.number) {
            return Ok(None);
        }
        match self.desk.take(seat.number, &mut seat.calls) {
            Err(why) => Err(why),
            Ok(taken) => {
                self.pace.beginning.note(seat.number, &taken);
                Ok(Some(taken))
            }
        }
    }

    // Whether a seat may be given a lease now. The front, free and without rows, waits for nobody but a seat that comes: the
    // owners of all segments after it may wait for room.
    fn may_give(&self, seat: u32) -> bool
        ensures front { has_free_front self.now.desk.0.core.segments ≡ true → self.now.pace.beginning.coming ≡ None → result ≡ true }
    {
        if self.desk.has_free_front() {
            return !self.pace.beginning.is_awaited() || self.may_begin(seat);
        }
        !self.desk.is_at_window() && self.desk.may_take() && self.may_begin(seat)
    }

    // Whether a seat may begin the first free segment now, if there is one.
    fn may_begin(&self, seat: u32) -> bool {
        match self.desk.first_free() {
            None => true,
            Some(segment) => self
                .pace
                .beginning
                .may_begin(seat, segment, self.desk.has_owned()),
        }
    }

    /// A part of the run's entries, reported. A seat that goes on may lay rests out, for those that wait or will. One that is
    /// too far from the front is done with its segment for now, and so is each once more rows than the limit were drained: the
    /// lease is given up.
    pub fn report(
        &mut self,
        lease: Lease,
        part: Part<R>,
        seat: &mut Seat<N>,
    ) -> Result<Reported<R>, Refused<R>>
        requires lease { lease.seat ≡ seat.old.number }
        requires honest { IsPart N.all lease.mark part }
        requires few { length part.rows ≤ 256 }
        requires short { IsShortRun N.all N.span N.cuts → IsShortBound part.reach }
        ensures lease { IfOk result (Reports (IsShortRun N.all N.span N.cuts) seat.old.number lease part) }
        ensures answer { IfOk result (Answers self.old.desk.0 lease part self.new.desk.0) }
        ensures observed { IfOk result (ObservesReport N.all N.span N.cuts N.opening N.workers N.limit seat.old.calls.amount seat.new.calls.amount lease part) }
        ensures unchanged { OnErr result (self.new.desk.0 ≡ self.old.desk.0) }
        ensures back { IfErr result (λ refused. (refused.lease ≡ lease) × (refused.part ≡ part)) }
        ensures number { seat.new.number ≡ seat.old.number }
    {
        self.desk.run_law();
        let reported = self.answer(lease, part, seat);
        self.desk.run_law();
        reported
    }

    fn answer(
        &mut self,
        lease: Lease,
        part: Part<R>,
        seat: &mut Seat<N>,
    ) -> Result<Reported<R>, Refused<R>>
        requires lease { lease.seat ≡ seat.old.number }
        requires honest { IsPart N.all lease.mark part }
        requires few { length part.rows ≤ 256 }
        requires short { IsShortRun N.all N.span N.cuts → IsShortBound part.reach }
        ensures lease { IfOk result (Reports (IsShortRun N.all N.span N.cuts) seat.old.number lease part) }
        ensures answer { IfOk result (Answers self.old.desk.0 lease part self.new.desk.0) }
        ensures within { IfOk result (GoesWithin N.limit self.new.desk.0) }
        ensures total { self.new.desk.1 + seat.old.calls.amount ≡ self.old.desk.1 + seat.new.calls.amount }
        ensures unchanged { OnErr result (self.new.desk.0 ≡ self.old.desk.0) }
        ensures back { IfErr result (λ refused. (refused.lease ≡ lease) × (refused.part ≡ part)) }
        ensures number { seat.new.number ≡ seat.old.number }
    {
        self.pace.reported(seat.number, part.tried);
        match self.desk.report(seat.number, lease, part, &mut seat.calls) {
            Err(refused) => Err(refused),
            Ok(Reported::Go(first)) => Ok(self.go_on(first, seat)),
            Ok(Reported::Done) => {
                self.pace.done(seat.number);
                Ok(Reported::Done)
            }
            Ok(other) => {
                self.pace.tell();
                Ok(other)
            }
        }
    }

    // A seat has more to scan under this lease.
    fn go_on(&mut self, lease: Lease, seat: &mut Seat<N>) -> Reported<R>
        requires lease { IsLeaseOf (IsShortRun N.all N.span N.cuts) seat.old.number lease }
        ensures lease { (next : _) → result ≡ Reported.Go next → IsLeaseOf (IsShortRun N.all N.span N.cuts) seat.old.number next }
        ensures answer { GoesOn self.old.desk.0 lease self.new.desk.0 result }
        ensures within { GoesWithin N.limit self.new.desk.0 result }
        ensures total { self.new.desk.1 + seat.old.calls.amount ≡ self.old.desk.1 + seat.new.calls.amount }
        ensures number { seat.new.number ≡ seat.old.number }
    {
        if self.desk.is_past() || self.desk.is_far(&lease) {
            self.pace.tell();
            let _ = self.desk.give_up(seat.number, &lease, &mut seat.calls);
            return Reported::Done;
        }
        if !self.pace.wants_rest() {
            return Reported::Go(lease);
        }
        let (next, cut) = self.desk.lay_out(seat.number, lease, &mut seat.calls);
        if cut {
            self.pace.laid_out();
        }
        Reported::Go(next)
    }

    /// Whether rows should be drained now: there are some, or nothing is left; and it is late, a seat waits for room, or there
    /// are many.
    pub fn is_due(&self, is_late: bool) -> bool {
        self.desk.is_drainable() && (is_late || self.pace.is_held() || self.desk.has_much())
    }

    /// The caller finds nothing to do. Whether it begins to wait: something is left, and another seat works, or may do so soon.
    pub fn begin_watch(&mut self) -> bool {
        if self.desk.is_finished() || !self.pace.is_worth_waiting() {
            return false;
        }
        self.pace.begin_wait();
        true
    }
}
