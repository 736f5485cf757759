// The desk under a lock.
ghost use Rattle.std.specs.Prelude.{◌≡◌, ◌+◌, ◌<◌, ◌≤◌, [], true, length, take, drop, IfOk, IfErr, IfSome, IfNone, OnErr};
ghost use Rattle.kr_base.specs.Entries.{Ascends};
ghost use Rattle.kr_survey.specs.Scans.{rows_of};
ghost use Rattle.kr_core.specs.Openings.{AreInside, opening};
ghost use Rattle.kr_core.specs.Rows.{drained};
ghost use Rattle.kr_survey.specs.Listings.{listed_in};
ghost use Rattle.kr_board.specs.Boards.{IsBoardOf};
ghost use Rattle.kr_board.specs.Parts.{IsPart};
ghost use Rattle.kr_pool_desk.specs.Costs.{accounted, cost};
ghost use Rattle.kr_pool_desk.specs.Runs.{IsRun, are_shared};
ghost use Rattle.kr_pool_desk.specs.Leasing.{IsLeaseOf, Reports};
ghost use Rattle.kr_pool_desk.specs.Short.{AreShortEvents, IsShortBound, IsShortRun};
ghost use Rattle.kr_pool_desk.specs.Limits.{KeepsWindow, begins_within};
ghost use Rattle.kr_pool_desk.specs.Seats.{calls_of, numbers_below, numbers_of};
ghost use Rattle.kr_pool_desk.specs.Observed.{ObservesReport, ObservesLease, ObservesDrain};

use crate::crew::Run;
use crate::desk::Desk;
use crate::handed::Handed;
use crate::pace::Pace;
use crate::seat::Seat;
use crate::seats::seats_for;
use crate::table::Table;
use kr_base::NoMemory;
use kr_board::{Board, Lease, Refused, Reported, Taken};
use kr_survey::{Part, Rows};
use std::alloc::Global;
use std::sync::atomic::{AtomicU64, Ordering};
use std::sync::ledger::{Blank, Ledger, Share};
use std::sync::{Condvar, Mutex, MutexGuard, Wait};
use std::thread;
use std::time::Duration;

/// How often a seat that waits looks whether there is news, before it sleeps.
const PEEKS: u32 = 1000;

/// How many microseconds the caller sleeps at most where it finds nothing to do.
const WATCH: u64 = 2500;

/// The most entries that a worker scans before it reports; and while not every seat may begin a segment.
const BATCH: u32 = 256;

const FIRST: u32 = 16;

/// A board under its lock, how often there was news for those that wait, whether the round is over, and whether not every seat may
/// begin a segment yet. Who waits is woken where a rest is laid out, a segment is done, a lease is given back, rows are drained, a
/// seat leaves, or the caller ends the round.
#[derive(Drop)]
pub struct Shared<R, N: Run<R>, D: Ledger> {
    table: Mutex<Table<R, N, D>>,
    freed: Condvar,
    changes: AtomicU64,
    over: AtomicU64,
    beginning: AtomicU64,
}

impl<R: Drop, N: Run<R>, D: Ledger> Shared<R, N, D> {
    /// The board under a lock, a seat for each worker, and the share by which rows are drained.
    pub fn start(
        alloc: Global,
        board: Board<R>,
        limit: Option<u64>,
        workers: u32,
        blank: Blank,
        tap: Blank,
    ) -> Result<(Shared<R, N, D>, Vec<Seat<N>>, Share<D>), NoMemory>
        requires ledger { (blank.name ≡ N.name) × (blank.parts ≡ N.parts) }
        requires tap { (tap.name ≡ D.name) × (tap.parts ≡ D.parts) }
        requires workers { (N.parts ≡ workers) × (N.workers ≡ workers) }
        requires some { 0 < workers }
        requires ascends { Ascends N.all }
        requires inside { AreInside N.cuts N.span }
        requires board { IsBoardOf N.all N.span N.cuts board }
        requires window { board.window ≡ N.window }
        requires limit { limit ≡ N.limit }
        requires opening { board.log ≡ N.opening }
        requires shared { are_shared N.workers N.opening ≡ true }
        requires undrained { drained N.opening ≡ 0 }
        requires short { AreShortEvents N.opening }
        requires kept { KeepsWindow N.window (opening N.span N.cuts) N.opening }
        ensures count { IfOk result (λ r. length r.1.items ≡ workers) }
        ensures numbers { IfOk result (λ r. numbers_of r.1.items ≡ numbers_below workers) }
        ensures none { IfOk result (λ r. calls_of r.1.items ≡ 0) }
        ensures tap { IfOk result (λ r. (r.2.parts ≡ D.parts) × (r.2.amount ≡ 0)) }
    {
        let (calls, all) = blank.open::<N>();
        let (rows, whole) = tap.open::<D>();
        let seats = seats_for(alloc, workers, all)?;
        let pace = Pace::start(workers);
        let beginning = u64::from(!pace.beginning.is_over());
        let table = Mutex::new(Table {
            desk: Desk::new(board, calls, rows, limit),
            pace,
        });
        Ok((
            Shared {
                table,
                freed: Condvar::new(),
                changes: AtomicU64::new(0),
                over: AtomicU64::new(1),
                beginning: AtomicU64::new(beginning),
            },
            seats,
            whole,
        ))
    }

    /// The next rows of the run's span after those that the share counts, and whether nothing is left then. It is logged as
    /// a call of the seat.
    pub fn drain<W: Wait>(
        &self,
        rt: &W,
        seat: &mut Seat<N>,
        tap: &mut Share<D>,
    ) -> Result<(Rows<R>, bool), NoMemory>
        requires whole { tap.old.parts ≡ D.parts }
        requires some { 0 < tap.old.parts }
        ensures rows { IfOk result (λ r. r.0 ≡ take (length r.0) (drop tap.old.amount (rows_of (listed_in N.all N.span)))) }
        ensures counted { IfOk result (λ r. tap.new.amount ≡ tap.old.amount + length r.0) }
        ensures observed { IfOk result (λ r. ObservesDrain N.all N.span N.cuts N.opening N.workers seat.old.calls.amount seat.new.calls.amount tap.new.amount r.0 r.1) }
        ensures last { IfOk result (λ r. r.1 ≡ true → tap.new.amount ≡ length (rows_of (listed_in N.all N.span))) }
        ensures uncounted { OnErr result (tap.new.amount ≡ tap.old.amount) }
        ensures parts { tap.new.parts ≡ tap.old.parts }
        ensures number { seat.new.number ≡ seat.old.number }
    {
        let drained = self.table.lock(rt).desk.drain(seat, tap);
        self.tell();
        drained
    }

    /// The caller begins a round: its seat works, and it drains, while the others work.
    pub fn lead<W: Wait>(&self, rt: &W) {
        self.over.store(0, Ordering::SeqCst);
        self.table.lock(rt).pace.lead();
    }

    /// The caller ends the round: the others leave it.
    pub fn end_round<W: Wait>(&self, rt: &W) {
        self.over.store(1, Ordering::SeqCst);
        self.leave(rt);
    }

    /// Whether no round is led. A seat gives its lease up then.
    pub fn is_over(&self) -> bool {
        self.over.load(Ordering::SeqCst) != 0
    }

    // Whether not every seat may begin a segment yet.
    fn is_beginning(&self) -> bool {
        self.beginning.load(Ordering::SeqCst) != 0
    }

    /// The most entries that a worker scans now before it reports.
    pub fn batch(&self) -> u32
        ensures { (0 < result) × (result ≤ 256) }
    {
        if self.is_beginning() { FIRST } else { BATCH }
    }

    /// A seat begins the round.
    pub fn enter<W: Wait>(&self, rt: &W) {
        self.table.lock(rt).pace.enter();
    }

    /// A seat leaves the round.
    pub fn leave<W: Wait>(&self, rt: &W) {
        self.table.lock(rt).pace.leave();
        self.tell();
    }

    // Those that wait look again.
    fn tell(&self) {
        self.changes.fetch_add(1, Ordering::SeqCst);
        self.freed.notify_all();
    }

    /// How often there was news.
    pub fn changes(&self) -> u64 {
        self.changes.load(Ordering::SeqCst)
    }

    // Whether there was no news for a while: who sleeps is woken late, so a seat that waits looks first.
    fn is_quiet(&self, seen: u64) -> bool {
        for _ in 0..PEEKS {
            if self.changes() != seen {
                return false;
            }
            thread::yield_now();
        }
        true
    }

    // The table, let go until there may be news: a seat looks a while, and where it did so before in vain it sleeps.
    fn pause<'t, W: Wait>(
        &'t self,
        rt: &W,
        table: MutexGuard<'t, Table<R, N, D>>,
        quiet: &mut bool,
    ) -> MutexGuard<'t, Table<R, N, D>> {
        if *quiet {
            *quiet = false;
            return self.freed.wait(rt, table);
        }
        let seen = self.changes();
        drop(table);
        *quiet = self.is_quiet(seen);
        self.table.lock(rt)
    }

    /// A lease for the seat; or none where nothing is left, or the round is over. It waits while others work and leave nothing
    /// over, or the window is full.
    pub fn take<W: Wait>(&self, rt: &W, seat: &mut Seat<N>) -> Result<Option<Lease>, NoMemory>
        ensures lease { IfOk result (λ taken. IfSome taken (IsLeaseOf (IsShortRun N.all N.span N.cuts) seat.new.number)) }
        ensures observed { IfOk result (ObservesLease N.all N.span N.cuts N.opening N.workers N.limit seat.old.number seat.old.calls.amount seat.new.calls.amount) }
        ensures number { seat.new.number ≡ seat.old.number }
    {
        let mut quiet = false;
        let mut table = self.table.lock(rt);
        for _ in rt.forever() {
            if self.is_over() {
                return Ok(None);
            }
            match table.take(seat) {
                Err(refused) => return Err(refused),
                Ok(Some(Taken::Lease(lease))) => return Ok(Some(lease)),
                Ok(Some(Taken::Finished)) => return Ok(None),
                Ok(Some(Taken::Later)) => {}
                Ok(None) => quiet = quiet || self.is_beginning(),
            }
            table.pace.begin_wait();
            table = self.pause(rt, table, &mut quiet);
            table.pace.end_wait();
        }
        unreachable!()
    }

    /// A lease for the seat, if one can be taken now.
    pub fn take_now<W: Wait>(&self, rt: &W, seat: &mut Seat<N>) -> Result<Option<Lease>, NoMemory>
        ensures lease { IfOk result (λ taken. IfSome taken (IsLeaseOf (IsShortRun N.all N.span N.cuts) seat.new.number)) }
        ensures observed { IfOk result (ObservesLease N.all N.span N.cuts N.opening N.workers N.limit seat.old.number seat.old.calls.amount seat.new.calls.amount) }
        ensures number { seat.new.number ≡ seat.old.number }
    {
        let taken = self.table.lock(rt).take(seat);
        match taken {
            Err(refused) => Err(refused),
            Ok(Some(Taken::Lease(lease))) => Ok(Some(lease)),
            Ok(Some(Taken::Finished)) => Ok(None),
            Ok(Some(Taken::Later)) => Ok(None),
            Ok(None) => Ok(None),
        }
    }

    /// Whether a part of so many rows of this segment has room at the board, and leaves some to the foremost segment.
    pub fn has_room<W: Wait>(&self, rt: &W, segment: u64, rows: u64) -> bool {
        self.table.lock(rt).desk.has_room(segment, rows)
    }

    /// Waits until a part has room, or the round is over. Whether it has room, also where the round is over: in the next one
    /// there may be no thread for the seat. It wakes the caller, which should drain.
    pub fn await_room<W: Wait>(&self, rt: &W, segment: u64, rows: u64) -> bool {
        let mut quiet = false;
        let mut table = self.table.lock(rt);
        if !table.desk.has_room(segment, rows) {
            self.tell();
        }
        for _ in rt.forever() {
            if table.desk.has_room(segment, rows) {
                return true;
            }
            if self.is_over() {
                return false;
            }
            table.pace.begin_hold();
            table = self.pause(rt, table, &mut quiet);
            table.pace.end_hold();
        }
        unreachable!()
    }

    /// Whether the caller should drain now: there are rows, or nothing is left; and it is late, a seat waits for room, or there
    /// are many.
    pub fn is_due<W: Wait>(&self, rt: &W, is_late: bool) -> bool {
        self.table.lock(rt).is_due(is_late)
    }

    /// The caller, which finds nothing to do, waits a while for news after what it saw. Not where nothing is left, or where it was
    /// alone, or no seat worked for some such whiles: then it should end the round.
    pub fn watch<W: Wait>(&self, rt: &W, seen: u64) -> bool {
        if !self.table.lock(rt).begin_watch() {
            return false;
        }
        if self.is_quiet(seen) {
            let heard = self.freed.notifications();
            if self.changes() == seen {
                self.freed.sleep(rt, heard, Duration::from_micros(WATCH));
            }
        }
        self.table.lock(rt).pace.end_wait();
        true
    }

    /// A part of the run's entries, reported, and counted as handed in unless it has no room. Those that wait look again where
    /// there is news for them.
    pub fn report<E: Ledger, W: Wait>(
        &self,
        rt: &W,
        lease: Lease,
        part: Part<R>,
        seat: &mut Seat<N>,
        handed: &mut Handed<E>,
    ) -> Result<Reported<R>, Refused<R>>
        requires lease { lease.seat ≡ seat.old.number }
        requires honest { IsPart N.all lease.mark part }
        requires few { length part.rows ≤ 256 }
        requires short { IsShortRun N.all N.span N.cuts → IsShortBound part.reach }
        ensures lease { IfOk result (Reports (IsShortRun N.all N.span N.cuts) seat.old.number lease part) }
        ensures observed { IfOk result (ObservesReport N.all N.span N.cuts N.opening N.workers N.limit seat.old.calls.amount seat.new.calls.amount lease part) }
        ensures back { IfErr result (λ refused. (refused.lease ≡ lease) × (refused.part ≡ part)) }
        ensures handed { handed.new ≡ handed.old + accounted (cost lease part) result }
        ensures number { seat.new.number ≡ seat.old.number }
    {
        let tried = part.tried;
        let sought = lease.mark.numbers().len() as u64;
        let mut table = self.table.lock(rt);
        let reported = table.report(lease, part, seat);
        handed.account(tried, sought, &reported);
        if self.is_beginning() && table.pace.beginning.is_over() {
            self.beginning.store(0, Ordering::SeqCst);
        }
        if table.pace.take_news() {
            self.tell();
        }
        reported
    }

    /// A lease given back.
    pub fn give_up<W: Wait>(&self, rt: &W, lease: &Lease, seat: &mut Seat<N>)
        requires lease { lease.now.seat ≡ seat.old.number }
        ensures number { seat.new.number ≡ seat.old.number }
    {
        let _ = self
            .table
            .lock(rt)
            .desk
            .give_up(seat.number, lease, &mut seat.calls);
        self.tell();
    }

    /// The board again, once all seats are back. Its log is longer than at the start by as many events as the seats' calls,
    /// and as many rows were drained as the share counts.
    pub fn shut(self, seats: Vec<Seat<N>>, tap: &mut Share<D>) -> Board<R>
        requires all { length seats.items ≡ N.parts }
        requires some { 0 < N.parts }
        requires whole { tap.old.parts ≡ D.parts }
        ensures drained { drained result.log ≡ tap.old.amount }
        ensures run { IsRun N.all N.span N.cuts N.opening N.workers result (calls_of seats.items) }
        ensures limit { begins_within N.limit 0 result.log ≡ true }
        ensures window { result.window ≡ N.window }
        ensures kept { KeepsWindow N.window (opening N.span N.cuts) result.log }
    {
        let Shared {
            table,
            freed: _,
            changes: _,
            over: _,
            beginning: _,
        } = self;
        let Table { desk, pace: _ } = table.into_inner();
        desk.shut(seats, tap)
    }
}
