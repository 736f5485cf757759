// The caller alone at what the workers left.
ghost use Rattle.std.specs.Prelude.{◌≡◌, ◌+◌, ◌<◌, ◌≤◌, true, false, length, take, drop, IfOk, IfErr, OnErr, ℕ, Option};
ghost use Rattle.kr_pool.specs.Vocabulary.{all_closed, are_shared, begins_within, drained, drains, Finishes, is_past, IsLeaseOf, IsPart, IsRun, IsShortBound, IsShortRun, IsStopped, IsWanted, KeepsWindow, listed_in, ListsFrom, opening, rows_kept, rows_of, Takes};

use kr_base::NoMemory;
use kr_board::{Board, Event, Lease, Logged, Taken, part_law};
use kr_pool_desk::{Run, Wanted, last_rows};
use kr_pool_workers::scan_uncounted;
use kr_survey::{Part, Rows, Survey};
use std::marker::{Model, PhantomData};

/// A board that is the caller's own again: it works at it as seat 0. Contracts see the board.
#[derive(Drop)]
pub struct Alone<R, N: Run<R>> {
    board: Board<R>,
    wanted: Wanted,
    run: PhantomData<N>,
}

impl<R, N: Run<R>> Model for Alone<R, N> {
    ghost use Rattle.kr_board.specs.Held.{Held};
    ghost use Rattle.kr_pool.specs.Owning.{IsOwn};

    ghost Value = { Held R };

    ghost view = { λ a. a.board };

    ghost invariant = { λ a. IsOwn N.all N.span N.cuts N.opening N.workers N.window N.limit a.board a.wanted };
}

/// The rows that an event takes out.
fn drains(event: &Event) -> u64
    ensures { result ≡ drains event.now }
{
    match event {
        Event::Drain { rows } => *rows,
        Event::Take { .. } => 0,
        Event::Steal { .. } => 0,
        Event::Report { .. } => 0,
        Event::GiveUp { .. } => 0,
        Event::StopAt { .. } => 0,
        Event::Look { .. } => 0,
    }
}

/// How many rows are wanted after a log.
fn wanted_after(limit: Option<u64>, log: &[Event]) -> Wanted
    ensures { IsWanted limit (drained log.now) result }
{
    let mut wanted = Wanted::new(limit);
    for event in log {
        wanted = wanted.after(drains(event));
    }
    wanted
}

impl<R: Drop, N: Run<R>> Alone<R, N> {
    /// A board of the run, which is nobody else's any more.
    pub fn new(board: Board<R>, limit: Option<u64>) -> Self
        requires run { (calls : ℕ) × IsRun N.all N.span N.cuts N.opening N.workers board calls }
        requires begun { begins_within N.limit 0 board.log ≡ true }
        requires window { board.window ≡ N.window }
        requires kept { KeepsWindow N.window (opening N.span N.cuts) board.log }
        requires limit { limit ≡ N.limit }
        requires workers { 0 < N.workers }
        ensures { result ≡ board }
    {
        let wanted = wanted_after(limit, board.log());
        Alone {
            board,
            wanted,
            run: PhantomData,
        }
    }

    /// Every lease is given back.
    fn release(&mut self)
        ensures drained { drained self.new.log ≡ drained self.old.log }
        ensures kept { rows_kept self.new ≡ rows_kept self.old }
    {
        self.board.counts_few();
        self.board.release_all();
    }

    /// The first free segment is taken.
    fn take(&mut self) -> Result<Taken, NoMemory>
        requires open { is_past N.limit (drained self.old.log) ≡ false }
        ensures lease { IfOk result (Takes (IsShortRun N.all N.span N.cuts) 0) }
        ensures drained { drained self.new.log ≡ drained self.old.log }
        ensures kept { rows_kept self.new ≤ rows_kept self.old }
    {
        let taken = self.board.take(0);
        self.board.counts_few();
        taken
    }

    /// A part is reported.
    fn report(&mut self, lease: Lease, part: Part<R>) -> Result<(), NoMemory>
        requires lease { lease.seat ≡ 0 }
        requires honest { IsPart N.all lease.mark part }
        requires few { length part.rows ≤ 256 }
        requires short { IsShortRun N.all N.span N.cuts → IsShortBound part.reach }
        ensures drained { drained self.new.log ≡ drained self.old.log }
        ensures kept { rows_kept self.new ≤ rows_kept self.old + length part.rows }
    {
        part_law::<R>();
        let reported = self.board.report(lease, part);
        self.board.counts_few();
        match reported {
            Err(refused) => Err(refused.why),
            Ok(_) => Ok(()),
        }
    }

    /// The next rows are taken out, with whether nothing is left to do.
    fn drain(&mut self) -> Result<(Rows<R>, bool), NoMemory>
        ensures rows { IfOk result (λ r. r.0 ≡ take (length r.0) (drop (drained self.old.log) (rows_of (listed_in N.all N.span)))) }
        ensures given { IfOk result (λ r. drained self.new.log ≡ drained self.old.log + length r.0) }
        ensures finished { IfOk result (λ r. r.1 ≡ all_closed self.new.core) }
        ensures last { IfOk result (λ r. r.1 ≡ true → drained self.new.log ≡ length (rows_of (listed_in N.all N.span))) }
        ensures kept { IfOk result (λ r. rows_kept self.new + length r.0 ≤ rows_kept self.old) }
        ensures refused { OnErr result (drained self.new.log ≡ drained self.old.log) }
    {
        match self.board.drain() {
            Err(why) => Err(why),
            Ok(rows) => {
                self.board.counts_few();
                self.wanted = self.wanted.after(last_rows(self.board.log()));
                let finished = self.board.is_finished();
                Ok((rows, finished))
            }
        }
    }

    /// One entry is scanned under a lease, and reported, so that it asks for room for one row.
    fn scan<S: Survey<Row = R>>(
        &mut self,
        survey: &S,
        scratch: &mut S::Scratch,
        lease: Lease,
    ) -> Result<(), NoMemory>
        requires survey { S.all survey.now ≡ N.all }
        requires made { S.made survey.now scratch.old }
        requires lease { IsLeaseOf (IsShortRun N.all N.span N.cuts) 0 lease }
        ensures made { S.made survey.now scratch.new }
        ensures drained { drained self.new.log ≡ drained self.old.log }
        ensures kept { rows_kept self.new ≤ rows_kept self.old + 1 }
    {
        match scan_uncounted(survey, scratch, &lease, 1) {
            Err(why) => Err(why),
            Ok(part) => self.report(lease, part),
        }
    }

    /// Every lease is given back, the first free segment is taken, and one entry of it scanned and reported.
    fn step<S: Survey<Row = R>>(
        &mut self,
        survey: &S,
        scratch: &mut S::Scratch,
    ) -> Result<(), NoMemory>
        requires survey { S.all survey.now ≡ N.all }
        requires made { S.made survey.now scratch.old }
        requires open { is_past N.limit (drained self.old.log) ≡ false }
        ensures made { S.made survey.now scratch.new }
        ensures drained { drained self.new.log ≡ drained self.old.log }
        ensures kept { rows_kept self.new ≤ rows_kept self.old + 1 }
    {
        self.release();
        match self.take() {
            Err(why) => Err(why),
            Ok(Taken::Later) => Ok(()),
            Ok(Taken::Finished) => Ok(()),
            Ok(Taken::Lease(lease)) => self.scan(survey, scratch, lease),
        }
    }

    /// Whether more rows than the limit were drained.
    fn is_past(&self) -> bool
        ensures { result ≡ is_past N.limit (drained self.now.log) }
    {
        let _ = &self.board;
        self.wanted.is_past()
    }

    /// One entry is scanned, unless more rows than the limit were drained, and then the next rows are handed out, with whether
    /// nothing is left to do. It asks for room for one row at a time.
    pub fn next<S: Survey<Row = R>>(
        &mut self,
        survey: &S,
        scratch: &mut S::Scratch,
    ) -> Result<(Rows<R>, bool), NoMemory>
        requires survey { S.all survey.now ≡ N.all }
        requires made { S.made survey.now scratch.old }
        ensures made { S.made survey.now scratch.new }
        ensures rows { IfOk result (λ r. r.0 ≡ take (length r.0) (drop (drained self.old.log) (rows_of (listed_in N.all N.span)))) }
        ensures given { IfOk result (λ r. drained self.new.log ≡ drained self.old.log + length r.0) }
        ensures finished { IfOk result (λ r. r.1 ≡ all_closed self.new.core) }
        ensures last { IfOk result (λ r. r.1 ≡ true → drained self.new.log ≡ length (rows_of (listed_in N.all N.span))) }
        ensures row { IfOk result (λ r. rows_kept self.new + length r.0 ≤ rows_kept self.old + 1) }
        ensures refused { OnErr result (drained self.new.log ≡ drained self.old.log) }
    {
        if self.is_past() {
            return self.drain();
        }
        match self.step(survey, scratch) {
            Err(why) => Err(why),
            Ok(()) => self.drain(),
        }
    }

    /// The rest of the listing, and the log, which has no stop, where nothing is left to do; else the board again. It takes no
    /// memory.
    pub fn close(self) -> Result<Logged<R>, Alone<R, N>>
        ensures listing { IfOk result (λ logged. ListsFrom (drained self.log) (listed_in N.all N.span) logged.listing) }
        ensures log { IfOk result (λ logged. Finishes N.all (opening N.span N.cuts) N.workers logged.log.items) }
        ensures unstopped { IfOk result (λ logged. are_shared N.workers logged.log.items ≡ true) }
        ensures own { IfOk result (λ logged. logged.log.items ≡ self.log) }
        ensures begun { IfOk result (λ logged. begins_within N.limit 0 logged.log.items ≡ true) }
        ensures kept { IfOk result (λ logged. KeepsWindow N.window (opening N.span N.cuts) logged.log.items) }
        ensures back { IfErr result (λ alone. alone ≡ self) }
        ensures unfinished { OnErr result (all_closed self.core ≡ false) }
    {
        let Alone { board, wanted, run } = self;
        match board.close_with_log() {
            Ok(logged) => Ok(logged),
            Err(board) => Err(Alone { board, wanted, run }),
        }
    }

    /// Ends an unfinished board where its first segment is scanned to. Returns the log.
    pub fn stop(self) -> Result<Vec<Event>, NoMemory>
        requires unfinished { all_closed self.core ≡ false }
        ensures log { IfOk result (λ log. Finishes N.all (opening N.span N.cuts) N.workers log.items) }
        ensures own { IfOk result (λ log. IsStopped self log.items) }
        ensures begun { IfOk result (λ log. begins_within N.limit 0 log.items ≡ true) }
        ensures kept { IfOk result (λ log. KeepsWindow N.window (opening N.span N.cuts) log.items) }
    {
        let Alone {
            mut board,
            wanted: _,
            run: _,
        } = self;
        match board.stop() {
            Err(why) => Err(why),
            Ok(_) => {
                board.counts_few();
                match board.close_with_log() {
                    Ok(Logged { listing: _, log }) => Ok(log),
                    Err(_) => unreachable!(),
                }
            }
        }
    }
}
