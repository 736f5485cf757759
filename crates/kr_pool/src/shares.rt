// A span shared by many workers.
ghost use Rattle.std.specs.Prelude.{◌≡◌, ◌+◌, ◌<◌, ◌≤◌, [], Some, None, true, List, ℕ, IfOk, IfSome, length, vec_capacity, take};
ghost use Rattle.kr_pool.specs.Vocabulary.{are_shared, AreInside, cuts_of, drained, EntryOf, KeepsWindow, listed_in, ListsFrom, More, opening};
ghost use Rattle.kr_pool.specs.Handing.{ReachesTo};
ghost use Rattle.kr_pool.specs.Sharing.{EndsFull, IsLog, IsLogOf, Shares, SharesLogged, SharesRest, with_log};

use crate::alone::Alone;
use crate::handing::{hand_listing, hand_over};
use crate::log::Log;
use crate::rounds::Rounds;
use crate::sharing::go_rounds;
use kr_base::{Cut, Span};
use kr_board::{Event, Logged};
use kr_core::cuts_for;
use kr_io::Gate;
use kr_pool_desk::{Run, Seat};
use kr_survey::{End, Halt, Room, Survey, Taker};
use std::alloc::Global;
use std::marker::Brand;
use std::sync::Wait;
use std::sync::ledger::{Blank, Ledger};
use std::thread::Threads;

/// Ends a board whose taker is full: it is stopped, where something is left.
fn end_full<R: Drop, N: Run<R>>(alone: Alone<R, N>) -> Result<(End, Vec<Event>), Halt>
    ensures full { EndsFull result }
    ensures drained { IfOk result (λ r. drained r.1.items ≡ drained alone.log) }
    ensures log { IfOk result (λ r. IsLog N.all (opening N.span N.cuts) N.workers N.limit r.0 r.1.items) }
    ensures window { IfOk result (λ r. KeepsWindow N.window (opening N.span N.cuts) r.1.items) }
{
    match alone.close() {
        Ok(logged) => Ok((End::Full, logged.log)),
        Err(here) => match here.stop() {
            Ok(log) => Ok((End::Full, log)),
            Err(why) => Err(Halt::Memory(why)),
        },
    }
}

/// Hands over what is left of a listing.
fn hand_last<R: Drop, T: Taker<K, Row = R>, K>(
    logged: Logged<R>,
    taker: &mut T,
    out: &mut K,
) -> Result<(End, Vec<Event>), Halt>
    ensures shares { (es : List (EntryOf R)) (d workers : ℕ) → ListsFrom d es logged.listing → are_shared workers logged.log.items ≡ true → SharesRest T.takes es workers d taker.old out.old taker.new out.new result }
    ensures log { IfOk result (λ r. r.1.items ≡ logged.log.items) }
{
    let Logged { listing, log } = logged;
    match hand_listing(listing, taker, out) {
        Err(halt) => Err(halt),
        Ok(end) => Ok((end, log)),
    }
}

/// One entry is scanned, and the next rows are handed over.
fn hand_entry<R: Drop, N: Run<R>, S: Survey<Row = R>, T: Taker<K, Row = R>, K>(
    alone: &mut Alone<R, N>,
    survey: &S,
    scratch: &mut S::Scratch,
    taker: &mut T,
    out: &mut K,
) -> Result<Room, Halt>
    requires survey { S.all survey.now ≡ N.all }
    requires made { S.made survey.now scratch.old }
    ensures reaches { ReachesTo T.takes (listed_in N.all N.span) (drained alone.old.log) (drained alone.new.log) taker.old out.old taker.new out.new result }
    ensures made { S.made survey.now scratch.new }
{
    match alone.next(survey, scratch) {
        Err(why) => Err(Halt::Memory(why)),
        Ok((rows, _)) => hand_over(rows, taker, out),
    }
}

/// Hands over one entry's rows after another, until nothing is left or the taker is full.
fn hand_entries<R: Drop, N: Run<R>, S: Survey<Row = R>, T: Taker<K, Row = R>, W: Wait, K>(
    rt: &W,
    alone: Alone<R, N>,
    survey: &S,
    scratch: &mut S::Scratch,
    taker: &mut T,
    out: &mut K,
) -> Result<(End, Vec<Event>), Halt>
    requires survey { S.all survey.now ≡ N.all }
    requires made { S.made survey.now scratch.old }
    ensures shares { SharesRest T.takes (listed_in N.all N.span) N.workers (drained alone.log) taker.old out.old taker.new out.new result }
    ensures log { IfOk result (λ r. IsLog N.all (opening N.span N.cuts) N.workers N.limit r.0 r.1.items) }
    ensures window { IfOk result (λ r. KeepsWindow N.window (opening N.span N.cuts) r.1.items) }
{
    let mut here = alone;
    for _ in rt.forever() {
        match hand_entry(&mut here, survey, scratch, taker, out) {
            Err(halt) => return Err(halt),
            Ok(Room::Full) => return end_full(here),
            Ok(Room::More) => {}
        }
        match here.close() {
            Ok(logged) => return hand_last(logged, taker, out),
            Err(back) => here = back,
        }
    }
    unreachable!()
}

/// The caller goes on alone with what the workers left, if anything is left.
fn go_on_alone<R: Drop, N: Run<R>, S: Survey<Row = R>, T: Taker<K, Row = R>, W: Wait, K>(
    rt: &W,
    alone: Alone<R, N>,
    survey: &S,
    taker: &mut T,
    out: &mut K,
) -> Result<(End, Vec<Event>), Halt>
    requires survey { S.all survey.now ≡ N.all }
    ensures shares { SharesRest T.takes (listed_in N.all N.span) N.workers (drained alone.log) taker.old out.old taker.new out.new result }
    ensures log { IfOk result (λ r. IsLog N.all (opening N.span N.cuts) N.workers N.limit r.0 r.1.items) }
    ensures window { IfOk result (λ r. KeepsWindow N.window (opening N.span N.cuts) r.1.items) }
{
    let here = match alone.close() {
        Ok(logged) => return hand_last(logged, taker, out),
        Err(here) => here,
    };
    match survey.scratch() {
        Err(why) => Err(Halt::Memory(why)),
        Ok(scratch) => {
            let mut scratch = scratch;
            hand_entries(rt, here, survey, &mut scratch, taker, out)
        }
    }
}

/// Rounds, and what they left.
fn share_begun<
    R: Drop + Send,
    N: Run<R> + Send + Sync,
    D: Ledger + Send + Sync,
    S: Survey<Row = R> + Sync,
    T: Taker<K, Row = R>,
    G: Gate + Sync,
    W: Threads + Wait + Sync,
    K,
>(
    rt: &W,
    rounds: Rounds<R, N, D>,
    place: Vec<Seat<N>>,
    limit: Option<u64>,
    survey: &S,
    taker: &mut T,
    out: &mut K,
    gate: &G,
) -> Result<(End, Vec<Event>), Halt>
    requires none { rounds.lead.0 ≡ 0 }
    requires workers { N.parts ≡ N.workers }
    requires seats { length rounds.others.items + 1 ≡ N.workers }
    requires place { (length place.items ≡ 0) × (N.workers ≤ vec_capacity place) }
    requires limit { N.limit ≡ limit }
    requires survey { S.all survey.now ≡ N.all }
    ensures shares { SharesRest T.takes (listed_in N.all N.span) N.workers 0 taker.old out.old taker.new out.new result }
    ensures log { IfOk result (λ r. IsLog N.all (opening N.span N.cuts) N.workers N.limit r.0 r.1.items) }
    ensures window { IfOk result (λ r. KeepsWindow N.window (opening N.span N.cuts) r.1.items) }
{
    let mut rounds = rounds;
    match go_rounds(rt, &mut rounds, survey, gate, taker, out) {
        Err(halt) => Err(halt),
        Ok(came) => {
            let alone = rounds.into_alone(place, limit);
            match came.room {
                Room::More => go_on_alone(rt, alone, survey, taker, out),
                Room::Full => end_full(alone),
            }
        }
    }
}

/// With these cuts, for a run that a type names.
fn share_on<
    R: Drop + Send,
    N: Run<R> + Send + Sync,
    D: Ledger + Send + Sync,
    S: Survey<Row = R> + Sync,
    T: Taker<K, Row = R>,
    G: Gate + Sync,
    W: Threads + Wait + Sync,
    K,
>(
    rt: &W,
    alloc: Global,
    survey: &S,
    span: Span,
    cuts: &[Cut],
    workers: u32,
    window: Option<u64>,
    limit: Option<u64>,
    taker: &mut T,
    out: &mut K,
    gate: &G,
    calls: Blank,
    tap: Blank,
) -> Result<(End, Vec<Event>), Halt>
    requires ledger { (calls.name ≡ N.name) × (calls.parts ≡ N.parts) }
    requires tap { (tap.name ≡ D.name) × (tap.parts ≡ D.parts) × (tap.parts ≡ 1) }
    requires workers { (N.parts ≡ workers) × (N.workers ≡ workers) }
    requires some { 0 < workers }
    requires window { IfSome window (λ w. (0 < w) × (w ≤ 65536)) × (N.window ≡ window) }
    requires limit { N.limit ≡ limit }
    requires survey { S.all survey.now ≡ N.all }
    requires span { span ≡ N.span }
    requires cuts { cuts.now ≡ N.cuts }
    requires inside { AreInside cuts.now span }
    requires opening { N.opening ≡ [] }
    ensures shares { SharesRest T.takes (listed_in N.all N.span) N.workers 0 taker.old out.old taker.new out.new result }
    ensures log { IfOk result (λ r. IsLog N.all (opening N.span N.cuts) N.workers N.limit r.0 r.1.items) }
    ensures window { IfOk result (λ r. KeepsWindow N.window (opening N.span N.cuts) r.1.items) }
{
    match Rounds::<R, N, D>::start(
        alloc, survey, span, cuts, workers, window, limit, calls, tap,
    ) {
        Err(why) => Err(Halt::Memory(why)),
        Ok((rounds, place)) => { share_begun(rt, rounds, place, limit, survey, taker, out, gate) }
    }
}

/// The limit of a taker.
fn limit_of<R, T: Taker<K, Row = R>, K>(taker: &T) -> Option<u64>
    ensures { result ≡ T.limit taker.now }
{
    match taker.limit() {
        None => None,
        Some(limit) => Some(u64::from(limit)),
    }
}

/// The log gets the run's name.
fn name_log<N>(ended: Result<(End, Vec<Event>), Halt>) -> Result<(End, Log<N>), Halt>
    ensures { result ≡ with_log ended }
{
    match ended {
        Err(halt) => Err(halt),
        Ok((end, log)) => Ok((end, Log::new(log))),
    }
}

/// As `share`, for a run that a type names: the ledger of its calls has the run's name, so that the log is the run's own.
pub fn share_run<
    R: Drop + Send,
    N: Run<R> + Send + Sync,
    D: Ledger + Send + Sync,
    S: Survey<Row = R> + Sync,
    T: Taker<K, Row = R>,
    G: Gate + Sync,
    W: Threads + Wait + Sync,
    K,
>(
    rt: &W,
    alloc: Global,
    survey: &S,
    span: Span,
    workers: u32,
    window: Option<u64>,
    taker: &mut T,
    out: &mut K,
    gate: &G,
    calls: Blank,
    tap: Blank,
) -> Result<(End, Log<N>), Halt>
    requires ledger { (calls.name ≡ N.name) × (calls.parts ≡ N.parts) }
    requires tap { (tap.name ≡ D.name) × (tap.parts ≡ D.parts) × (tap.parts ≡ 1) }
    requires workers { (N.parts ≡ workers) × (N.workers ≡ workers) }
    requires some { (0 < workers) × (workers ≤ 64) }
    requires window { IfSome window (λ w. (0 < w) × (w ≤ 65536)) × (N.window ≡ window) }
    requires limit { N.limit ≡ T.limit taker.old }
    requires survey { S.all survey.now ≡ N.all }
    requires span { span ≡ N.span }
    requires cuts { cuts_of span workers ≡ N.cuts }
    requires opening { N.opening ≡ [] }
    requires fresh { T.takes taker.old out.old [] taker.old out.old (Some More) }
    ensures shares { SharesLogged T.takes (listed_in N.all N.span) N.workers taker.old out.old taker.new out.new result }
    ensures log { IfOk result (λ r. IsLog N.all (opening N.span N.cuts) N.workers N.limit r.0 r.1) }
    ensures window { IfOk result (λ r. KeepsWindow N.window (opening N.span N.cuts) r.1) }
{
    match cuts_for(alloc, &span, workers) {
        Err(why) => Err(Halt::Memory(why)),
        Ok(cuts) => {
            let limit = limit_of::<R, T, K>(&*taker);
            let ended = share_on::<R, N, D, S, T, G, W, K>(
                rt,
                alloc,
                survey,
                span,
                cuts.as_slice(),
                workers,
                window,
                limit,
                taker,
                out,
                gate,
                calls,
                tap,
            );
            name_log(ended)
        }
    }
}

/// Shares a span with so many workers in threads of their own, and hands its rows over in order while they work, a piece at a
/// time. With a window the board keeps at most so many rows and 256 more. Work that is left when workers run out of memory the
/// caller does alone. Once the taker is full nobody begins another segment. Returns how it ended, and the workers' log. It may
/// wait.
pub fn share<
    S: Survey<Row: Drop + Send> + Sync,
    T: Taker<K, Row = S::Row>,
    K,
    G: Gate + Sync,
    W: Threads + Wait + Sync,
>(
    rt: &W,
    alloc: Global,
    survey: &S,
    span: Span,
    workers: u32,
    window: Option<u64>,
    taker: &mut T,
    out: &mut K,
    gate: &G,
) -> Result<(End, Vec<Event>), Halt>
    requires workers { (0 < workers) × (workers ≤ 64) }
    requires window { IfSome window (λ w. (0 < w) × (w ≤ 65536)) }
    requires fresh { T.takes taker.old out.old [] taker.old out.old (Some More) }
    ensures shares { Shares T.takes (listed_in (S.all survey.now) span) taker.old out.old taker.new out.new result }
    ensures log { IfOk result (λ r. IsLogOf (S.all survey.now) span workers (T.limit taker.old) r.0 r.1.items) }
    ensures window { IfOk result (λ r. KeepsWindow window (opening span (cuts_of span workers)) r.1.items) }
{
    match share_run::<S::Row, Brand, Brand, S, T, G, W, K>(
        rt,
        alloc,
        survey,
        span,
        workers,
        window,
        taker,
        out,
        gate,
        Blank::new(u64::from(workers)),
        Blank::new(1),
    ) {
        Err(halt) => Err(halt),
        Ok((end, log)) => Ok((end, log.into_events())),
    }
}
