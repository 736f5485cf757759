// A worker's part of a round that the caller leads.
ghost use Rattle.std.specs.Prelude.{◌≡◌, ◌<◌, length, true, is_some};
ghost use Rattle.kr_pool_desk.specs.Leasing.{IsLeaseOf};
ghost use Rattle.kr_pool_desk.specs.Short.{IsShortRun};
ghost use Rattle.kr_pool_workers.specs.Courses.{IfDone};
ghost use Rattle.kr_pool_workers.specs.Stints.{ObservesScan};

use crate::hand::Hand;
use crate::stint::Stint;
use crate::turns::Turn;
use kr_base::NoMemory;
use kr_board::Lease;
use kr_io::Gate;
use kr_pool_desk::{Run, Seat, Shared};
use kr_survey::Survey;
use std::marker::Brand;
use std::sync::Wait;
use std::sync::ledger::{Blank, Ledger};
use std::thread;
use std::thread::Threads;

// How far a seat came with a lease: the lease's segment is done, and the seat may take another; its part has no room yet; it leaves
// the round; or memory was refused.
#[derive(Drop)]
enum Course {
    Done,
    Held,
    Leave,
    Refused(NoMemory),
}

// Scans and reports until the lease's segment is done, a part has no room, the round is over, or memory is refused. A seat that
// leaves gives the lease up.
fn follow<R: Drop, N: Run<R>, D: Ledger, L: Ledger, E: Ledger, S: Survey<Row = R>, W: Wait>(
    rt: &W,
    shared: &Shared<R, N, D>,
    survey: &S,
    scratch: &mut S::Scratch,
    seat: &mut Seat<N>,
    stint: &mut Stint<R, N, L, E>,
    lease: Lease,
) -> Course
    requires survey { S.all survey.now ≡ N.all }
    requires made { S.made survey.now scratch.old }
    requires lease { IsLeaseOf (IsShortRun N.all N.span N.cuts) seat.old.number lease }
    ensures made { S.made survey.now scratch.new }
    ensures observed { IfDone result ((middle : _) × (first : _) × ObservesScan N.all N.span N.cuts N.opening N.workers N.limit seat.old.number middle seat.new.calls.amount first Turn.Done) }
    ensures held { result ≡ Course.Held → is_some stint.new.kept ≡ true }
    ensures number { seat.new.number ≡ seat.old.number }
{
    let mut lease = lease;
    for _ in rt.forever() {
        if shared.is_over() {
            shared.give_up(rt, &lease, seat);
            return Course::Leave;
        }
        match stint.turn(rt, shared, survey, scratch, seat, lease) {
            Turn::Go(next) => lease = next,
            Turn::Done => return Course::Done,
            Turn::Full => return Course::Held,
            Turn::Refused(why) => return Course::Refused(why),
        }
    }
    unreachable!()
}

// Reports the part that was kept, and goes on under its lease.
fn report_kept<R: Drop, N: Run<R>, D: Ledger, L: Ledger, E: Ledger, S: Survey<Row = R>, W: Wait>(
    rt: &W,
    shared: &Shared<R, N, D>,
    survey: &S,
    scratch: &mut S::Scratch,
    seat: &mut Seat<N>,
    stint: &mut Stint<R, N, L, E>,
) -> Course
    requires survey { S.all survey.now ≡ N.all }
    requires made { S.made survey.now scratch.old }
    ensures made { S.made survey.now scratch.new }
    ensures held { result ≡ Course.Held → is_some stint.new.kept ≡ true }
    ensures number { seat.new.number ≡ seat.old.number }
{
    match stint.hand_in(rt, shared, seat) {
        Turn::Go(next) => follow(rt, shared, survey, scratch, seat, stint, next),
        Turn::Done => Course::Done,
        Turn::Full => Course::Held,
        Turn::Refused(why) => Course::Refused(why),
    }
}

// Takes leases, passes the gate, scans and reports, until nothing is left for it, a part has no room, the round is over, or memory
// is refused.
fn take_on<
    R: Drop,
    N: Run<R>,
    D: Ledger,
    L: Ledger,
    E: Ledger,
    S: Survey<Row = R>,
    G: Gate,
    W: Wait,
>(
    rt: &W,
    shared: &Shared<R, N, D>,
    survey: &S,
    scratch: &mut S::Scratch,
    seat: &mut Seat<N>,
    stint: &mut Stint<R, N, L, E>,
    gate: &G,
) -> Course
    requires survey { S.all survey.now ≡ N.all }
    requires made { S.made survey.now scratch.old }
    ensures made { S.made survey.now scratch.new }
    ensures held { result ≡ Course.Held → is_some stint.new.kept ≡ true }
    ensures number { seat.new.number ≡ seat.old.number }
{
    let mut turn: u64 = 0;
    for _ in rt.forever() {
        match shared.take(rt, seat) {
            Err(why) => return Course::Refused(why),
            Ok(None) => return Course::Leave,
            Ok(Some(lease)) => {
                gate.pass(seat.number, turn);
                turn = turn.saturating_add(1);
                match follow(rt, shared, survey, scratch, seat, stint, lease) {
                    Course::Done => {}
                    other => return other,
                }
            }
        }
    }
    unreachable!()
}

// Reports the part that was kept, and then takes leases.
fn go_on<R: Drop, N: Run<R>, D: Ledger, L: Ledger, E: Ledger, S: Survey<Row = R>, G: Gate, W: Wait>(
    rt: &W,
    shared: &Shared<R, N, D>,
    survey: &S,
    scratch: &mut S::Scratch,
    seat: &mut Seat<N>,
    stint: &mut Stint<R, N, L, E>,
    gate: &G,
) -> Course
    requires survey { S.all survey.now ≡ N.all }
    requires made { S.made survey.now scratch.old }
    ensures made { S.made survey.now scratch.new }
    ensures held { result ≡ Course.Held → is_some stint.new.kept ≡ true }
    ensures number { seat.new.number ≡ seat.old.number }
{
    match report_kept(rt, shared, survey, scratch, seat, stint) {
        Course::Done => take_on(rt, shared, survey, scratch, seat, stint, gate),
        other => other,
    }
}

// Runs `go_on` until the round ends; while a part does not fit the window, waits for space.
fn work_on<
    R: Drop,
    N: Run<R>,
    D: Ledger,
    L: Ledger,
    E: Ledger,
    S: Survey<Row = R>,
    G: Gate,
    W: Wait,
>(
    rt: &W,
    shared: &Shared<R, N, D>,
    survey: &S,
    seat: &mut Seat<N>,
    stint: &mut Stint<R, N, L, E>,
    gate: &G,
) -> Course
    requires survey { S.all survey.now ≡ N.all }
    ensures number { seat.new.number ≡ seat.old.number }
{
    let mut scratch = match survey.scratch() {
        Ok(scratch) => scratch,
        Err(why) => return Course::Refused(why),
    };
    for _ in rt.forever() {
        if !stint.await_room(rt, shared) {
            return Course::Leave;
        }
        match go_on(rt, shared, survey, &mut scratch, seat, stint, gate) {
            Course::Held => {}
            other => return other,
        }
    }
    unreachable!()
}

// A stint of the seat, whose runs are counted.
#[tactic(auto, using(crate::proofs::Marking::own_along))]
fn work_counted<
    R: Drop,
    N: Run<R>,
    D: Ledger,
    L: Ledger,
    E: Ledger,
    S: Survey<Row = R>,
    G: Gate,
    W: Wait,
>(
    rt: &W,
    shared: &Shared<R, N, D>,
    survey: &S,
    hand: &mut Hand<R, N>,
    gate: &G,
    runs: Blank,
    handed: Blank,
) -> Course
    requires runs { (runs.name ≡ L.name) × (runs.parts ≡ L.parts) × (0 < L.parts) }
    requires handed { (handed.name ≡ E.name) × (handed.parts ≡ E.parts) × (0 < E.parts) }
    requires survey { S.all survey.now ≡ N.all }
    ensures number { hand.new.seat.number ≡ hand.old.seat.number }
{
    let mut stint = hand.begin::<L, E>(runs, handed);
    let course = work_on(rt, shared, survey, &mut hand.seat, &mut stint, gate);
    hand.end(stint);
    course
}

/// A worker at its seat, unless it gave up before: it takes leases, passes the gate once after each, scans batches of at most 256
/// entries and reports them. Where a part has no room it keeps it with its lease, and waits. It leaves where nothing is left or the
/// round is over. Where memory is refused it gives its lease up, keeps the refusal and leaves. It may wait.
pub fn work_at<R: Drop, N: Run<R>, D: Ledger, S: Survey<Row = R>, G: Gate, W: Wait>(
    rt: &W,
    shared: &Shared<R, N, D>,
    survey: &S,
    hand: &mut Hand<R, N>,
    gate: &G,
)
    requires survey { S.all survey.now ≡ N.all }
    ensures number { hand.new.seat.number ≡ hand.old.seat.number }
    ensures marked { is_some hand.old.refused ≡ true → hand.new ≡ hand.old }
{
    shared.enter(rt);
    if !hand.gave_up() {
        match work_counted::<R, N, D, Brand, Brand, S, G, W>(
            rt,
            shared,
            survey,
            hand,
            gate,
            Blank::new(1),
            Blank::new(1),
        ) {
            Course::Done => {}
            Course::Held => {}
            Course::Leave => {}
            Course::Refused(why) => hand.refuse(why),
        }
    }
    shared.leave(rt);
}

/// The references that all seats of a round share.
#[derive(Drop)]
pub struct Round<'a, R, N: Run<R>, D: Ledger, S, G, W> {
    pub rt: &'a W,
    pub shared: &'a Shared<R, N, D>,
    pub survey: &'a S,
    pub gate: &'a G,
}

/// All these seats work at once, until each has left the round.
pub fn work_all<
    R: Drop + Send,
    N: Run<R> + Send + Sync,
    D: Ledger + Send + Sync,
    S: Survey<Row = R> + Sync,
    G: Gate + Sync,
    W: Threads + Wait + Sync,
>(rt: &W, shared: &Shared<R, N, D>, survey: &S, hands: &mut [Hand<R, N>], gate: &G)
    requires survey { S.all survey.now ≡ N.all }
    ensures count { length hands.new ≡ length hands.old }
{
    let count = hands.len();
    if count == 0 {
        return;
    }
    thread::for_each_mut(
        rt,
        hands,
        count,
        &|_i: usize, hand: &mut Hand<R, N>|
            requires { S.all survey.now ≡ N.all }
        { work_at(rt, shared, survey, hand, gate) },
    );
}
