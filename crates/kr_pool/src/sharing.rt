// Rounds in which all seats work, and the caller hands over what comes next between two parts of its own.
ghost use Rattle.std.specs.Prelude.{◌≡◌, ◌<◌, ◌||◌, ◌&&◌, is_some, length, true};
ghost use Rattle.std.specs.List.{list_all, list_any};
ghost use Rattle.kr_pool.specs.Vocabulary.{Full, listed_in, More};
ghost use Rattle.kr_pool.specs.Handing.{ComesTo};

use crate::came::Came;
use crate::handing::{hand_over, is_nothing};
use crate::rounds::Rounds;
use kr_io::Gate;
use kr_pool_desk::{Run, Shared};
use kr_pool_workers::{Hand, Lead, Leading, Round, Stint, work_all};
use kr_survey::{Halt, Room, Survey, Taker};
use std::marker::Brand;
use std::sync::Wait;
use std::sync::ledger::{Blank, Ledger};
use std::thread::{Threads, join_mut};

/// Whether this round was the last one: nothing is left to do, or the taker is full, or all workers gave up, or some did, and
/// no row came.
fn is_last<R: Drop + Send, N: Run<R> + Send + Sync, D: Ledger + Send + Sync>(
    rounds: &Rounds<R, N, D>,
    came: Came,
) -> bool
    ensures more { came.room ≡ More → result ≡ (came.all || ((rounds.now.lead.1 && list_all (λ h. is_some h.refused) rounds.now.others.items)
        || (came.nothing && (rounds.now.lead.1 || list_any (λ h. is_some h.refused) rounds.now.others.items)))) }
    ensures full { came.room ≡ Full → result ≡ true }
{
    match came.room {
        Room::Full => true,
        Room::More => { came.all || rounds.all_marked() || (came.nothing && rounds.any_marked()) }
    }
}

/// The next rows are handed over.
fn hand_next<R: Drop, N: Run<R>, D: Ledger, T: Taker<K, Row = R>, W: Wait, K>(
    rt: &W,
    shared: &Shared<R, N, D>,
    lead: &mut Lead<R, N, D>,
    taker: &mut T,
    out: &mut K,
) -> Result<Came, Halt>
    ensures comes { ComesTo T.takes (listed_in N.all N.span) lead.old.0 lead.new.0 taker.old out.old taker.new out.new result }
    ensures kept { lead.new.2 ≡ lead.old.2 }
{
    match lead.drain(rt, shared) {
        Err(why) => Err(Halt::Memory(why)),
        Ok((rows, all)) => {
            let nothing = is_nothing(&rows);
            match hand_over(rows, taker, out) {
                Err(halt) => Err(halt),
                Ok(room) => Ok(Came { all, nothing, room }),
            }
        }
    }
}

/// The caller's seat works and the next rows are handed over, in turns, until nothing is left, the taker is full, or nobody
/// works.
fn hand_on<
    R: Drop,
    N: Run<R>,
    D: Ledger,
    L: Ledger,
    E: Ledger,
    S: Survey<Row = R>,
    T: Taker<K, Row = R>,
    G: Gate,
    W: Wait,
    K,
>(
    rt: &W,
    shared: &Shared<R, N, D>,
    lead: &mut Lead<R, N, D>,
    stint: &mut Stint<R, N, L, E>,
    survey: &S,
    gate: &G,
    taker: &mut T,
    out: &mut K,
) -> Result<Came, Halt>
    requires survey { S.all survey.now ≡ N.all }
    ensures comes { ComesTo T.takes (listed_in N.all N.span) lead.old.0 lead.new.0 taker.old out.old taker.new out.new result }
    ensures kept { lead.new.2 ≡ lead.old.2 }
{
    let mut scratch = lead.scratch(survey);
    let mut leading = Leading::start();
    let mut nothing = true;
    for _ in rt.forever() {
        let has_worked = lead.step(rt, shared, survey, &mut scratch, &mut leading, stint, gate);
        if leading.is_due(rt, shared, has_worked) {
            match hand_next(rt, shared, lead, taker, out) {
                Err(halt) => return Err(halt),
                Ok(came) => {
                    nothing = nothing && came.nothing;
                    if came.all || came.room == Room::Full {
                        return Ok(Came {
                            all: came.all,
                            nothing,
                            room: came.room,
                        });
                    }
                }
            }
        } else if !has_worked && !leading.watch(rt, shared) {
            return Ok(Came {
                all: false,
                nothing,
                room: Room::More,
            });
        }
    }
    unreachable!()
}

/// The same, in a stint of the caller's worker whose runs are counted.
fn hand_counted<
    R: Drop,
    N: Run<R>,
    D: Ledger,
    L: Ledger,
    E: Ledger,
    S: Survey<Row = R>,
    T: Taker<K, Row = R>,
    G: Gate,
    W: Wait,
    K,
>(
    rt: &W,
    shared: &Shared<R, N, D>,
    lead: &mut Lead<R, N, D>,
    survey: &S,
    gate: &G,
    taker: &mut T,
    out: &mut K,
    runs: Blank,
    handed: Blank,
) -> Result<Came, Halt>
    requires runs { (runs.name ≡ L.name) × (runs.parts ≡ L.parts) × (0 < L.parts) }
    requires handed { (handed.name ≡ E.name) × (handed.parts ≡ E.parts) × (0 < E.parts) }
    requires survey { S.all survey.now ≡ N.all }
    ensures { ComesTo T.takes (listed_in N.all N.span) lead.old.0 lead.new.0 taker.old out.old taker.new out.new result }
{
    let mut stint = lead.begin::<L, E>(runs, handed);
    let came = hand_on(rt, shared, lead, &mut stint, survey, gate, taker, out);
    lead.end(stint);
    came
}

/// The caller's part of a round, which it ends.
fn lead_round<
    R: Drop,
    N: Run<R>,
    D: Ledger,
    S: Survey<Row = R>,
    T: Taker<K, Row = R>,
    G: Gate,
    W: Wait,
    K,
>(
    rt: &W,
    shared: &Shared<R, N, D>,
    lead: &mut Lead<R, N, D>,
    survey: &S,
    gate: &G,
    taker: &mut T,
    out: &mut K,
) -> Result<Came, Halt>
    requires survey { S.all survey.now ≡ N.all }
    ensures { ComesTo T.takes (listed_in N.all N.span) lead.old.0 lead.new.0 taker.old out.old taker.new out.new result }
{
    let came = hand_counted::<R, N, D, Brand, Brand, S, T, G, W, K>(
        rt,
        shared,
        lead,
        survey,
        gate,
        taker,
        out,
        Blank::new(1),
        Blank::new(1),
    );
    shared.end_round(rt);
    came
}

/// All seats work, the caller's in this thread.
fn join_round<
    R: Drop + Send,
    N: Run<R> + Send + Sync,
    D: Ledger + Send + Sync,
    S: Survey<Row = R> + Sync,
    T: Taker<K, Row = R>,
    G: Gate + Sync,
    W: Threads + Wait + Sync,
    K,
>(
    round: &Round<'_, R, N, D, S, G, W>,
    lead: &mut Lead<R, N, D>,
    others: &mut [Hand<R, N>],
    taker: &mut T,
    out: &mut K,
) -> Result<Came, Halt>
    requires survey { S.all round.now.survey.now ≡ N.all }
    ensures comes { ComesTo T.takes (listed_in N.all N.span) lead.old.0 lead.new.0 taker.old out.old taker.new out.new result }
    ensures count { length others.new ≡ length others.old }
{
    let (_, came) = join_mut(
        round.rt,
        &mut ||
            requires { S.all round.now.survey.now ≡ N.all }
        { work_all(round.rt, round.shared, round.survey, others, round.gate) },
        &mut || -> Result<Came, Halt>
            requires { S.all round.now.survey.now ≡ N.all }
            ensures { ComesTo T.takes (listed_in N.all N.span) lead.entry.now.0 lead.exit.now.0 taker.entry.now out.entry.now taker.exit.now out.exit.now result }
        {
            lead_round(
                round.rt,
                round.shared,
                lead,
                round.survey,
                round.gate,
                taker,
                out,
            )
        },
    );
    came
}

/// One round.
fn go_round<
    R: Drop + Send,
    N: Run<R> + Send + Sync,
    D: Ledger + Send + Sync,
    S: Survey<Row = R> + Sync,
    T: Taker<K, Row = R>,
    G: Gate + Sync,
    W: Threads + Wait + Sync,
    K,
>(
    round: &Round<'_, R, N, D, S, G, W>,
    lead: &mut Lead<R, N, D>,
    others: &mut [Hand<R, N>],
    taker: &mut T,
    out: &mut K,
) -> Result<Came, Halt>
    requires survey { S.all round.now.survey.now ≡ N.all }
    ensures comes { ComesTo T.takes (listed_in N.all N.span) lead.old.0 lead.new.0 taker.old out.old taker.new out.new result }
    ensures count { length others.new ≡ length others.old }
{
    round.shared.lead(round.rt);
    if others.is_empty() {
        lead_round(
            round.rt,
            round.shared,
            lead,
            round.survey,
            round.gate,
            taker,
            out,
        )
    } else {
        join_round(round, lead, others, taker, out)
    }
}

/// Rounds, until nothing is left, the taker is full, or the workers don't get on.
pub(crate) fn go_rounds<
    R: Drop + Send,
    N: Run<R> + Send + Sync,
    D: Ledger + Send + Sync,
    S: Survey<Row = R> + Sync,
    T: Taker<K, Row = R>,
    G: Gate + Sync,
    W: Threads + Wait + Sync,
    K,
>(
    rt: &W,
    rounds: &mut Rounds<R, N, D>,
    survey: &S,
    gate: &G,
    taker: &mut T,
    out: &mut K,
) -> Result<Came, Halt>
    requires survey { S.all survey.now ≡ N.all }
    ensures comes { ComesTo T.takes (listed_in N.all N.span) rounds.old.lead.0 rounds.new.lead.0 taker.old out.old taker.new out.new result }
    ensures count { length rounds.new.others.items ≡ length rounds.old.others.items }
{
    for _ in rt.forever() {
        let Rounds {
            shared,
            lead,
            others,
        } = rounds;
        let round = Round {
            rt,
            shared,
            survey,
            gate,
        };
        match go_round(&round, lead, others.as_mut_slice(), taker, out) {
            Err(halt) => return Err(halt),
            Ok(came) => {
                if is_last(rounds, came) {
                    return Ok(came);
                }
            }
        }
    }
    unreachable!()
}
