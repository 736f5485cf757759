// Spans shared within a window, held against the keys.
ghost use Rattle.std.specs.Prelude.{◌≡◌, ◌<◌, [], Some, None};
ghost use Rattle.kr_core.specs.Openings.{AreInside};

use crate::tests::gates::{Unruly, gathering_of};
use crate::tests::keys::{Handed, counted, wanted};
use crate::tests::listing::{Taken, take_all};
use crate::tests::spans::below_one;
use crate::tests::surveys::{Watched, keys, looked_at};
use kr_base::{Cut, NoMemory, Span};
use kr_core::cuts_for;
use kr_pool::{Gate, Lead, Leading, OpenGate, Rounds, Run, Shared, Stint, work_all};
use kr_survey::{End, Survey};
use std::alloc::Global;
use std::marker::Brand;
use std::process::Abort;
use std::sync::Wait;
use std::sync::atomic::Ordering;
use std::sync::ledger::{Blank, Ledger};
use std::test::Fail;
use std::thread::Threads;
use std::time::Clock;

fn make_handed<S: Survey<Row = Cut> + Sync, G: Gate + Sync, W: Threads + Wait + Sync + Abort>(
    rt: &W,
    alloc: Global,
    survey: &S,
    workers: u32,
    window: u64,
    gate: &G,
) -> Result<Handed, NoMemory> {
    let Taken { end, rows, log: _ } = take_all(rt, alloc, survey, workers, Some(window), gate)?;
    let next = counted(&rows);
    match end {
        End::Full => Ok(Handed {
            next: None,
            tried: 0,
            spent: false,
        }),
        End::Whole { tried, spent } => Ok(Handed {
            next,
            tried,
            spent: spent.is_some(),
        }),
    }
}

// Whether so many workers hand out so many keys within a window, of which one is spent, with an unruly gate; and where
// none is spent, no key was scanned twice.
fn listed<W: Threads + Wait + Sync + Abort + Clock>(
    rt: &W,
    alloc: Global,
    workers: u32,
    window: u64,
    count: u32,
    spent: u32,
    seed: u64,
) -> Result<bool, NoMemory> {
    let survey = looked_at(keys(rt, alloc, count, spent)?, 0, 0);
    let gate = Unruly { seed, clock: rt };
    let handed = make_handed(rt, alloc, &survey, workers, window, &gate)?;
    let once = spent <= count || survey.scanned.load(Ordering::SeqCst) == u64::from(count);
    Ok(once && handed == wanted(count, spent))
}

// Twelve kinds of runs for each seed.
fn all_handed<W: Threads + Wait + Sync + Abort + Clock>(
    rt: &W,
    alloc: Global,
    from: u64,
) -> Result<(), NoMemory> {
    let rows: [(u32, u64, u32, u32); 12] = [
        (1, 1, 600, 2000),
        (2, 1, 600, 2000),
        (8, 1, 600, 2000),
        (1, 4096, 600, 2000),
        (4, 4096, 600, 2000),
        (8, 100, 600, 2000),
        (3, 1, 600, 412),
        (8, 1, 600, 600),
        (4, 1, 600, 2),
        (8, 1, 1, 9),
        (2, 1, 0, 9),
        (12, 7, 900, 2000),
    ];
    for seed in from..from.saturating_add(21) {
        for (workers, window, count, spent) in rows {
            let listed = listed(rt, alloc, workers, window, count, spent, seed)?;
            assert!(rt; listed, "{workers} {window} {count} {spent} {seed}");
        }
    }
    Ok(())
}

#[test]
fn unruly_rounds(rt: HostRuntime) -> Result<(), Fail> {
    Ok(all_handed(&rt, rt.alloc(), 0)?)
}

#[test]
fn unruly_rounds_from_21(rt: HostRuntime) -> Result<(), Fail> {
    Ok(all_handed(&rt, rt.alloc(), 21)?)
}

#[test]
fn unruly_rounds_from_42(rt: HostRuntime) -> Result<(), Fail> {
    Ok(all_handed(&rt, rt.alloc(), 42)?)
}

#[test]
fn unruly_rounds_from_63(rt: HostRuntime) -> Result<(), Fail> {
    Ok(all_handed(&rt, rt.alloc(), 63)?)
}

// Whether all of so few workers have a segment at once, where each has one to begin with and there is a window.
fn gathered<W: Threads + Wait + Sync + Abort>(
    rt: &W,
    alloc: Global,
    workers: u32,
    window: u64,
) -> Result<bool, NoMemory> {
    let survey = keys(rt, alloc, 600, 2000)?;
    let gate = gathering_of(u64::from(workers));
    let handed = make_handed(rt, alloc, &survey, workers, window, &gate)?;
    Ok(handed == wanted(600, 2000) && gate.missed.load(Ordering::SeqCst) == 0)
}

#[test]
fn nobody_waits_in_a_round(rt: HostRuntime) -> Result<(), Fail> {
    for workers in [2, 4] {
        assert!(rt; gathered(&rt, rt.alloc(), workers, 1)?, "{workers}, 1");
        assert!(rt;
            gathered(&rt, rt.alloc(), workers, 4096)?,
            "{workers}, 4096"
        );
    }
    Ok(())
}

// Four keys by so many workers, where so many scans are refused memory: whether those were handed out.
fn four<W: Threads + Wait + Sync + Abort>(
    rt: &W,
    alloc: Global,
    workers: u32,
    window: u64,
    refused: u64,
) -> Result<Result<bool, NoMemory>, NoMemory> {
    let survey = looked_at(keys(rt, alloc, 4, 9)?, refused, 0);
    match make_handed(rt, alloc, &survey, workers, window, &OpenGate) {
        Ok(handed) => Ok(Ok(handed == wanted(4, 9))),
        Err(why) => Ok(Err(why)),
    }
}

#[test]
fn refused_in_rounds(rt: HostRuntime) -> Result<(), Fail> {
    for window in [1, 4096] {
        for refused in [0, 1, 2, 3] {
            match four(&rt, rt.alloc(), 2, window, refused)? {
                Ok(handed) => assert!(rt; handed && refused < 3, "{window} {refused}"),
                Err(_) => assert!(rt; refused == 3, "{window} {refused}"),
            }
        }
    }
    Ok(())
}

// The caller's seat works until it finds nothing to do.
fn work_on<N: Run<Cut>, D: Ledger, L: Ledger, E: Ledger, S: Survey<Row = Cut>, W: Wait>(
    rt: &W,
    survey: &S,
    shared: &Shared<Cut, N, D>,
    lead: &mut Lead<Cut, N, D>,
    stint: &mut Stint<Cut, N, L, E>,
)
    requires survey { S.all survey.now ≡ N.all }
    ensures { lead.new.2 ≡ lead.old.2 }
{
    let mut scratch = lead.scratch(survey);
    let mut leading = Leading::start();
    for _ in rt.forever() {
        if !lead.step(
            rt,
            shared,
            survey,
            &mut scratch,
            &mut leading,
            stint,
            &OpenGate,
        ) {
            break;
        }
    }
}

fn work_counted<N: Run<Cut>, D: Ledger, L: Ledger, E: Ledger, S: Survey<Row = Cut>, W: Wait>(
    rt: &W,
    survey: &S,
    shared: &Shared<Cut, N, D>,
    lead: &mut Lead<Cut, N, D>,
    runs: Blank,
    handed: Blank,
)
    requires runs { (runs.name ≡ L.name) × (runs.parts ≡ L.parts) × (0 < L.parts) }
    requires handed { (handed.name ≡ E.name) × (handed.parts ≡ E.parts) × (0 < E.parts) }
    requires survey { S.all survey.now ≡ N.all }
{
    let mut stint = lead.begin::<L, E>(runs, handed);
    work_on(rt, survey, shared, lead, &mut stint);
    lead.end(stint);
}

// One round in which the others' seats work, and then the caller's, and then a drain: whether it gives the four keys, and says that
// these are the last.
fn round_in_turns<
    N: Run<Cut> + Send + Sync,
    D: Ledger + Send + Sync,
    S: Survey<Row = Cut> + Sync,
    W: Threads + Wait + Sync,
>(rt: &W, survey: &S, rounds: &mut Rounds<Cut, N, D>) -> Result<bool, NoMemory>
    requires survey { S.all survey.now ≡ N.all }
{
    let Rounds {
        shared,
        lead,
        others,
    } = rounds;
    shared.lead(rt);
    work_all(rt, shared, survey, others.as_mut_slice(), &OpenGate);
    work_counted::<N, D, Brand, Brand, S, W>(
        rt,
        survey,
        shared,
        lead,
        Blank::new(1),
        Blank::new(1),
    );
    let drained = lead.drain(rt, shared);
    shared.end_round(rt);
    match drained {
        Err(why) => Err(why),
        Ok((rows, last)) => Ok(last && counted(&rows) == Some(6)),
    }
}

fn start_in_turns<
    N: Run<Cut> + Send + Sync,
    D: Ledger + Send + Sync,
    S: Survey<Row = Cut> + Sync,
    W: Threads + Wait + Sync,
>(
    rt: &W,
    alloc: Global,
    survey: &S,
    span: Span,
    cuts: &[Cut],
    workers: u32,
    calls: Blank,
    tap: Blank,
) -> Result<bool, NoMemory>
    requires ledger { (calls.name ≡ N.name) × (calls.parts ≡ N.parts) }
    requires tap { (tap.name ≡ D.name) × (tap.parts ≡ D.parts) × (tap.parts ≡ 1) }
    requires workers { (N.parts ≡ workers) × (N.workers ≡ workers) }
    requires some { 0 < workers }
    requires window { N.window ≡ Some 4096 }
    requires limit { N.limit ≡ None }
    requires survey { S.all survey.now ≡ N.all }
    requires span { span ≡ N.span }
    requires cuts { cuts.now ≡ N.cuts }
    requires inside { AreInside cuts.now span }
    requires opening { N.opening ≡ [] }
{
    let (mut rounds, _) = Rounds::<Cut, N, D>::start(
        alloc,
        survey,
        span,
        cuts,
        workers,
        Some(4096),
        None,
        calls,
        tap,
    )?;
    round_in_turns(rt, survey, &mut rounds)
}

// Whether so many seats, one after another, hand out four keys in a round, where so many scans are refused memory.
fn in_turns<W: Threads + Wait + Sync + Abort>(
    rt: &W,
    alloc: Global,
    workers: u32,
    refused: u64,
) -> Result<bool, NoMemory> {
    assert!(rt; 0 < workers && workers <= 64);
    let survey = looked_at(keys(rt, alloc, 4, 9)?, refused, 0);
    let span = below_one(alloc)?;
    let cuts = cuts_for(alloc, &span, workers)?;
    start_in_turns::<Brand, Brand, Watched, W>(
        rt,
        alloc,
        &survey,
        span,
        cuts.as_slice(),
        workers,
        Blank::new(u64::from(workers)),
        Blank::new(1),
    )
}

#[test]
fn one_round(rt: HostRuntime) -> Result<(), Fail> {
    assert!(rt; in_turns(&rt, rt.alloc(), 1, 0)?, "four rows in a round");
    Ok(())
}

#[test]
fn a_lease_is_given_back(rt: HostRuntime) -> Result<(), Fail> {
    assert!(rt; in_turns(&rt, rt.alloc(), 2, 1)?, "the caller scans all");
    Ok(())
}
