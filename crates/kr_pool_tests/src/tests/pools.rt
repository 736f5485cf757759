// Listings by many workers of each pool, held against the keys.
ghost use Rattle.std.specs.Prelude.{◌≡◌, ◌<◌, ◌≤◌};

use crate::tests::gates::{Unruly, gate_for, gathering_of};
use crate::tests::keys::{Handed, handed_by, wanted};
use crate::tests::spans::below_one;
use crate::tests::surveys::{keys, looked_at};
use kr_base::{Cut, NoMemory};
use kr_deque::list_deque;
use kr_pool::{Gate, OpenGate, list_shared};
use kr_survey::Survey;
use std::alloc::Global;
use std::process::Abort;
use std::sync::Wait;
use std::sync::atomic::Ordering;
use std::test::Fail;
use std::thread::Threads;
use std::time::Clock;

/// Workers share a board, or have a deque each.
#[derive(Clone, Copy)]
enum Pool {
    Board,
    Deque,
}

fn list<S: Survey<Row = Cut> + Sync, G: Gate + Sync, W: Threads + Wait + Sync + Abort>(
    rt: &W,
    alloc: Global,
    pool: Pool,
    survey: &S,
    workers: u32,
    gate: &G,
) -> Result<Handed, NoMemory> {
    assert!(rt; 0 < workers && workers <= 64);
    let span = below_one(alloc)?;
    let listing = match pool {
        Pool::Board => list_shared(rt, alloc, survey, span, workers, gate)?,
        Pool::Deque => list_deque(rt, alloc, survey, span, workers, gate)?,
    };
    Ok(handed_by(&listing))
}

// Four keys by two workers, where so many scans are refused memory: whether that is the listing, and no key was scanned twice.
fn four<W: Threads + Wait + Sync + Abort>(
    rt: &W,
    alloc: Global,
    pool: Pool,
    refused: u64,
) -> Result<Result<bool, NoMemory>, NoMemory> {
    let survey = looked_at(keys(rt, alloc, 4, 9)?, refused, 0);
    match list(rt, alloc, pool, &survey, 2, &OpenGate) {
        Ok(handed) => {
            let once = survey.scanned.load(Ordering::SeqCst) == 4;
            Ok(Ok(once && handed == wanted(4, 9)))
        }
        Err(why) => Ok(Err(why)),
    }
}

// A worker that is refused memory leaves; the caller scans what is left, until it is refused itself, which takes so many refusals
// at least.
fn refuse<W: Threads + Wait + Sync + Abort>(
    rt: &W,
    alloc: Global,
    pool: Pool,
    least: u64,
) -> Result<(), NoMemory> {
    for refused in [0, 1, 2, 3] {
        match four(rt, alloc, pool, refused)? {
            Ok(listed) => assert!(rt; listed && refused < 3, "{refused}"),
            Err(_) => assert!(rt; refused >= least, "{refused}"),
        }
    }
    Ok(())
}

#[test]
fn refused_scans(rt: HostRuntime) -> Result<(), Fail> {
    Ok(refuse(&rt, rt.alloc(), Pool::Board, 3)?)
}

#[test]
fn refused_scans_with_deques(rt: HostRuntime) -> Result<(), Fail> {
    Ok(refuse(&rt, rt.alloc(), Pool::Deque, 2)?)
}

// Whether two scans are under way at once.
fn together<W: Threads + Wait + Sync + Abort>(
    rt: &W,
    alloc: Global,
    pool: Pool,
) -> Result<bool, NoMemory> {
    let survey = looked_at(keys(rt, alloc, 4, 9)?, 0, 2);
    let handed = list(rt, alloc, pool, &survey, 2, &OpenGate)?;
    Ok(handed == wanted(4, 9) && survey.alone.load(Ordering::SeqCst) == 0)
}

// Whether a worker whose first pass waits for the other's met it.
fn met<W: Threads + Wait + Sync + Abort>(
    rt: &W,
    alloc: Global,
    pool: Pool,
    waits: u32,
) -> Result<bool, NoMemory> {
    let survey = keys(rt, alloc, 4, 9)?;
    let gate = gate_for(waits);
    let handed = list(rt, alloc, pool, &survey, 2, &gate)?;
    let passed = gate.passed.load(Ordering::SeqCst);
    Ok(handed == wanted(4, 9) && passed > 0 && gate.alone.load(Ordering::SeqCst) == 0)
}

fn meet<W: Threads + Wait + Sync + Abort>(
    rt: &W,
    alloc: Global,
    pool: Pool,
) -> Result<(), NoMemory> {
    assert!(rt; together(rt, alloc, pool)?, "scans");
    assert!(rt; met(rt, alloc, pool, 0)?, "gate 0");
    assert!(rt; met(rt, alloc, pool, 1)?, "gate 1");
    Ok(())
}

#[test]
fn two_at_once(rt: HostRuntime) -> Result<(), Fail> {
    Ok(meet(&rt, rt.alloc(), Pool::Board)?)
}

#[test]
fn two_at_once_with_deques(rt: HostRuntime) -> Result<(), Fail> {
    Ok(meet(&rt, rt.alloc(), Pool::Deque)?)
}

// Whether a worker that has nothing to do gets a rest: of the first four scans by two workers the last two meet, where the first
// segment has one entry.
fn rest_is_shared<G: Gate + Sync, W: Threads + Wait + Sync + Abort>(
    rt: &W,
    alloc: Global,
    pool: Pool,
    gate: &G,
) -> Result<bool, NoMemory> {
    let mut survey = looked_at(keys(rt, alloc, 2000, 3000)?, 0, 4);
    survey.from = 2;
    let handed = list(rt, alloc, pool, &survey, 2, gate)?;
    Ok(handed == wanted(2000, 3000) && survey.alone.load(Ordering::SeqCst) == 0)
}

#[test]
fn a_rest_is_given(rt: HostRuntime) -> Result<(), Fail> {
    assert!(rt; rest_is_shared(&rt, rt.alloc(), Pool::Board, &gathering_of(2))?);
    Ok(())
}

#[test]
fn a_rest_is_stolen(rt: HostRuntime) -> Result<(), Fail> {
    assert!(rt; rest_is_shared(&rt, rt.alloc(), Pool::Deque, &gate_for(0))?);
    Ok(())
}

// Whether all of so few workers have a segment at once, where each has one to begin with.
fn gathered<W: Threads + Wait + Sync + Abort>(
    rt: &W,
    alloc: Global,
    workers: u32,
) -> Result<bool, NoMemory> {
    let survey = keys(rt, alloc, 600, 2000)?;
    let gate = gathering_of(u64::from(workers));
    let handed = list(rt, alloc, Pool::Board, &survey, workers, &gate)?;
    Ok(handed == wanted(600, 2000) && gate.missed.load(Ordering::SeqCst) == 0)
}

#[test]
fn nobody_waits_where_work_is_free(rt: HostRuntime) -> Result<(), Fail> {
    for workers in [2, 4] {
        assert!(rt; gathered(&rt, rt.alloc(), workers)?, "{workers}");
    }
    Ok(())
}

// How many of so many workers begin a segment, where there are four entries.
fn begin<W: Threads + Wait + Sync + Abort>(
    rt: &W,
    alloc: Global,
    workers: u32,
) -> Result<u64, NoMemory> {
    let survey = keys(rt, alloc, 4, 9)?;
    let gate = gathering_of(0);
    let handed = list(rt, alloc, Pool::Board, &survey, workers, &gate)?;
    assert!(rt; handed == wanted(4, 9));
    Ok(gate.begun.load(Ordering::SeqCst))
}

#[test]
fn few_begin_where_there_is_little(rt: HostRuntime) -> Result<(), Fail> {
    for workers in [8, 64] {
        let begun = begin(&rt, rt.alloc(), workers)?;
        assert!(rt; 0 < begun && begun < 5, "{workers}: {begun}");
    }
    Ok(())
}

// Whether so many workers list so many keys, of which one is spent, with an unruly gate; and where none is spent, no key
// was scanned twice.
fn listed<W: Threads + Wait + Sync + Abort + Clock>(
    rt: &W,
    alloc: Global,
    pool: Pool,
    workers: u32,
    count: u32,
    spent: u32,
    seed: u64,
) -> Result<bool, NoMemory> {
    let survey = looked_at(keys(rt, alloc, count, spent)?, 0, 0);
    let gate = Unruly { seed, clock: rt };
    let handed = list(rt, alloc, pool, &survey, workers, &gate)?;
    let once = spent <= count || survey.scanned.load(Ordering::SeqCst) == u64::from(count);
    Ok(once && handed == wanted(count, spent))
}

// Nine kinds of runs for each of so many seeds.
fn all_listed<W: Threads + Wait + Sync + Abort + Clock>(
    rt: &W,
    alloc: Global,
    pool: Pool,
    from: u64,
    upto: u64,
) -> Result<(), NoMemory> {
    let rows: [(u32, u32, u32); 9] = [
        (1, 300, 2000),
        (2, 600, 2000),
        (3, 600, 412),
        (4, 600, 2),
        (8, 600, 600),
        (8, 1, 9),
        (8, 0, 9),
        (12, 900, 2000),
        (5, 3, 9),
    ];
    for seed in from..upto {
        for (workers, count, spent) in rows {
            let listed = listed(rt, alloc, pool, workers, count, spent, seed)?;
            assert!(rt; listed, "{workers} {count} {spent} {seed}");
        }
    }
    Ok(())
}

#[test]
fn unruly(rt: HostRuntime) -> Result<(), Fail> {
    Ok(all_listed(&rt, rt.alloc(), Pool::Board, 0, 28)?)
}

#[test]
fn unruly_from_28(rt: HostRuntime) -> Result<(), Fail> {
    Ok(all_listed(&rt, rt.alloc(), Pool::Board, 28, 56)?)
}

#[test]
fn unruly_from_56(rt: HostRuntime) -> Result<(), Fail> {
    Ok(all_listed(&rt, rt.alloc(), Pool::Board, 56, 84)?)
}

#[test]
fn unruly_from_84(rt: HostRuntime) -> Result<(), Fail> {
    Ok(all_listed(&rt, rt.alloc(), Pool::Board, 84, 112)?)
}

#[test]
fn unruly_with_deques(rt: HostRuntime) -> Result<(), Fail> {
    Ok(all_listed(&rt, rt.alloc(), Pool::Deque, 0, 5)?)
}

// Many workers over few keys and over many.
#[test]
fn sixty_four(rt: HostRuntime) -> Result<(), Fail> {
    for pool in [Pool::Board, Pool::Deque] {
        assert!(rt;
            listed(&rt, rt.alloc(), pool, 64, 1000, 2000, 1)?,
            "many keys"
        );
        assert!(rt; listed(&rt, rt.alloc(), pool, 64, 3, 9, 2)?, "few keys");
    }
    Ok(())
}

// A thousand runs over 600 keys, whose first spans leave two batches each.
#[test]
fn thousand_runs(rt: HostRuntime) -> Result<(), Fail> {
    for seed in 0..1000 {
        let listed = listed(&rt, rt.alloc(), Pool::Deque, 2, 600, 2000, seed)?;
        assert!(rt; listed, "{seed}");
    }
    Ok(())
}
