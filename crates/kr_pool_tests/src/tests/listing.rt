// A span of keys that is shared, and the log of one worker.
ghost use Rattle.std.specs.Prelude.{◌≡◌, ◌<◌, ◌≤◌};

use crate::tests::spans::below_one;
use crate::tests::surveys::keys;
use kr_base::{Cut, NoMemory};
use kr_board::Event;
use kr_pool::{Collector, Gate, OpenGate, share};
use kr_survey::{End, Halt, Rows, Survey};
use std::alloc::Global;
use std::process::Abort;
use std::sync::Wait;
use std::test::Fail;
use std::thread::Threads;

// Whether these are the events of one worker over four keys: it takes, reports, and looks where its segment is done, before
// the rows are drained.
fn is_alone(log: &[Event]) -> bool {
    log.len() == 4
        && matches!(
            log[0],
            Event::Take {
                seat: 0,
                segment: 0
            }
        )
        && matches!(
            log[1],
            Event::Report {
                seat: 0,
                segment: 0,
                rows: 4,
                tried: 4,
                spent: false,
                ..
            }
        )
        && matches!(log[2], Event::Look { seat: 0 })
        && matches!(log[3], Event::Drain { rows: 4 })
}

/// How a shared span ended, its rows, and the log.
#[derive(Drop)]
pub(crate) struct Taken {
    pub(crate) end: End,
    pub(crate) rows: Rows<Cut>,
    pub(crate) log: Vec<Event>,
}

/// A span of keys, shared by so many workers within a window.
pub(crate) fn take_all<
    S: Survey<Row = Cut> + Sync,
    G: Gate + Sync,
    W: Threads + Wait + Sync + Abort,
>(
    rt: &W,
    alloc: Global,
    survey: &S,
    workers: u32,
    window: Option<u64>,
    gate: &G,
) -> Result<Taken, NoMemory> {
    assert!(rt; 0 < workers && workers <= 64);
    match window {
        None => {}
        Some(rows) => assert!(rt; 0 < rows && rows <= 65536),
    }
    let span = below_one(alloc)?;
    let mut rows = Collector::new(alloc);
    let mut out = ();
    let shared = share(
        rt, alloc, survey, span, workers, window, &mut rows, &mut out, gate,
    );
    match shared {
        Err(Halt::Memory(why)) => Err(why),
        Err(Halt::Sink) => unreachable!(),
        Ok((end, log)) => Ok(Taken {
            end,
            rows: rows.into_rows(),
            log,
        }),
    }
}

// Whether four keys shared by one worker have that log.
fn logged<W: Threads + Wait + Sync + Abort>(rt: &W, alloc: Global) -> Result<bool, NoMemory> {
    let survey = keys(rt, alloc, 4, 9)?;
    let taken = take_all(rt, alloc, &survey, 1, None, &OpenGate)?;
    Ok(is_alone(taken.log.as_slice()))
}

// Whether rows are drained before the last report.
fn is_drained_early(log: &[Event]) -> bool {
    let mut is_drained = false;
    for event in log {
        if matches!(event, Event::Drain { rows: _ }) {
            is_drained = true;
        } else if is_drained && matches!(event, Event::Report { .. }) {
            return true;
        }
    }
    false
}

// Whether one worker drains rows while it works, before there are many.
fn drains<W: Threads + Wait + Sync + Abort>(rt: &W, alloc: Global) -> Result<bool, NoMemory> {
    let survey = keys(rt, alloc, 600, 2000)?;
    let taken = take_all(rt, alloc, &survey, 1, None, &OpenGate)?;
    Ok(is_drained_early(taken.log.as_slice()))
}

#[test]
fn rows_come_early(rt: HostRuntime) -> Result<(), Fail> {
    assert!(rt; drains(&rt, rt.alloc())?);
    Ok(())
}

#[test]
fn log_of_one(rt: HostRuntime) -> Result<(), Fail> {
    assert!(rt; logged(&rt, rt.alloc())?, "log");
    Ok(())
}
