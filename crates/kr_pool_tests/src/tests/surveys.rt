// Surveys of a few keys, and two that look at who scans.
ghost use Rattle.std.specs.Prelude.{◌<◌, IfOk};
ghost use Rattle.kr_survey.specs.Scans.{IsScan};

use crate::tests::spans::cut_of;
use kr_base::{Bound, Cut, NoMemory, Steps};
use kr_survey::{Entry, ListSurvey, Mark, Part, Survey};
use std::alloc::{AllocError, Global};
use std::process::Abort;
use std::sync::atomic::{AtomicU64, Ordering};
use std::sync::ledger::Ledger;
use std::thread::yield_now;

/// The most turns that somebody waits for somebody else.
pub(crate) const TURNS: u32 = 1 << 30;

/// Whether a count reaches a number within so many turns.
pub(crate) fn comes_to(count: &AtomicU64, number: u64) -> bool {
    for _ in 0..TURNS {
        if count.load(Ordering::SeqCst) >= number {
            return true;
        }
        yield_now();
    }
    false
}

/// A list whose first scans are refused memory, and those from a number on wait until so many have begun.
#[derive(Drop)]
pub(crate) struct Watched {
    pub(crate) list: ListSurvey,
    pub(crate) refused: u64,
    pub(crate) from: u64,
    pub(crate) together: u64,
    pub(crate) begun: AtomicU64,
    pub(crate) alone: AtomicU64,
    pub(crate) scanned: AtomicU64,
}

impl Watched {
    // Whether the scan before which so many began waits for others.
    fn waits(&self, before: u64) -> bool {
        before >= self.from && before < self.together
    }
}

impl Survey for Watched {
    type Row = Cut;

    type Scratch = ();

    ghost all = { λ w. w.list };

    ghost made = { λ w scratch. Unit {0} };

    fn scratch(&self) -> Result<(), NoMemory> {
        Ok(())
    }

    fn scan_with<L: Ledger>(
        &self,
        scratch: &mut (),
        after: &Cut,
        upto: &Bound,
        most: u32,
        runs: &mut Steps<L>,
    ) -> Result<Part<Cut>, NoMemory> {
        let _ = scratch;
        let before = self.begun.fetch_add(1, Ordering::SeqCst);
        if before < self.refused {
            return Err(NoMemory::from(AllocError));
        }
        if self.waits(before) && !comes_to(&self.begun, self.together) {
            self.alone.fetch_add(1, Ordering::SeqCst);
        }
        let part = self.list.scan(after, upto, most, runs)?;
        self.scanned.fetch_add(part.tried, Ordering::SeqCst);
        Ok(part)
    }

    fn scan<L: Ledger>(
        &self,
        after: &Cut,
        upto: &Bound,
        most: u32,
        runs: &mut Steps<L>,
    ) -> Result<Part<Cut>, NoMemory> {
        self.scan_with(&mut (), after, upto, most, runs)
    }

    fn ascends(&self) {
        self.list.ascends();
    }
}

fn mark_of(alloc: Global, number: u32, spent: u32) -> Result<Mark<Cut>, NoMemory> {
    if number == spent {
        return Ok(Mark::Spent);
    }
    if number % 5 == 0 {
        return Ok(Mark::Invalid);
    }
    Ok(Mark::Valid(cut_of(alloc, &[0, number])?))
}

fn entry_of(alloc: Global, number: u32, spent: u32) -> Result<Entry<Cut>, NoMemory> {
    let mark = mark_of(alloc, number, spent)?;
    let key = cut_of(alloc, &[0, number])?;
    Ok(Entry { key, mark })
}

fn push_keys(
    alloc: Global,
    entries: &mut Vec<Entry<Cut>>,
    count: u32,
    spent: u32,
) -> Result<(), NoMemory> {
    for number in 0..count {
        let entry = entry_of(alloc, number.saturating_add(1), spent)?;
        entries.push(entry)?;
    }
    Ok(())
}

/// Keys 0.1 to 0.count: each fifth is invalid, and one spent, if it is among them. A row is its key.
pub(crate) fn keys(
    rt: &impl Abort,
    alloc: Global,
    count: u32,
    spent: u32,
) -> Result<ListSurvey, NoMemory> {
    let mut entries = Vec::new(alloc);
    push_keys(alloc, &mut entries, count, spent)?;
    let ascends = ListSurvey::is_ascending(entries.as_slice());
    assert!(rt; ascends, "the keys ascend");
    Ok(ListSurvey::new(alloc, entries))
}

/// A list, watched: so many scans are refused, so many of the first ones meet.
pub(crate) fn looked_at(list: ListSurvey, refused: u64, together: u64) -> Watched {
    Watched {
        list,
        refused,
        from: 0,
        together,
        begun: AtomicU64::new(0),
        alone: AtomicU64::new(0),
        scanned: AtomicU64::new(0),
    }
}
