// A listing by two workers who meet after their first leases: neither works alone, and the bytes are one worker's.

use crate::samples::{CELL, FIN, LISTED};
use crate::{Call, Ended, Written, ended};
use kr_base::NoMemory;
use kr_io::Gate;
use std::alloc::Global;
use std::sync::Wait;
use std::sync::atomic::{AtomicU64, Ordering};
use std::test::Fail;
use std::thread::{Threads, yield_now};

/// The most turns that a worker waits for the other.
const TURNS: u32 = 1 << 30;

/// The first pass of one worker returns only when the other's has begun. How many first passes there were, and how many waited
/// in vain.
#[derive(Drop)]
struct Meeting {
    waits: u32,
    begun: AtomicU64,
    passed: AtomicU64,
    alone: AtomicU64,
}

impl Meeting {
    /// Whether the other's first pass begins.
    fn is_joined(&self) -> bool {
        for _ in 0..TURNS {
            if self.begun.load(Ordering::SeqCst) > 0 {
                return true;
            }
            yield_now();
        }
        false
    }
}

impl Gate for Meeting {
    fn pass(&self, worker: u32, turn: u64) {
        if turn != 0 {
            return;
        }
        self.passed.fetch_add(1, Ordering::SeqCst);
        if worker != self.waits {
            self.begun.fetch_add(1, Ordering::SeqCst);
        } else if !self.is_joined() {
            self.alone.fetch_add(1, Ordering::SeqCst);
        }
    }
}

/// Whether the cell's listing by two workers, of whom this one waits for the other, is the listing, and they met.
fn meets<W: Threads + Wait + Sync>(rt: &W, alloc: Global, waits: u32) -> Result<bool, NoMemory> {
    let gate = Meeting {
        waits,
        begun: AtomicU64::new(0),
        passed: AtomicU64::new(0),
        alone: AtomicU64::new(0),
    };
    let files = [("fin.toml", FIN), ("Cell.java", CELL)];
    let call = Call::new("list --workers 2 fin.toml Cell.java", &files);
    let ended = ended(rt, alloc, &call, &gate, LISTED.as_bytes())?;
    let met = gate.passed.load(Ordering::SeqCst) > 0 && gate.alone.load(Ordering::SeqCst) == 0;
    let wanted = Ended {
        status: 0,
        written: Written::Whole,
    };
    Ok(ended == wanted && met)
}

#[test]
fn two_workers_meet(rt: HostRuntime) -> Result<(), Fail> {
    assert!(rt; meets(&rt, rt.alloc(), 0)?, "worker 0 waits");
    assert!(rt; meets(&rt, rt.alloc(), 1)?, "worker 1 waits");
    Ok(())
}
