// Gates that make workers meet, or stay.

use crate::tests::surveys::comes_to;
use kr_pool::Gate;
use std::sync::atomic::{AtomicU64, Ordering};
use std::thread;
use std::thread::yield_now;
use std::time::{Clock, Duration};

/// One worker's first pass returns only when another's first pass has begun.
#[derive(Drop)]
pub(crate) struct Meeting {
    pub(crate) waits: u32,
    pub(crate) begun: AtomicU64,
    pub(crate) passed: AtomicU64,
    pub(crate) alone: AtomicU64,
}

/// Nobody has passed yet.
pub(crate) fn gate_for(waits: u32) -> Meeting {
    Meeting {
        waits,
        begun: AtomicU64::new(0),
        passed: AtomicU64::new(0),
        alone: AtomicU64::new(0),
    }
}

impl Gate for Meeting {
    fn pass(&self, worker: u32, turn: u64) {
        if turn != 0 {
            return;
        }
        self.passed.fetch_add(1, Ordering::SeqCst);
        if worker != self.waits {
            self.begun.fetch_add(1, Ordering::SeqCst);
        } else if !comes_to(&self.begun, 1) {
            self.alone.fetch_add(1, Ordering::SeqCst);
        }
    }
}

/// Each worker's first pass returns only when so many first passes have begun: none waits while a segment is free.
#[derive(Drop)]
pub(crate) struct Gathering {
    pub(crate) workers: u64,
    pub(crate) begun: AtomicU64,
    pub(crate) missed: AtomicU64,
}

/// Nobody has passed yet.
pub(crate) fn gathering_of(workers: u64) -> Gathering {
    Gathering {
        workers,
        begun: AtomicU64::new(0),
        missed: AtomicU64::new(0),
    }
}

impl Gate for Gathering {
    fn pass(&self, _worker: u32, turn: u64) {
        if turn != 0 {
            return;
        }
        self.begun.fetch_add(1, Ordering::SeqCst);
        if !comes_to(&self.begun, self.workers) {
            self.missed.fetch_add(1, Ordering::SeqCst);
        }
    }
}

/// Lets others run for a number of turns that differs from pass to pass, and sleeps at some passes.
#[derive(Drop)]
pub(crate) struct Unruly<'c, C: Clock> {
    pub(crate) seed: u64,
    pub(crate) clock: &'c C,
}

fn mixed(seed: u64, worker: u32, turn: u64) -> u64 {
    seed.wrapping_mul(6_364_136_223_846_793_005)
        .wrapping_add(turn.wrapping_mul(1_442_695_040_888_963_407))
        .wrapping_add(u64::from(worker).wrapping_mul(40_692))
        >> 33
}

impl<C: Clock> Gate for Unruly<'_, C> {
    fn pass(&self, worker: u32, turn: u64) {
        let mixed = mixed(self.seed, worker, turn);
        for _ in 0..mixed % 6 {
            yield_now();
        }
        if mixed % 7 == 0 {
            thread::sleep(self.clock, Duration::from_micros(mixed % 90));
        }
    }
}
