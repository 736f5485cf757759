// The value that all hands share.

use crate::rule::Front;
use std::alloc::Global;
use std::sync::atomic::{AtomicU64, Ordering};
use std::sync::{Condvar, Wait};
use std::thread;
use std::time::Duration;

/// How often a hand that finds nothing looks, before it sleeps between two looks.
const PEEKS: u32 = 1000;

/// How many microseconds it sleeps.
const SLEEP: u64 = 500;

/// The deques of all hands, as others may take from them, how many hands are at work, and where hands sleep that find nothing.
#[derive(Drop)]
pub struct Work {
    pub(crate) alloc: Global,
    pub(crate) fronts: Vec<Front>,
    pub(crate) busy: AtomicU64,
    pub(crate) bed: Condvar,
}

impl Work {
    /// A hand is at work.
    pub(crate) fn begin(&self) {
        self.busy.fetch_add(1, Ordering::SeqCst);
    }

    /// A hand that was at work rests.
    pub(crate) fn rest(&self) {
        self.busy.fetch_sub(1, Ordering::SeqCst);
    }

    /// Whether no hand is at work.
    pub(crate) fn is_idle(&self) -> bool {
        self.busy.load(Ordering::SeqCst) == 0
    }

    /// A hand that found nothing, so often one time after another, lets others run: it sleeps a while where it did so for long and
    /// another hand is at work.
    pub(crate) fn pause<W: Wait>(&self, rt: &W, looks: u32) {
        if looks < PEEKS || self.is_idle() {
            thread::yield_now();
        } else {
            self.bed
                .sleep(rt, self.bed.notifications(), Duration::from_micros(SLEEP));
        }
    }

    /// A hand sleeps a while.
    pub(crate) fn sleep<W: Wait>(&self, rt: &W) {
        self.bed
            .sleep(rt, self.bed.notifications(), Duration::from_micros(SLEEP));
    }
}
