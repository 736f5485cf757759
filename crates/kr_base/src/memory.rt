// The error of every call that allocates, and what else may be reported as it.
ghost use Rattle.std.specs.Prelude.{◌≡◌, ◌+◌, ◌<◌, ◌≤◌, ◌↔◌, IsTrue, length};

use std::alloc::{AllocError, AllocFailed};
use std::marker::Model;

/// Out of memory. A crate above makes one from an allocator's error, or from a list that it holds and that is too long
/// to be numbered in 32 bits. The other ways are `at_sum` and `reported`, whose callers `tests/run` lists.
#[derive(Clone, Copy, Debug, PartialEq, Eq)]
pub struct NoMemory {
    seal: (),
}

impl NoMemory {
    /// For a list with no number of 32 bits for one more item.
    pub fn at_limit<T>(items: &[T]) -> NoMemory
        requires { 4294967295 ≤ length items.now }
    {
        prove!(items.len() >= 4_294_967_295);
        NoMemory { seal: () }
    }

    /// For two lists whose items are numbered together, with no number of 32 bits for one more.
    pub fn at_common_limit<T, U>(first: &[T], second: &[U]) -> NoMemory
        requires { 4294967295 ≤ length first.now + length second.now }
    {
        prove!(second.len() >= 4_294_967_295_usize.saturating_sub(first.len()));
        NoMemory { seal: () }
    }

    /// For a list whose length can't grow and be an `int` still.
    pub fn at_int_limit<T>(items: &[T]) -> NoMemory
        requires { 2147483647 ≤ length items.now }
    {
        prove!(items.len() >= 2_147_483_647);
        NoMemory { seal: () }
    }

    /// For things that are numbered by adding up counts, where the sum has no number of 32 bits. No list holds them, so any
    /// two numbers would do.
    pub fn at_sum(first: u64, second: u64) -> NoMemory
        requires { 4294967296 ≤ first + second }
    {
        prove!(second >= 4_294_967_296_u64.saturating_sub(first));
        NoMemory { seal: () }
    }

    /// As a library reports it that hands on no error of the allocator. That it did so, the caller has to ask.
    pub fn reported() -> NoMemory {
        NoMemory { seal: () }
    }
}

impl From<AllocError> for NoMemory {
    fn from(_: AllocError) -> Self {
        NoMemory { seal: () }
    }
}

impl<T: Drop> From<AllocFailed<T>> for NoMemory {
    fn from(_: AllocFailed<T>) -> Self {
        NoMemory { seal: () }
    }
}

/// A count down from 2^64 - 1, one at a time: the bound of a loop that has no other. That it ends is reported as out of memory.
#[derive(Drop)]
pub struct Countdown {
    left: u64,
}

impl Model for Countdown {
    ghost use Rattle.std.specs.Prelude.{ℕ};

    ghost Value = { ℕ };

    ghost view = { λ c. c.left };
}

impl Countdown {
    #[inline(always)]
    pub fn start() -> Countdown
        ensures { result ≡ 18446744073709551615 }
    {
        Countdown { left: u64::MAX }
    }

    #[inline(always)]
    pub fn is_over(&self) -> bool
        ensures { IsTrue result ↔ self.now ≡ 0 }
    {
        self.left == 0
    }

    /// Counts one.
    #[inline(always)]
    pub fn count(&mut self)
        requires { 0 < self.old }
        ensures { self.new + 1 ≡ self.old }
    {
        self.left -= 1;
    }

    pub fn at_end(&self) -> NoMemory
        requires { self.now ≡ 0 }
    {
        prove!(self.left == 0);
        NoMemory { seal: () }
    }
}
