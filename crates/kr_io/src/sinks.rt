// Sinks in memory, and one that keeps nothing.
ghost use Rattle.std.specs.Prelude.{◌≡◌, ◌≤◌, ◌<◌, [], Some, None, IfOk, vec_len, vec_capacity};

use kr_base::{Failed, NoMemory, Sink};
use std::alloc::Global;

/// Takes everything, keeps nothing, and never fails.
#[derive(Clone, Copy)]
pub struct SafeSink;

impl Sink for SafeSink {
    ghost use Rattle.std.specs.Prelude.{length, Ok};
    ghost use Rattle.kr_base.specs.Told.{Puts};

    ghost taken = { λ _. None };

    ghost faults = { λ _. 0 };

    fn put(&mut self, piece: &[u8]) -> Result<usize, Failed>
        ensures puts { Puts (λ _. None) (λ _. 0) self.old self.new piece.now result }
        ensures whole { result ≡ Ok (length piece.now) }
    {
        Ok(piece.len())
    }
}

/// A buffer with fixed room. It takes at most `step` bytes a put, and fails at the calls whose numbers (from 1) are
/// listed, and when it is full.
#[derive(Drop)]
pub struct MemSink {
    bytes: Vec<u8>,
    capacity: usize,
    step: usize,
    failing: Vec<u32>,
    calls: u32,
    faults: u64,
    ghost reserved: { capacity ≤ vec_capacity bytes },
    ghost within: { vec_len bytes ≤ capacity },
    ghost steps: { 0 < step },
}

impl MemSink {
    ghost use Rattle.kr_io.specs.Memory.{sink_bytes, sink_faults, sink_capacity, sink_step, sink_failing, sink_calls};

    /// An empty sink. Allocates all of its memory.
    pub fn new(
        alloc: Global,
        capacity: usize,
        step: usize,
        failing: Vec<u32>,
    ) -> Result<Self, NoMemory>
        requires { 0 < step }
        ensures empty { IfOk result (λ s. sink_bytes s ≡ []) }
        ensures faults { IfOk result (λ s. sink_faults s ≡ 0) }
        ensures capacity { IfOk result (λ s. sink_capacity s ≡ capacity) }
        ensures step { IfOk result (λ s. sink_step s ≡ step) }
        ensures failing { IfOk result (λ s. sink_failing s ≡ failing.items) }
        ensures calls { IfOk result (λ s. sink_calls s ≡ 0) }
    {
        let bytes = Vec::with_capacity(alloc, capacity)?;
        Ok(MemSink {
            bytes,
            capacity,
            step,
            failing,
            calls: 0,
            faults: 0,
        })
    }

    /// The bytes taken so far.
    pub fn bytes(&self) -> &[u8]
        ensures { result.now ≡ sink_bytes self.now }
    {
        &self.bytes
    }
}

impl Sink for MemSink {
    ghost use Rattle.std.specs.Prelude.{true, false, min, length, IsErr};
    ghost use Rattle.kr_base.specs.Told.{Puts};
    ghost use Rattle.kr_io.specs.Memory.{sink_bytes, sink_faults, sink_calls, sink_step, sink_room};
    ghost use Rattle.kr_io.specs.Memory.{next_call, put_fails, IsMadeAlike};

    ghost taken = { λ s. Some s.bytes.items };

    ghost faults = { λ s. s.faults };

    fn put(&mut self, piece: &[u8]) -> Result<usize, Failed>
        ensures puts { Puts (λ s. Some (sink_bytes s)) sink_faults self.old self.new piece.now result }
        ensures call { sink_calls self.new ≡ next_call (sink_calls self.old) }
        ensures fault { IsErr result → put_fails self.old piece.now ≡ true }
        ensures passes { IfOk result (λ _. put_fails self.old piece.now ≡ false) }
        ensures count { IfOk result (λ n. n ≡ min (min (length piece.now) (sink_step self.old)) (sink_room self.old)) }
        ensures alike { IsMadeAlike self.old self.new }
    {
        self.calls = self.calls.saturating_add(1);
        let room = self.capacity - self.bytes.len();
        if self.failing.contains(&self.calls) || room == 0 && !piece.is_empty() {
            self.faults = self.faults.saturating_add(1);
            return Err(Failed);
        }
        let count = piece.len().min(self.step).min(room);
        self.bytes.extend_from_slice(&piece[..count]).unwrap();
        Ok(count)
    }
}
