// A gate that workers pass.

/// Results don't depend on it. A worker calls `pass` once after each `take` that gave it a lease, before it scans, and
/// not if a report lets it continue with its lease. `turn` counts its calls from 0.
pub trait Gate {
    fn pass(&self, worker: u32, turn: u64);
}

/// Returns immediately.
#[derive(Clone, Copy)]
pub struct OpenGate;

impl Gate for OpenGate {
    fn pass(&self, _worker: u32, _turn: u64) {}
}
