// A sink on top of a writer of std, as standard output.
ghost use Rattle.std.specs.Prelude.{◌≡◌, ◌<◌, ◌≤◌, length, take, MatchOption};
ghost use Rattle.std.specs.Io.KnownBytes.{Appends, Keeps};

use crate::signals::{INTERRUPTIONS, is_interrupted};
use kr_base::{Failed, Sink};
use std::io::Write;

/// Writes to a writer, whose bytes are known only if the writer knows them; standard output doesn't. Counts each write
/// that fails, or takes nothing of a nonempty piece.
#[derive(Drop)]
pub struct StdSink<W: Write + Drop> {
    inner: W,
    faults: u64,
}

impl<W: Write + Drop> StdSink<W> {
    ghost use Rattle.kr_io.specs.Outside.{output_faults};

    /// Each put is one write.
    pub fn new(inner: W) -> Self
        ensures { output_faults result ≡ 0 }
    {
        StdSink { inner, faults: 0 }
    }
}

/// Writes a front of a nonempty piece; tries again where a signal interrupts the write. None: it failed.
#[tactic(auto, using(crate::proofs::Front::keeps_same, crate::proofs::Front::keeps_keeps, crate::proofs::Front::keeps_appends, crate::proofs::Front::keeps_consumes))]
fn write_some<W: Write>(inner: &mut W, piece: &[u8]) -> Option<usize>
    ensures within { MatchOption result (Keeps (W.contents inner.old) (W.contents inner.new)) (λ n. (0 < n) × (n ≤ length piece.now) × Appends (W.contents inner.old) (W.contents inner.new) (take n piece.now)) }
{
    for _ in 0..INTERRUPTIONS {
        match inner.write(piece) {
            Ok(0) => return None,
            Ok(count) => return Some(count),
            Err(error) if is_interrupted(&error) => {}
            Err(_) => return None,
        }
    }
    None
}

impl<W: Write + Drop> Sink for StdSink<W> {
    ghost taken = { λ s. W.contents s.inner };

    ghost faults = { λ s. s.faults };

    fn put(&mut self, piece: &[u8]) -> Result<usize, Failed> {
        if piece.is_empty() {
            return Ok(0);
        }
        match write_some(&mut self.inner, piece) {
            Some(count) => Ok(count),
            None => {
                self.faults = self.faults.saturating_add(1);
                Err(Failed)
            }
        }
    }
}
