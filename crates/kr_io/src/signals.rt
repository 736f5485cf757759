// Reads and writes that a signal interrupts before a byte is moved.
use std::io::{Error, ErrorKind};

/// How often a read or a write is tried, where signals interrupt it.
pub(crate) const INTERRUPTIONS: usize = 65;

/// Whether a signal interrupted a read or a write. Nothing was read or written then.
pub(crate) fn is_interrupted(error: &Error) -> bool {
    error.kind() == ErrorKind::Interrupted
}
