// How a call has ended.

use kr_io::MemSink;

/// The output, compared with a text.
#[derive(Clone, Copy, PartialEq, Eq)]
pub enum Written {
    Whole,
    Front,
    Other,
}

/// The answer of a call, and its output.
#[derive(Clone, Copy, PartialEq, Eq)]
pub struct Ended {
    pub status: u8,
    pub written: Written,
}

pub(crate) fn held_against(status: u8, out: &MemSink, text: &[u8]) -> Ended {
    let bytes = out.bytes();
    let written = if bytes == text {
        Written::Whole
    } else if text.starts_with(bytes) {
        Written::Front
    } else {
        Written::Other
    };
    Ended { status, written }
}
