//! Reading files and writing text: the traits, implementations in memory and on the real system, and the gate that
//! tests use to hold workers.
#![tactic(auto)]

mod disk;
mod files;
mod gate;
mod memory;
mod output;
mod signals;
mod sinks;

pub use disk::{DiskFiles, read_front};
pub use files::{Files, ReadRefusal};
pub use gate::{Gate, OpenGate};
pub use kr_base::{Failed, Sink};
pub use memory::{MemFile, MemFiles};
pub use output::StdSink;
pub use sinks::{MemSink, SafeSink};
