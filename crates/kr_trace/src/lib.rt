//! Printed logs: whether a text is a listing followed by the log of the board that its workers shared.
#![tactic(auto)]

mod agreeing;
mod chain;
mod checking;
mod ending;
mod events;
mod files;
mod judging;
mod laws;
mod nodes;
mod parts;
mod reading;
mod refusal;
mod replay;
mod row;
mod rows;
mod words;

pub use checking::{MAX_TRACE_BYTES, check_trace};
pub use ending::Last;
pub use events::Counts;
pub use files::{TraceStop, find_checked, put_checked, status_for};
pub use laws::worked_traces;
pub use refusal::{Fault, TraceRefusal, TraceRule};
pub use row::Row;
pub use words::Held;
