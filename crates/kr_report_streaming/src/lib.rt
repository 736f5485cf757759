//! Who takes the rows of a report: a writer of their lines, which writes the last line too, and a counter. And the text of a
//! board's log: a line an event.
#![tactic(auto)]

mod closing;
mod counter;
mod halting;
mod laws;
mod putting;
mod row_line;
mod trace;
mod writer;
mod writing;

pub use counter::Counter;
pub use laws::{count_law, lines_law, worked_lines};
pub use row_line::{RowLine, Text};
pub use trace::{put_event, put_trace};
pub use writer::LineWriter;
