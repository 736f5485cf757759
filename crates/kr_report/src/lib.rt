//! What a call reports: its lines, and the definition of the whole text, rows and structures too.
#![tactic(auto)]

mod lines;
mod names;
mod verdicts;

pub use lines::{
    Summary, once_written, put_out_of_memory, put_read_fault, put_usage_fault, summary_text,
};
pub use names::{field_name_among, parameter_name_of};
pub use verdicts::put_verdict;
