//! What the steps of a command accept has what the laws on programs ask, and printed traces are read back: what a call with `--trace`
//! writes of its board's log, the checker reads as that log. Laws alone, no code that runs.
#![tactic(auto)]

mod laws;
mod traces;

pub use laws::{accepted_law, merged_law, traced_law, upgraded_law, words_law, written_law};
pub use traces::{
    ends_law, event_law, honest_law, listing_law, log_law, more_law, row_law, spent_law, text_law,
    whole_law, worked_listings,
};
