//! The report of a prepared problem's entries: listed, tested or counted, by one worker, by workers at a board, or over deques.
//! Whoever searches, one writer writes the rows and the last line.
#![tactic(auto)]

mod alone;
mod sharing;
mod surveys;
mod workers;

pub use alone::{count_alone, list_alone};
pub use sharing::may_be_shared;
pub use surveys::{Lines, Units, lines_of, units_of};
pub use workers::{Traced, count_shared, list_deque, list_run, list_shared, list_traced};
