//! The machine under the board: which parts of the candidate order are leased to whom, how far each is scanned, and
//! what was counted there. It takes one event at a time, holds no handle and runs nothing.
#![tactic(auto)]

mod bounds;
mod cutting;
mod edits;
mod event;
mod fits;
mod laws;
mod leases;
mod machine;
mod opens;
mod segment;

pub use cutting::{cuts_for, first_level};
pub use event::{Event, Lease, Reply};
pub use fits::counts_fit;
pub use laws::{
    counting_law, exclusive_law, growth_law, kept_law, leases_law, owners_law, replay_law,
    rows_law, worked_run,
};
pub use machine::{Core, CoreRefusal};
pub use opens::end_of;
pub use segment::Segment;
