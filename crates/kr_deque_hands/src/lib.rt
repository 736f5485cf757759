//! Hands over deques: each worker has a hand with a deque of its own, takes spans from it, and steals from the next hand's.
//! Whatever the schedule, what was handed in and what is left make up what was given.
#![tactic(auto)]

mod gathering;
mod hand;
mod rule;
mod scanning;
mod starting;
mod taking;
mod task;
mod work;
mod working;

pub use gathering::Gathered;
pub use hand::Hand;
pub use scanning::{copy, scan_piece};
pub use work::Work;
pub use working::{work_at, work_deque};
