//! The board that workers will share: the machine, the rows beside it, and the log of its events. Each call is one event,
//! and the board is what its log replays to. Its owner calls it alone; it holds no handle.
#![tactic(auto)]

mod board;
mod edits;
mod laws;
mod parts;

pub use board::{Board, Closed, GivenUp, Logged, Refused, Reported, Taken};
pub use kr_core::{Event, Lease, Segment};
pub use laws::{board_law, part_law};
pub use parts::is_possible;
