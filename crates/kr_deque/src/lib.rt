//! Work shared over deques: the listing of a span by many workers, each with a hand and a deque of its own.
#![tactic(auto)]

mod cutting;
mod handing;
mod joining;
mod laws;
mod listing;

pub use handing::spread;
pub use joining::{JoinRefusal, join_pieces};
pub use kr_deque_hands::{Gathered, Hand, Work, work_deque};
pub use kr_io::{Gate, OpenGate};
pub use kr_survey::Piece;
pub use laws::{joined_law, parts_law};
pub use listing::list_deque;
