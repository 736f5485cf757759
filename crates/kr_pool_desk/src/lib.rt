//! The board that workers share, as it lies under their lock: with the count of its calls, and what it keeps while nobody
//! holds it.
#![tactic(auto)]

mod beginning;
mod crew;
mod desk;
mod handed;
mod pace;
mod room;
mod seat;
mod seats;
mod shared;
mod table;
mod wanted;

pub use crew::{Crew, Run};
pub use desk::{Desk, last_rows};
pub use handed::Handed;
pub use seat::Seat;
pub use shared::Shared;
pub use wanted::Wanted;
