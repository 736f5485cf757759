//! Workers at a shared board, in threads of their own. Whatever the schedule, the listing is that of one thread.
#![tactic(auto)]

mod alone;
mod came;
mod collector;
mod handing;
mod listing;
mod log;
mod rounds;
mod shares;
mod sharing;

pub use alone::Alone;
pub use collector::Collector;
pub use handing::{hand_listing, hand_over};
pub use kr_io::{Gate, OpenGate};
pub use kr_pool_desk::{Crew, Run, Seat, Shared};
pub use kr_pool_workers::{
    Hand, Lead, Leading, Round, Stint, hands_of, scratch_for, work_all, work_at,
};
pub use listing::list_shared;
pub use log::Log;
pub use rounds::Rounds;
pub use shares::{share, share_run};
