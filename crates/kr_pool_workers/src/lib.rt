//! Workers at a shared board: each with its seat, what it scanned and has to hand in. The caller's works a part at a time.
#![tactic(auto)]

mod hand;
mod lead;
mod leading;
mod refusal;
mod scanning;
mod stint;
mod turns;
mod working;

pub use hand::{Hand, hands_of, seats_of};
pub use lead::Lead;
pub use leading::{Leading, scratch_for};
pub use scanning::scan_uncounted;
pub use stint::Stint;
pub use working::{Round, work_all, work_at};
