//! What a search reports of the problem that its files pose: the listing, the test, the shard or the tally, by one worker or by many; and
//! the counts of `check`.
#![tactic(auto)]

mod alone;
mod asked;
mod building;
mod counting;
mod preparing;
mod shared;

pub use alone::report_alone;
pub use asked::is_alone;
pub use counting::count;
pub use preparing::prepare;
pub use shared::report_shared;
