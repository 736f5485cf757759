//! Laws of shards: what `shard` writes of a span is read back; shards of spans that adjoin give the one listing; so do those of every accepted problem.
#![tactic(auto)]

mod entries;
mod joining;
mod names;
mod problems;
mod reading;

pub use entries::{entries_law, lines_law};
pub use joining::shard_law;
pub use names::{contract_lines_law, names_law};
pub use problems::{accepted_lines_law, accepted_shards_law, listing_law};
pub use reading::back_law;
