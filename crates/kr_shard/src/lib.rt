//! Shards put together: in order of where they begin, where each pair adjoins, up to the first spent entry.
#![tactic(auto)]

mod faults;
mod files;
mod first;
mod laws;
mod merging;
mod order;
mod reading;
mod shard;
mod words;
mod writing;

pub use faults::{FileFault, MergeStop, name_at, put_fault};
pub use files::{MAX_SHARD_BYTES, find_merged};
pub use first::put_first_line;
pub use laws::one_merge;
pub use merging::{MergeRefusal, Merged, MergedRows, merge};
pub use order::Given;
pub use reading::read_shard;
pub use shard::{Rows, Shard, ShardRefusal};
pub use writing::{put_merged, status_of};
