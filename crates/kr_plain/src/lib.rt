//! Candidates judged by the definitions alone, without a search: whether one is the least of its class; the entries of a span,
//! found by trying every candidate; and candidates under other names.
#![tactic(auto)]

mod counting;
mod keeping;
mod least;
mod listed;
mod plain;
mod renaming;
mod telling;

pub use least::is_least;
pub use plain::{list_keys, list_plain};
pub use renaming::{Perm, is_renaming, rename};
