//! Rows worked by hand: command lines, small programs and problems, shards and reports, with the results that the definitions give. The checker computes each.
#![tactic(auto)]

mod laws;
mod meaning;
mod reports;
mod shards;
mod words;

pub use laws::{worked_calls, worked_premises};
pub use meaning::{
    worked_constructs, worked_examples, worked_exceptions, worked_listings, worked_renamings,
    worked_tests,
};
pub use reports::worked_lines;
pub use shards::shard_rows;
pub use words::worked_words;
