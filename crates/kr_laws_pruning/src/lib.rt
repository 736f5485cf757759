//! The laws of every problem's entries that Korat's pruning rests on, and lemmas on slots, walks and reads that crates that run use too. Nothing here runs.
#![tactic(auto)]

mod laws;

pub use laws::{class_law, entry_law, keys_law, lawful_law, one_field_law, plain_law, renamed_law};
