//! Theorems on the grammar and its machine: the machine accepts exactly the derivable tokens, it never gets stuck on
//! them, and tokens have at most one tree.
#![tactic(auto)]

mod laws;

pub use laws::{completeness, one_tree, productivity, small_trees, soundness};
