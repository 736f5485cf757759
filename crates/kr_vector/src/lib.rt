//! Slots, the places for a candidate's values, and vectors: an index into its domain for each slot.
#![tactic(auto)]

mod slot;
mod vector;

pub use slot::Slot;
pub use vector::Vector;
