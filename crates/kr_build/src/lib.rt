//! The heap of a candidate, and the slots that are reachable in it.
#![tactic(auto)]

mod heap;
mod objects;
mod structure;
mod updates;
mod walk;

pub use heap::build;
pub use structure::fill_structure;
pub use updates::update_within;
pub use walk::Walk;
