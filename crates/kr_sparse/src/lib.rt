//! Lists most of whose items are one and the same.
#![tactic(auto)]

mod page;
mod sparse;

pub use sparse::Sparse;
