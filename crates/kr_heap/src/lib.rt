//! The heap of a running program: objects with their classes and values, and the members of collections.
#![tactic(auto)]

mod heap;
mod lists;
mod members;
mod object;

pub use heap::Heap;
pub use lists::{append, refill};
pub use members::{Members, too_many};
