//! The verdict of the method under test on a candidate, by its contract.
#![tactic(auto)]

mod heap;
mod parts;
mod signals;
mod start;
mod tester;
mod trial;

pub use tester::{Tester, verdict};
