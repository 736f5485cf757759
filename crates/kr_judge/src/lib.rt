//! The predicate's run on a candidate, by the machine: the heap that the candidate spells, `this.repOk()` and then each
//! precondition on it; how the run ends, and the slots that decide it. All this is what the program means.
#![tactic(auto)]

mod accesses;
mod conditions;
mod judge;
mod order;
mod places;
mod predicate;
mod run;
mod start;

pub use accesses::Accesses;
pub use judge::Judge;
pub use predicate::Predicate;
pub use start::{begin, blank_world, release_made};
