//! A problem that is accepted, prepared for its search: with the code of its predicate and of its method under test,
//! and the fields of its classes' objects.
#![tactic(auto)]

mod accepted;
mod contract;
mod fields;
mod prepared;

pub use accepted::Accepted;
pub use contract::{Contract, OldCode, ProblemCode, SignalCode};
pub use prepared::Prepared;
