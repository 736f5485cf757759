//! A problem as code: a typed program, its array types by number, and the slots and domains of its candidates; and what it is
//! about, found once. Purity, the predicate's code and the search use these.
#![tactic(auto)]

mod problem;
mod subject;

pub use problem::Problem;
pub use subject::Subject;
