//! The code of a problem: that of its whole program, with the call of the root's `repOk`, the nodes of its conditions, and the contract of the method under test.
#![tactic(auto)]

mod after_body;
mod call;
mod code;
mod lines;
mod olds;
mod predicate;
mod problem;
mod required;
mod root;
mod tested;

pub use after_body::add_after_body;
pub use problem::problem_code;
pub use required::add_required;
