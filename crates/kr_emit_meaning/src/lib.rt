//! What builders are: the problems for whose structures code can build them, and the text of that code.
#![tactic(auto)]

mod laws;
mod refusal;

pub use laws::{worked_builders, worked_rules};
pub use refusal::ElementRule;
