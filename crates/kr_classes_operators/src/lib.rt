//! Operators on values (Java Language Specification 15.15 to 15.24), for constants and for running code.
#![tactic(auto)]

mod laws;
mod numbers;
mod operators;

pub use laws::worked_operators;
pub use operators::{apply, apply_alone, convert, operator_width, wider};
