//! The values of a program's constants (Java Language Specification 15.28): each evaluated after those that are declared
//! before it.
#![tactic(auto)]

mod expressions;
mod frames;
mod known;
mod names;
mod note;
mod order;
mod values;
mod widths;

pub use known::Values;
