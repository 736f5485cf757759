//! The machine that runs resolved code: a task at a time, with a stack of its own, so that no code is nested too deep for it.
//! Its answer, the state that it leaves and its reads are those of the code's meaning.
#![tactic(auto)]

mod arguments;
mod calls;
mod create;
mod run;
mod steps;
mod unwinding;

pub use run::{advance, evaluate};
pub use steps::Step;
