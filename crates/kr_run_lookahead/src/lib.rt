//! How a run goes on from a step that reads, where that is known at once: statements whose flows are known, since nothing is
//! written in them and nothing else is read for the first time, and the frames that a value or a flow passes so. Where a predicate
//! refuses a candidate for what it reads last, this is all that is left of its run, and neither the stack nor what the run has made
//! is touched.
#![tactic(auto)]

mod flows;
mod leaving;
mod lookahead;
mod passing;

pub use lookahead::ahead;
