//! A candidate that is run again and again while its slots change: a run goes on from before the first place that changed.
//! Where it is known at once how it goes on, what it has made and the frames that wait stay where they are. What each run
//! answers is what the program means. Such candidates of a prepared problem are what the search goes over.
#![tactic(auto)]

mod check;
mod checks;
mod fresh;
mod going;
mod pauses;
mod runner;

pub use runner::Runner;
