//! Builds syntax trees: the values of tokens, and their reductions.
#![tactic(auto)]

mod builder;
mod chain;
mod tags;

pub use builder::Builder;
