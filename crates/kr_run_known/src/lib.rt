//! Expressions whose values are known at once: those whose parts are literals, `this`, locals, and places of objects that were
//! read already or that the run has made itself. Nothing is written and nothing is read for the first time; only fuel is spent.
//! An expression that would trap, spend more than there is, or is nested deeper than four levels isn't known: it is run part by
//! part.
#![tactic(auto)]

mod known;
mod levels;
mod places;

pub use known::{Known, at_once, look_at, look_at_call};
pub use levels::{expression_at, statement_at};
pub use places::field;
