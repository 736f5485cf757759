//! The effects of a node of a predicate's code: which objects it creates or may write, whether these are of a problem's
//! candidates, and which methods and classes it may run code of.
#![tactic(auto)]

mod callees;
mod candidates;
mod created;
mod known;
mod nodes;
mod runnable;
mod runs;
mod targets;
mod touch;

pub use candidates::touches_candidates;
pub use created::created_classes;
pub use nodes::touch_of;
pub use runnable::overriders;
pub use runs::{Runs, runs_of};
pub use touch::Touch;
