//! Code of a program means what the program means: a node of it does what the tree does, in its scope, that it is the
//! resolved form of.
#![tactic(auto)]

mod laws;

pub use laws::resolved_law;
