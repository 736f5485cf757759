//! The demo: a class of binary trees, and a finitization for a given number of nodes (the Korat paper's first example).
//! A user could have written both texts to files.
#![tactic(auto)]

mod texts;

pub use texts::{demo_finitization, demo_source};
