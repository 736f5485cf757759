//! Induction over all constructs of the language: a relation between runs that each step respects is respected by every tree.
//! It gives the equations of the meaning without a bound on nesting.
#![tactic(auto)]

mod laws;

pub use laws::bounds_law;
