//! Resolution of a node: to a local, a field, a constant, a class, a method and the way to call it, or a creation.
//! Names are looked up here only; later stages use numbers.
#![tactic(auto)]

mod calls;
mod classes;
mod dots;
mod meaning;
mod members;
mod names;

pub use calls::{call_meaning, super_meaning};
pub use classes::Classes;
pub use dots::{creation_meaning, field_behind, method_behind};
pub use meaning::Meaning;
pub use names::variable_meaning;
