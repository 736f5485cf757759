//! When values, objects and heaps are of their types, that the candidates of a finitization are, and that no run of a typed program
//! is stuck: expressions, statements, whole runs and tests.
#![tactic(auto)]

mod heap_laws;
mod stuck;
mod value_laws;

pub use heap_laws::{steps_law, vectors_law};
pub use stuck::{candidates_law, code_law, tests_law};
pub use value_laws::values_law;
