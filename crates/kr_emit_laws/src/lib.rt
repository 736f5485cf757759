//! Laws of builders: their text has tokens and a tree; beside the sources it breaks no rule; and a call of one gives the root of its structure, and leaves the structure's objects in the heap.
#![tactic(auto)]

mod laws;
mod text_laws;
mod typing_laws;

pub use laws::{builders_law, run_law, worked_calls};
pub use text_laws::{
    emitted_law, lengths_law, printable_law, printed_law, read_law, text_law, writable_law,
};
pub use typing_laws::{beside_law, fit_law, methods_law, one_more_law};
