//! Rows of a report, put into a sink. Nothing here takes memory.
#![tactic(auto)]

mod front;
mod laws;
mod names;
mod objects;
mod parameters;
mod parts;
mod places;
mod rows;
mod values;

pub use laws::{worked_law, written_law};
pub use places::{class_of, numbered, place_of};
pub use rows::{row_text, structure_text};
