//! The notes of types, assignments, statements and declarations, from those of their parts.
#![tactic(auto)]

mod classes;
mod conditions;
mod declarators;
mod parts;
mod plain;
mod results;
mod throws;
mod types;
mod writes;

pub use classes::{class_note, constructor_note};
pub use conditions::{for_note, if_else_note, if_then_note};
pub use declarators::{declarator_note, parameter_note};
pub use plain::{one_part_note, three_parts_note, two_parts_note};
pub use results::{result_note, return_note};
pub use throws::{catch_note, signals_note, throw_note};
pub use types::{array_type_note, diamond_type_note, generic_type_note, named_type_note};
pub use writes::{assignment_note, compound_note, step_note};
