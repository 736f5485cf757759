//! The code of a program: its tables (what depends on an object's class, of each name, field, method and type by number), and
//! the statements of its methods and constructors with what the fields of objects begin with.
#![tactic(auto)]

mod ancestor_lines;
mod bodies;
mod classes;
mod constructors;
mod dispatch;
mod field_lists;
mod fields;
mod instances;
mod methods;
mod positions;
mod spots;
mod tables;
mod trap_classes;
mod values;

pub use bodies::{Bodies, bodies_of};
pub use tables::Tables;
