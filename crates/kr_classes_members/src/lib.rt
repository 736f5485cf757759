//! The members of classes: of each class its own fields and constants, methods and constructors, by the nodes of their
//! trees, and what names mean in a class and on the line of its ancestors.
#![tactic(auto)]

mod fields;
mod lines;
mod meant;
mod members;
mod methods;
mod queries;
mod read;
mod roster;

pub use fields::Field;
pub use members::Members;
pub use methods::{Constructor, Method};
pub use roster::Roster;
