//! Names of classes and types by number: the classes that the sources declare, and each type that the sources name or that typing makes of these.
#![tactic(auto)]

mod class_names;
mod form;
mod headings;
mod lists;
mod names;
mod numbers;
mod spellings;
mod types;

pub use class_names::{Heads, superclasses};
pub use form::TypeForm;
pub use headings::Heading;
pub use lists::items;
pub use names::Index;
pub use numbers::{NodeTypes, type_of_name};
pub use spellings::Spellings;
pub use types::Types;
