//! The slots of a problem and their domains, by number and never written out: the owner and the place of a slot, how many
//! values its domain has, and the value, and the object, at an index of it.
#![tactic(auto)]

mod classes;
mod entry;
mod item;
mod layout;
mod marks;
mod shape;
mod stretch;
mod tables;
mod values;

pub use classes::{ClassDomain, Spotted};
pub use item::DomainEntry;
pub use layout::{Layout, any_program_law};
pub use marks::{is_marked, mark};
pub use stretch::{Block, Chosen, Stretch};
pub use tables::{counted, further};
pub use values::Values;
