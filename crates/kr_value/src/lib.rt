//! The values and objects of a run of the tested program. An object has a class and, at its spots, values; it is known
//! by its number in the heap.
#![tactic(auto)]

mod object;
mod place;
mod value;
mod width;

pub use object::{Class, Spot};
pub use place::SlotPlace;
pub use value::{Obj, Value};
pub use width::Width;
