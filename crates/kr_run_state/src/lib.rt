//! The state of a run of code, and the steps on it, each exactly a step of the language's meaning: `this` and the locals, the
//! heap, the fuel that is left, and the places of candidates that were read, each once, in the order of their first reads.
#![tactic(auto)]

mod action;
mod collections;
mod memory;
mod names;
mod operators;
mod reads;
mod thrown;
mod world;

pub use action::{Action, Cell, act};
pub use collections::{collect, size_value};
pub use kr_base::NoMemory;
pub use memory::{
    class_of, element, index_below, load_named, made_number, new_object, store_initial,
};
pub use names::{add_local, assign, declare, read_local, tick};
pub use operators::{alone, binary, operated, operated_alone};
pub use reads::Reads;
pub use thrown::{take, throw};
pub use world::{Halt, Local, Old, World, ended};
