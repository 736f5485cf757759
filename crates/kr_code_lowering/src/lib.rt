//! From a typed program to its code: every name, type and call of a node is resolved to a number or a value, and the
//! tables say what depends on an object's class.
#![tactic(auto)]

mod access;
mod bodies;
mod calls;
mod catches;
mod coding;
mod constructors;
mod declarators;
mod expressions;
mod known;
mod links;
mod lists;
mod methods;
mod named;
mod names;
mod nodes;
mod numbering;
mod operators;
mod parameters;
mod plain;
mod site;
mod statements;
mod targets;
mod types;
mod writes;

pub use bodies::method_code;
pub use catches::caught_type;
pub use constructors::constructor_code;
pub use links::Links;
pub use lists::first_item;
pub use methods::called_on;
pub use names::Names;
pub use nodes::{ResolvedNodes, resolve_nodes};
pub use numbering::NodeNumbers;
pub use site::Site;
pub use types::default_value;
