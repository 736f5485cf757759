//! The scope of each node of a tree: its class and method, the locals declared before it, and the rest of the context
//! that the typing rules need. Nothing is looked up: a class and a type are kept as nodes.
#![tactic(auto)]

mod after;
mod bindings;
mod change;
mod hand;
mod laws;
mod lookup;
mod newest;
mod node_scopes;
mod scopes;
mod starts;
mod stay;
mod tasks;
mod within;
mod within_list;

pub use laws::{judged_law, local_law};
pub use lookup::LocalFound;
pub use node_scopes::NodeScopes;
pub use scopes::Scopes;
pub use within::{Declaring, Part, Role, Within};
