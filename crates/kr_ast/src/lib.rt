//! Syntax trees, stored as lists of nodes, each after its parts.
#![tactic(auto)]

mod entry_list;
mod files;
mod forest;
mod node;
mod parts;
mod shapes;
mod short_entry;
mod tree;

pub use files::{NodeId, tree_of};
pub use forest::Forest;
pub use node::{BinaryOperator, Entry, Name, Node, Primitive, StepOperator, UnaryOperator};
pub use parts::{Names, Parts};
pub use tree::Tree;
