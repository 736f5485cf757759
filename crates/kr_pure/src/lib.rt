//! All code that the predicate may run, found by a walk over the nodes of the program's files, and whether some of it touches
//! candidates (I1).
#![tactic(auto)]

mod conditions;
mod entries;
mod found;
mod laws;
mod members;
mod node_list;
mod purity;
mod reaching;
mod roots;

pub use found::{Found, count_nodes};
pub use laws::{
    all_law, expression_law, expressions_law, maybe_law, statements_law, super_law, walk_law,
};
pub use node_list::NodeList;
pub use purity::{PureRefusal, pure};
pub use reaching::predicate_nodes;
