//! The reductions of the values on top of the parser's stack: for each kind of production, the values that it takes and
//! the node or values that replace them.
#![tactic(auto)]

mod moves;
mod operators;
mod plan;
mod value;
mod way;

pub use moves::{Move, move_of};
pub use plan::{Plan, below, lower, plan_of, single, staying, tree, type_node, upper};
pub use value::{Kept, Sort, ValueStack};
pub use way::{Way, sorts_of, way_of};
