//! A method run on values in a heap, and an expression of its contract evaluated there, exactly as the program means them: how
//! the run ends, and the heap and the fuel that it leaves.
#![tactic(auto)]

mod cost_laws;
mod evaluating;
mod executed;
mod laws;
mod result_laws;
mod run;

pub use cost_laws::{cost_law, value_cost_law};
pub use evaluating::evaluate;
pub use executed::{Env, Executed, Method};
pub use laws::{evaluated_spent_law, spent_law};
pub use result_laws::{runs_law, typed_law};
pub use run::{call, execute, value_of};
