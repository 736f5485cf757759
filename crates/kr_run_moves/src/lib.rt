//! The machine's moves that enter no method and make no object: the next task where an expression or a statement is entered,
//! where a frame receives a value or a statement's end, and in lists of nodes. Each keeps the outcome of the whole run.
#![tactic(auto)]

mod catches;
mod expressions;
mod flows;
mod lists;
mod pushes;
mod reads;
mod statements;
mod values;
mod variables;

pub use catches::{enter_catch, throw_from};
pub use expressions::enter_node;
pub use flows::take_flow;
pub use lists::{all, declare, repeat, update};
pub use pushes::{await_arguments, push, unit, value, write};
pub use statements::enter_statement;
pub use values::{feed, stop, take_test, take_value};
pub use variables::step_operation;
