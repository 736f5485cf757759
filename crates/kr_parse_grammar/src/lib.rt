//! The grammar: which tree a list of tokens derives, and the table by which a machine takes the tokens one by one.
#![tactic(auto)]

mod declarations;
mod enclosed;
mod expressions;
mod goal;
mod operators;
mod rules;
mod statements;
mod terminal;
mod value;

pub use goal::{Goal, Make, Spelled, Symbol};
pub use operators::{Infix, after_operand};
pub use rules::rule;
pub use terminal::{Terminal, terminal_of};
pub use value::{Form, Modifiers, Tag};
