//! Resolved code: what a machine runs. Every name, type and call of a node is resolved to a number or a value, so that
//! nothing is looked up in a scope and no text is compared while code runs. What depends on an object's class, as the place of
//! a field or the method that is run, is a lookup in a table. `specs/` defines each node by its parts, by
//! the very steps of the language's meaning, and when code is that of a program.
#![tactic(auto)]

mod code;
mod collections;
mod expression;
mod lookups;
mod statement;
mod thrown;

pub use code::{ClassCode, Code, Constructor, Initialiser, MethodCode, Node};
pub use collections::CollectionCall;
pub use expression::{Callee, Expression, Nodes, Variable};
pub use statement::{Catch, Declarator, Statement};
