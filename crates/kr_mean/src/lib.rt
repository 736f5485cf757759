//! The meaning of a listing: the meaning of the language, problems with their candidates, the predicate's run, verdicts, and
//! all entries of a problem, one for each class of isomorphic candidates. The definitions are in `specs/`. The types of
//! requests, of rows and of the ends of statements and runs are here too, and the machine uses them.
#![tactic(auto)]

mod flow;
mod kind;
mod mode;
mod operations;
mod row;

pub use flow::Flow;
pub use kind::{Kind, Stop, Verdict};
pub use mode::{MethodName, Mode};
pub use operations::{BinaryOperation, StepOperation, UnaryOperation};
pub use row::{Row, Structure};
