// The next task.

use crate::{Change, Loop};
use kr_code::Nodes;
use kr_mean::{Flow, Kind};
use kr_run_state::{Action, Cell};
use kr_value::Value;

/// The next task of the machine.
#[derive(Clone, Copy)]
pub enum Task {
    /// A node as an expression.
    Evaluate(u32),
    /// A node as a statement.
    Execute(u32),
    /// A value is given.
    Got(Value),
    /// A statement has led on.
    Led(Flow),
    /// A step without a value is done.
    Done,
    Act(Action),
    /// A variable is changed from its value.
    Alter(Change, Cell, Value),
    /// The arguments for which the topmost frame waits: those that are left, one after another.
    Arguments,
    /// Statements.
    All(Nodes),
    /// Declarators.
    Declare(Nodes),
    /// Updates of a loop.
    Update(Nodes),
    Repeat(Loop),
    /// An object is thrown.
    Throw(Value),
    /// A trap of this kind is caught, by a clause with this block.
    Catch(Kind, u32),
    /// The initial values of fields.
    Initialise(Nodes, Value),
}
