//! The rest of a machine's run: the next task, and the frames that wait for its result. `specs/` defines which outcome of the
//! whole run a task, the frames and a world mean.
#![tactic(auto)]

mod frame;
mod room;
mod stack;
mod task;

pub use frame::{
    Change, FlowFrame, Goal, Loop, TestFrame, UnitFrame, Up, ValueFrame, Waiting, WriteFrame,
};
pub use stack::Stack;
pub use task::Task;
