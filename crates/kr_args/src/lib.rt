//! Parses the words of a command line into a command, by `clap` and one definition of the command line.
#![tactic(auto)]

mod asking;
mod definition;
pub mod forms;
mod values;

pub use asking::command;
