//! Splits a source into tokens, each with its place, or reports the first lexical rule that it breaks.
#![tactic(auto)]

mod characters;
mod contract;
mod cursor;
mod fixed;
mod gaps;
mod kind;
mod laws;
mod lexer;
mod piece;
mod progress;
mod refusal;
mod table;
mod token;
mod words;

pub use kind::Kind;
pub use laws::{one_list_law, unbroken_law};
pub use lexer::lex;
pub use refusal::{LexRefusal, LexRule};
pub use table::spelling;
pub use token::{Token, Tokens};
