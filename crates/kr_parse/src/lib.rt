//! Parses the tokens of a source: returns the tree that the grammar derives, or reports the first token with which no
//! derivable file continues.
#![tactic(auto)]

mod cursor;
mod laws;
mod parser;
mod refusal;
mod stack;

pub use laws::one_refusal_law;
pub use parser::parse;
pub use refusal::{ParseRefusal, ParseRule};
