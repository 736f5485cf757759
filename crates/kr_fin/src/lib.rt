//! Reads a finitization: answers the document that its bytes are, or names the rule that they break first.
#![tactic(auto)]

mod document;
mod identifier;
mod judge;
mod laws;
mod least;
mod list;
mod reading;
mod refusal;
mod shapes;
mod text;

pub use document::{ArrayBound, Count, FinDoc, Item, NamedDomain};
pub use laws::{item_law, least_law};
pub use least::{Least, Ranked};
pub use list::Listed;
pub use reading::{MAX_FIN_BYTES, is_too_long, read_fin};
pub use refusal::{FinRefusal, FinRule};
pub use shapes::is_domain_name;
