//! The search: the least candidates of their classes above a cut, one after another, each run once.
#![tactic(auto)]

mod candidates;
mod laws;
mod path;
mod search;
mod seeking;
mod span_search;
mod stage;
mod turning;

pub use candidates::{Candidate, Ending};
pub use laws::first_law;
pub use search::Search;
pub use span_search::SpanSearch;
pub use stage::Next;
