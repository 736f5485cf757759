//! The whole tool as one call.
#![tactic(auto)]

mod alone;
mod check;
mod find;
mod given;
mod laws;
mod merge;
mod report;
mod search;
mod stop;
mod top;
mod trace;
mod upgrade;

pub use alone::Alone;
pub use given::{NoWords, start, words_of};
pub use laws::one_answer;
pub use search::run_shared;
pub use top::{run, run_alone};
