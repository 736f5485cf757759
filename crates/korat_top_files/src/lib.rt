//! The files of a call: read, and judged up to the problem that they pose, or to what refuses them.
#![tactic(auto)]

mod built;
mod find;
mod laws;
mod refusal;
mod refused;
mod rules;
mod sources;
mod upgrade;

pub use built::find_built;
pub use find::{find_demo, find_files, find_test};
pub use laws::one_outcome;
pub use refusal::{InputFile, Refusal, Stop};
pub use refused::{put_refused, status_of};
pub use rules::{CallRule, ItemRule, SourceRule};
pub use upgrade::find_upgrade;
