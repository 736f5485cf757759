//! Carries a finitization of version 1 over to version 2, and writes it as TOML.
#![tactic(auto)]

mod carrying;
mod laws;
mod lines;
mod tables;
mod writing;

pub use carrying::{UpgradeRefusal, upgrade};
pub use laws::{read_law, upgrade_law, worked_law, written_law};
