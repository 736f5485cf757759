//! Which problem a program, a finitization and a mode have, and which rules they break: definitions, with their laws and
//! small problems worked by hand.
#![tactic(auto)]

mod laws;
mod refusal;

pub use laws::{least_law, well_formed_law, worked_problems, worked_refusals};
pub use refusal::{SpaceRefusal, SpaceRule};
