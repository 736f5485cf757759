//! No run of an accepted program is stuck: what the class rules, the typing rules and the rules of a finitization give of whole
//! programs, and that the laws on runs require no more.
#![tactic(auto)]

mod class_rules;
mod contract_laws;
mod domain_types;
mod never_stuck;
mod places;
mod well_typed;

pub use class_rules::class_rules_law;
pub use contract_laws::contracts_law;
pub use domain_types::domain_types_law;
pub use never_stuck::never_stuck_law;
pub use places::{apart_law, fields_law};
pub use well_typed::{runs_law, well_typed_programs_law};
