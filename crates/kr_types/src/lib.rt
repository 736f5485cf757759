//! The typing rules on whole programs: the note of each node of each file, and whether a rule is broken.
#![tactic(auto)]

mod context;
mod contracts;
mod expressions;
mod files;
mod group;
mod growing;
mod lists;
mod meaning_list;
mod meanings;
mod nodes;
mod notes;
mod program;
mod refusal;
mod resolved;
mod site;
mod statements;
mod throws;
mod types;

pub use files::check;
pub use meaning_list::MeaningList;
pub use program::{Program, TypedFile};
pub use refusal::TypeRefusal;
