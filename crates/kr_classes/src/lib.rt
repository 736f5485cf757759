//! The class rules, and the class table of files that break none: what the names of classes mean, their members, the types
//! that nodes name, and the values of constants.
#![tactic(auto)]

mod class_table;
mod field_rules;
mod hierarchy;
mod member_rules;
mod method_rules;
mod name_rules;
mod overridden;
mod overriding;
mod places;
mod refusal;

pub use class_table::{ClassTable, classes};
pub use hierarchy::hierarchy_of;
pub use places::earlier;
pub use refusal::{ClassRefusal, ClassRule};
