//! The rules on a finitization's domains: which types their keys require and whether values fit (S4), how many values there are
//! and whether one occurs twice (S5, S6), the root's predicate (S7), the method under test (S8), and keys of no slot (S9).
#![tactic(auto)]

mod bounds;
mod classes;
mod count;
mod entries;
mod fits;
mod key_types;
mod method_rules;
mod objects;
mod parameters;
mod slots;
mod spans;
mod twice;
mod unfit;
mod widths;

pub use bounds::{Bound, array_domain_of, bounds_of};
pub use classes::Classes;
pub use count::{note_if, note_numbers};
pub use entries::entries_of;
pub use method_rules::{note_method, note_predicate};
pub use objects::{Declared, declared_of, object_domain_of};
pub use parameters::{Parameter, instance_parameters};
pub use slots::note_slots;
pub use twice::has_twice;
pub use unfit::note_unfit;
pub use widths::{Keyed, width_asked};
