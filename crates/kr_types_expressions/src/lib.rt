//! The notes of expressions, from those of their parts, and the rules on creations and names that need more than those
//! of `kr_types_judging`.
#![tactic(auto)]

mod accesses;
mod calls;
mod choices;
mod constructors;
mod contracts;
mod creations;
mod elements;
mod leaves;
mod lists;
mod names;
mod note_list;
mod operators;
mod parts;

pub use accesses::field_note;
pub use calls::{call_note, method_call_note, super_call_note};
pub use choices::{choice_note, condition_note};
pub use constructors::{array_creation_note, constructor_call_note, creation_note};
pub use contracts::{contract_note, old_note};
pub use creations::implied_rule;
pub use elements::element_note;
pub use leaves::{jump_note, long_number_note, null_note, number_note, truth_note};
pub use lists::{absent_note, list_note, value_types};
pub use names::{class_of, this_note, variable_note};
pub use note_list::NoteList;
pub use operators::{binary_note, cast_note, instance_note, unary_note};
pub use parts::part_type;
