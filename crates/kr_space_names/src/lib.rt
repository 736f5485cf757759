//! The names of a finitization beside a program: the array types that its files name, by number; the faults that are met; and
//! rule S1: each name is a class's or an array type's.
#![tactic(auto)]

mod collected;
mod domains;
mod inside;
mod list;
mod meaning;
mod named;
mod names;
mod peeling;
mod unknown;
mod walk;
mod wrapping;
mod written;

pub use domains::{has_no_owner, is_elements, name_part, owner_part};
pub use inside::add_arrays_in;
pub use list::Arrays;
pub use meaning::{Meaning, class_of, meaning_of};
pub use named::array_types;
pub use names::item_of;
pub use unknown::note_names;
pub use written::{array_type, type_number};
