//! Which choices of a search lead to the least candidate of each class: of each class domain only objects that already occur on
//! the path, and the next unused one.
#![tactic(auto)]

mod choice;
mod laws;
mod limits;
mod object;
mod slots;

pub use choice::next_choice;
pub use laws::choice_law;
pub use limits::reach;
pub use object::Object;
pub use slots::Slots;
