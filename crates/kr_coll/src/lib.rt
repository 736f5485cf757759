//! The library's collections, `HashSet` and `LinkedList`: each is lent the members of one collection of a heap, and is
//! exactly a set, or a list, of identities.
#![tactic(auto)]

mod laws;
mod list;
mod search;
mod set;

pub use laws::set_law;
pub use list::ListObj;
pub use search::has_member;
pub use set::SetObj;
