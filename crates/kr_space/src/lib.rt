//! Judges a finitization beside a program: the least broken rule, and there the least item; or poses the problem that they are.
#![tactic(auto)]

mod array_domains;
mod arrays;
mod basis;
mod bounded;
mod domains;
mod elements;
mod given;
mod judge;
mod keys;
mod laws;
mod layout;
mod lengths;
mod numbers;
mod object_domains;
mod parameters;
mod places;
mod posing;
mod root;
mod sizes;
mod slots;
mod undefined;
mod whole;

pub use judge::judge_space;
pub use laws::limits_law;
pub use posing::problem;
