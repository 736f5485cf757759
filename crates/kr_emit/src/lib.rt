//! Structures as Java code: one class with a static method for each row of a listing, which builds the row's structure; and the
//! problems for which that can be written.
#![tactic(auto)]

mod assignment;
mod class_name;
mod closing;
mod construction;
mod counted;
mod creation;
mod elements;
mod judging;
mod line;
mod listing;
mod literals;
mod making;
mod objects;
mod putting;
mod refusal;
mod texts;
mod types;
mod values;
mod writer;
mod writing;

pub use judging::buildable;
pub use listing::{build_alone, put_class_line};
pub use making::{Builder, ToBuilders};
pub use objects::objects_in;
pub use refusal::BuildRefusal;
pub use texts::{builder_front, builder_rest};
pub use writer::BuilderWriter;
