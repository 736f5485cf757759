//! Laws of trees that the grammar derives, whatever the tokens: their shapes; the types of expressions, and which; types depend neither on loops nor on a field's initial value, so that they are those by which the code runs.
#![tactic(auto)]

mod derivation;
mod having_types;
mod running;
mod which_types;

pub use derivation::shape_law;
pub use having_types::typed_law;
pub use running::{loops_law, running_law};
pub use which_types::expressions_law;
