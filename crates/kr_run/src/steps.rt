// The result of a step.

use kr_value::Value;

/// The result of a step.
#[derive(Clone, Copy)]
pub enum Step {
    /// A task comes next.
    More,
    Finished(Value),
}
