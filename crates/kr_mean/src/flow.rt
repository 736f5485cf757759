// The end of a statement.

use kr_value::Value;

/// Where a statement leads: on, out of a loop or to its next round, or out of the body, which may give a value.
#[derive(Clone, Copy)]
pub enum Flow {
    Next,
    Broke,
    Continued,
    Left,
    Gave(Value),
}
