// The predicate of a problem as code.

use kr_code::Code;

/// A program's code, and the nodes of what has to hold: `this.repOk()`, and then each precondition of the method under test.
#[derive(Drop)]
pub struct Predicate {
    pub code: Code,
    pub conditions: Vec<u32>,
}
