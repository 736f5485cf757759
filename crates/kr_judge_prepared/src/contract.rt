// The contract of the method under test, as nodes of code.

use kr_base::Place;
use kr_classes_table::MethodId;
use kr_judge::Predicate;

/// An `\old` of a condition: the place of its node, the node of what it holds, and whether the thrown object has a name there.
#[derive(Clone, Copy)]
pub struct OldCode {
    pub place: Place,
    pub operand: u32,
    pub is_named: bool,
}

/// A `signals` clause: the class, as a type, whether the object has a name, and the condition.
#[derive(Clone, Copy)]
pub struct SignalCode {
    pub caught: u32,
    pub is_named: bool,
    pub condition: u32,
}

/// A method under test by its number in the code, the `\old`s of its conditions after the body in source order, its
/// postconditions, and its `signals` clauses.
#[derive(Drop)]
pub struct Contract {
    pub method: MethodId,
    pub olds: Vec<OldCode>,
    pub postconditions: Vec<u32>,
    pub signals: Vec<SignalCode>,
}

/// The code of a problem's predicate, and the contract of its method under test, where one is tested.
#[derive(Drop)]
pub struct ProblemCode {
    pub predicate: Predicate,
    pub contract: Option<Contract>,
}
