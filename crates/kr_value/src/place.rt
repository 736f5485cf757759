// The places of a candidate's values.

use crate::object::Spot;
use crate::value::Obj;

/// A place for a value of a candidate: `this`, a parameter of the method under test, or a spot of an object of the
/// heap.
#[derive(Clone, Copy, PartialEq, Eq)]
pub enum SlotPlace {
    This,
    Parameter(u32),
    At(Obj, Spot),
}
