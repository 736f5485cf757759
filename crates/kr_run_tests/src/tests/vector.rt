// A vector, worked by hand.

use kr_vector::{Slot, Vector};
use std::test::Fail;

#[test]
fn indices(rt: HostRuntime) -> Result<(), Fail> {
    let mut vector = Vector::zero(rt.alloc(), 3)?;
    let zero = vector.indices() == [0, 0, 0].as_slice() && vector.len() == 3;
    vector.set(Slot(1), 7);
    vector.set(Slot(2), 9);
    vector.set(Slot(1), 8);
    let written = vector.indices() == [0, 8, 9].as_slice() && vector.len() == 3;
    let read = vector.get(Slot(2)) == 9;
    assert!(rt; zero && written && read);
    assert!(rt; Slot(1) == Slot(1));
    assert!(rt; Slot(1) != Slot(2));
    Ok(())
}
