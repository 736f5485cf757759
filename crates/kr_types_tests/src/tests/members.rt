// A class with a field, and one below it.

use kr_base::NoMemory;
use kr_classes_members::{Field, Members};
use std::alloc::Global;

/// The fields are those of the two classes, in the expected columns.
fn fields_fit(fields: &[Field]) -> bool {
    match fields {
        [first, second] => {
            first.class == 0 && first.place.col == 35 && second.class == 1 && second.place.col == 35
        }
        _ => false,
    }
}

/// The meaning of the names `first` and `second` there.
fn names_fit(members: &Members) -> bool {
    match members.field_meant(1, b"first") {
        None => false,
        Some(field) => {
            field.class == 0
                && members.field_meant(0, b"second").is_none()
                && members.method_named(1, b"first").is_none()
        }
    }
}

/// `Higher` with a field `first`, and below it `Deeper` with a field `second`.
pub fn fit(alloc: Global, members: &Members) -> Result<bool, NoMemory> {
    let line = members.line(alloc, 1)?;
    let fields = members.fields_of(alloc, 1)?;
    Ok(
        members.len() == 2
            && members.superclass(1) == Some(0)
            && line.as_slice() == [1, 0].as_slice()
            && fields_fit(fields.as_slice())
            && names_fit(members),
    )
}
