// Members of two classes by number.

use kr_base::NoMemory;
use kr_classes_members::{Members, Roster};
use std::alloc::Global;

fn numbers_fit(roster: &Roster, members: &Members) -> bool {
    roster.fields.len() == 2
        && roster.methods.is_empty()
        && roster.field_named(members, 1, b"first") == Some(0)
        && roster.field_named(members, 1, b"second") == Some(1)
        && roster.field_named(members, 0, b"second").is_none()
        && roster.method_named(members, 1, b"first").is_none()
}

/// Inherited fields keep their numbers.
pub fn fit(alloc: Global, members: &Members) -> Result<bool, NoMemory> {
    let roster = Roster::read(alloc, members)?;
    Ok(numbers_fit(&roster, members))
}
