// Where objects have a field that is stored.
ghost use Rattle.std.specs.Prelude.{IfOk, None};
ghost use Rattle.kr_code_bodies.specs.Vocabulary.{AreMembers, field_numbered, field_shown, IsField, IsRoster, table_in};
ghost use Rattle.kr_code_bodies.specs.Rows.{AreRows, IsRow};
ghost use Rattle.kr_code_bodies.specs.Tabled.{AreObjectFields, IsSpot};

use crate::field_lists::ObjectFields;
use kr_ast::{Tree, tree_of};
use kr_base::NoMemory;
use kr_classes_members::{Field, Members, Roster};
use kr_classes_table::ClassId;
use std::alloc::Global;

/// Where the objects of a class have a field: of the class that declares it, or of one below.
fn spot(
    trees: &[Tree],
    members: &Members,
    fields: &ObjectFields,
    field: Field,
    class: ClassId,
) -> Option<u32>
    requires members { AreMembers trees.now members.now }
    requires fields { AreObjectFields trees.now fields.now }
    requires field { IsField trees.now field }
    ensures { IsSpot trees.now (field_shown trees.now field) class result }
{
    if members.is_below(class, field.class) {
        fields.position(trees, class, tree_of(trees, field.file).name(field.name))
    } else {
        None
    }
}

/// Where the objects of each class have a field.
fn spot_row(
    alloc: Global,
    trees: &[Tree],
    members: &Members,
    fields: &ObjectFields,
    field: Field,
) -> Result<Vec<Option<u32>>, NoMemory>
    requires members { AreMembers trees.now members.now }
    requires fields { AreObjectFields trees.now fields.now }
    requires field { IsField trees.now field }
    ensures { IfOk result (λ row. IsRow None (IsSpot trees.now (field_shown trees.now field)) row.items) }
{
    let mut row = Vec::new(alloc);
    for class in 0..fields.classes.len() as u32 {
        row.push(spot(trees, members, fields, field, class))?;
    }
    Ok(row)
}

/// A row for each field.
pub(crate) fn spots(
    alloc: Global,
    trees: &[Tree],
    members: &Members,
    fields: &ObjectFields,
    roster: &Roster,
) -> Result<Vec<Vec<Option<u32>>>, NoMemory>
    requires members { AreMembers trees.now members.now }
    requires fields { AreObjectFields trees.now fields.now }
    requires roster { IsRoster trees.now roster.now }
    ensures { IfOk result (λ rows. AreRows None (λ k. IsSpot trees.now (field_numbered (table_in trees.now) k)) rows.items) }
{
    let mut rows = Vec::new(alloc);
    for field in roster.fields.iter() {
        rows.push(spot_row(alloc, trees, members, fields, *field)?)?;
    }
    Ok(rows)
}
