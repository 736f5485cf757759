// The fields of each class's objects.
ghost use Rattle.std.specs.Prelude.{◌≡◌, List, [], IfOk};
ghost use Rattle.std.proofs.Common.{get_or};
ghost use Rattle.kr_ast.specs.Arena.{Arena};
ghost use Rattle.kr_classes_members.specs.Kept.{AreMembers, class_count};
ghost use Rattle.kr_judge_prepared.specs.Fields.{AreFieldsOf, rows_of};

use kr_base::NoMemory;
use kr_classes_members::{Field, Members};
use kr_classes_table::ClassId;
use std::alloc::Global;

/// The fields of so many classes.
fn fields_before(alloc: Global, members: &Members, count: u32) -> Result<Vec<Vec<Field>>, NoMemory>
    requires { count ≡ class_count members.now }
    ensures { (files : List Arena) → AreMembers files members.now → IfOk result (λ rows. AreFieldsOf files (rows_of rows.items)) }
{
    let mut rows = Vec::new(alloc);
    for class in 0..count {
        let row = members.fields_of(alloc, class)?;
        rows.push(row)?;
    }
    Ok(rows)
}

/// The fields of each class's objects, inherited ones first.
pub(crate) fn fields_of_classes(
    alloc: Global,
    members: &Members,
) -> Result<Vec<Vec<Field>>, NoMemory>
    ensures { (files : List Arena) → AreMembers files members.now → IfOk result (λ rows. AreFieldsOf files (rows_of rows.items)) }
{
    let count = members.len();
    let Ok(classes) = u32::try_from(count) else {
        return Err(members.at_limit());
    };
    fields_before(alloc, members, classes)
}

/// Those of one class; none of what is no class.
pub(crate) fn fields_at(rows: &[Vec<Field>], class: ClassId) -> &[Field]
    ensures { result.now ≡ get_or (rows_of rows.now) class [] }
{
    match rows.get(class as usize) {
        None => &[],
        Some(fields) => fields.as_slice(),
    }
}
