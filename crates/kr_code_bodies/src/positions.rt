// Where objects have the field of a name.
ghost use Rattle.std.specs.Prelude.{IfOk, None, map};
ghost use Rattle.kr_code.specs.Tables.{row_items};
ghost use Rattle.kr_code_bodies.specs.Rows.{AreRows, IsRow};
ghost use Rattle.kr_code_bodies.specs.Tabled.{AreObjectFields, IsPosition, name_numbered};

use crate::field_lists::ObjectFields;
use kr_ast::Tree;
use kr_base::NoMemory;
use std::alloc::Global;

/// Where the objects of each class have the field of a name.
fn position_row(
    alloc: Global,
    trees: &[Tree],
    fields: &ObjectFields,
    name: &[u8],
) -> Result<Vec<Option<u32>>, NoMemory>
    requires { AreObjectFields trees.now fields.now }
    ensures { IfOk result (λ row. IsRow None (IsPosition trees.now name.now) row.items) }
{
    let mut row = Vec::new(alloc);
    for class in 0..fields.classes.len() as u32 {
        row.push(fields.position(trees, class, name))?;
    }
    Ok(row)
}

/// A row for each name.
pub(crate) fn positions(
    alloc: Global,
    trees: &[Tree],
    fields: &ObjectFields,
    names: &[Vec<u8>],
) -> Result<Vec<Vec<Option<u32>>>, NoMemory>
    requires { AreObjectFields trees.now fields.now }
    ensures { IfOk result (λ rows. AreRows None (λ k. IsPosition trees.now (name_numbered trees.now (map row_items names.now) k)) rows.items) }
{
    let mut rows = Vec::new(alloc);
    for name in names {
        rows.push(position_row(alloc, trees, fields, name)?)?;
    }
    Ok(rows)
}
