// Which classes and arrays are instances of a type.
ghost use Rattle.std.specs.Prelude.{◌≡◌, ◌<◌, ℕ, List, IfOk, All, None, false, map};
ghost use Rattle.kr_code_bodies.specs.Vocabulary.{AreMembers, Arena, count, is_below, is_numbered, JavaType, table_in, type_at};
ghost use Rattle.kr_code_bodies.specs.Rows.{AreRows, IsRow};
ghost use Rattle.kr_code_bodies.specs.Tabled.{IsArrayType, IsInstance, are_of};

use kr_base::NoMemory;
use kr_classes_members::Members;
use kr_classes_names::{TypeForm, Types};
use kr_classes_table::{ClassId, TypeId};
use std::alloc::Global;

/// Of each class whether it is the given one or below it. The given one has a column, though no class may have the number.
fn heirs(alloc: Global, members: &Members, class: ClassId) -> Result<Vec<bool>, NoMemory>
    ensures { (files : List Arena) → AreMembers files members.now → IfOk result (λ row. IsRow false (λ c b. b ≡ is_below (table_in files) c class) row.items) }
{
    let count = members.len();
    if count > 0xffff_ffff {
        return Err(members.at_limit());
    }
    let columns = count.max(class as usize + 1);
    let mut row = Vec::new(alloc);
    for column in 0..columns {
        row.push(members.is_below(column as u32, class))?;
    }
    Ok(row)
}

/// Of each class whether its objects are of a type.
#[tactic(auto, using(crate::proofs::Rows::no_row, crate::proofs::Forms::class_row, crate::proofs::Forms::no_class_row))]
fn instance_row(
    alloc: Global,
    members: &Members,
    types: &Types,
    number: TypeId,
) -> Result<Vec<bool>, NoMemory>
    requires { number < count types.now }
    ensures { (files : List Arena) (arrays : List JavaType) → AreMembers files members.now → IfOk result (λ row. IsRow false (IsInstance files arrays (type_at types.now number)) row.items) }
{
    match types.form(number) {
        TypeForm::Class(class) => heirs(alloc, members, class),
        _ => Ok(Vec::new(alloc)),
    }
}

/// A row for each type.
pub(crate) fn instances(
    alloc: Global,
    members: &Members,
    types: &Types,
) -> Result<Vec<Vec<bool>>, NoMemory>
    ensures { (files : List Arena) (arrays : List JavaType) → AreMembers files members.now → IfOk result (λ rows. AreRows false (λ k. IsInstance files arrays (type_at types.now k)) rows.items) }
{
    let count = types.len();
    if count > 0xffff_ffff {
        return Err(types.at_limit());
    }
    let mut rows = Vec::new(alloc);
    for number in 0..count as u32 {
        rows.push(instance_row(alloc, members, types, number)?)?;
    }
    Ok(rows)
}

/// The number of an array type; there are no arrays of any other.
fn array_type(types: &Types, number: TypeId) -> Option<TypeId>
    requires { number < count types.now }
    ensures { (t : ℕ) → is_numbered t result ≡ are_of (type_at types.now number) (type_at types.now t) }
{
    types.distinct_law();
    match types.form(number) {
        TypeForm::Array(_) => Some(number),
        _ => None,
    }
}

/// Of each class of arrays the type that they are instances of.
pub(crate) fn array_types(
    alloc: Global,
    types: &Types,
    arrays: &[TypeId],
) -> Result<Vec<Option<TypeId>>, NoMemory>
    requires { All (λ t. t < count types.now) arrays.now }
    ensures { (files : List Arena) → IfOk result (λ found. IsRow None (IsArrayType files types.now (map (type_at types.now) arrays.now)) found.items) }
{
    let mut found = Vec::with_capacity(alloc, arrays.len())?;
    for array in arrays {
        found.push(array_type(types, *array))?;
    }
    Ok(found)
}
