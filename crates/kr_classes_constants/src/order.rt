// The constants of all classes in file and source order.
ghost use Rattle.std.specs.Prelude.{◌≡◌, ◌++◌, List, IfOk, IfSome, map, flat_map, All, option_map, option_to_list};
ghost use Rattle.kr_ast.specs.Arena.{Arena};
ghost use Rattle.kr_classes_table.specs.Table.{own_fields};
ghost use Rattle.kr_classes_table.specs.Constants.{constant_only, constants_in, in_order};
ghost use Rattle.kr_classes_members.specs.Kept.{AreMembers};
ghost use Rattle.kr_classes_members.specs.Shown.{IsField, field_shown, table_in};
ghost use Rattle.kr_classes_constants.specs.Outcomes.{constant_listed};

use kr_base::NoMemory;
use kr_classes_members::{Field, Members};
use kr_classes_table::ClassId;
use std::alloc::Global;

/// A field that is a constant.
fn constant_in(field: &Field) -> Option<Field>
    ensures stands { (files : List Arena) → IsField files field.now → IfSome result (IsField files) }
    ensures shown { (files : List Arena) → option_map (field_shown files) result ≡ constant_only (field_shown files field.now) }
{
    if field.is_static { Some(*field) } else { None }
}

/// Adds the constant that was found, if any.
fn add_found(constants: &mut Vec<Field>, found: Option<Field>) -> Result<(), NoMemory>
    ensures { IfOk result (λ none. constants.new.items ≡ constants.old.items ++ option_to_list found) }
{
    match found {
        None => Ok(()),
        Some(constant) => {
            constants.push(constant)?;
            Ok(())
        }
    }
}

/// Adds the constants that a class declares itself.
fn add_constants(
    members: &Members,
    class: ClassId,
    constants: &mut Vec<Field>,
) -> Result<(), NoMemory>
    ensures stands { (files : List Arena) → AreMembers files members.now → IfOk result (λ none. All (IsField files) constants.old.items → All (IsField files) constants.new.items) }
    ensures shown { (files : List Arena) → AreMembers files members.now → IfOk result (λ none. map (field_shown files) constants.new.items ≡ map (field_shown files) constants.old.items ++ flat_map constant_listed (own_fields (table_in files) class)) }
{
    for field in members.fields(class) {
        add_found(constants, constant_in(field))?;
    }
    Ok(())
}

/// The constants of all classes, class by class.
fn all_constants(alloc: Global, members: &Members) -> Result<Vec<Field>, NoMemory>
    ensures stands { (files : List Arena) → AreMembers files members.now → IfOk result (λ constants. All (IsField files) constants.items) }
    ensures shown { (files : List Arena) → AreMembers files members.now → IfOk result (λ constants. map (field_shown files) constants.items ≡ flat_map constants_in (table_in files).classes) }
{
    let classes = members.len();
    if classes > 0xffff_ffff {
        return Err(members.at_limit());
    }
    let mut constants = Vec::new(alloc);
    for class in 0..classes as u32 {
        add_constants(members, class, &mut constants)?;
    }
    Ok(constants)
}

/// Sorts fields by the places of their names. Of two at one place the later one comes first.
fn sort(fields: &mut Vec<Field>) -> Result<(), NoMemory>
    ensures stands { (files : List Arena) → IfOk result (λ none. All (IsField files) fields.old.items → All (IsField files) fields.new.items) }
    ensures shown { (files : List Arena) → IfOk result (λ none. map (field_shown files) fields.new.items ≡ in_order (map (field_shown files) fields.old.items)) }
{
    fields.reverse();
    fields.sort_by_key(|f| (f.place.file, f.place.line, f.place.col))?;
    Ok(())
}

/// The constants of all classes in file and source order.
pub(crate) fn ordered_constants(alloc: Global, members: &Members) -> Result<Vec<Field>, NoMemory>
    ensures stands { (files : List Arena) → AreMembers files members.now → IfOk result (λ constants. All (IsField files) constants.items) }
    ensures shown { (files : List Arena) → AreMembers files members.now → IfOk result (λ constants. map (field_shown files) constants.items ≡ in_order (flat_map constants_in (table_in files).classes)) }
{
    let mut constants = all_constants(alloc, members)?;
    sort(&mut constants)?;
    Ok(constants)
}
