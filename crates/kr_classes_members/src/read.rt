// The roster of the classes' members.
ghost use Rattle.std.specs.Prelude.{◌≡◌, ◌<◌, List, IfOk, length, map, All};
ghost use Rattle.kr_ast.specs.Arena.{Arena};
ghost use Rattle.kr_classes_members.specs.Shown.{IsField, IsMethod, field_shown, method_shown, table_in};
ghost use Rattle.kr_classes_members.specs.Kept.{AreMembers, class_count};
ghost use Rattle.kr_classes_members.specs.Rosters.{AreFirst, IsRoster, all_fields, all_methods, fields_of_class, methods_of_class};

use crate::roster::Roster;
use crate::{Field, Members, Method};
use kr_base::NoMemory;
use std::alloc::Global;

/// Fields, with the number of each class's first.
#[derive(Drop)]
struct Fields {
    all: Vec<Field>,
    first: Vec<u32>,
}

/// Methods, with the number of each class's first.
#[derive(Drop)]
struct Methods {
    all: Vec<Method>,
    first: Vec<u32>,
}

/// How many there are, if it is below 2^32 - 1.
fn counted<T>(items: &[T]) -> Result<u32, NoMemory>
    ensures { IfOk result (λ number. (number ≡ length items.now) × (number < 4294967295)) }
{
    let count = items.len();
    if count >= 0xffff_ffff {
        return Err(NoMemory::at_limit(items));
    }
    Ok(count as u32)
}

fn all_fields(alloc: Global, members: &Members) -> Result<Fields, NoMemory>
    requires { class_count members.now < 4294967295 }
    ensures few { IfOk result (λ r. length r.all.items < 4294967295) }
    ensures count { IfOk result (λ r. length r.first.items ≡ class_count members.now) }
    ensures stands { (files : List Arena) → AreMembers files members.now → IfOk result (λ r. All (IsField files) r.all.items) }
    ensures shown { (files : List Arena) → AreMembers files members.now → IfOk result (λ r. map (field_shown files) r.all.items ≡ all_fields (table_in files)) }
    ensures first { (files : List Arena) → AreMembers files members.now → IfOk result (λ r. AreFirst fields_of_class (table_in files) r.first.items) }
{
    let mut all = Vec::new(alloc);
    let mut first = Vec::new(alloc);
    let count = members.len() as u32;
    for class in 0..count {
        first.push(counted(all.as_slice())?)?;
        all.extend_from_slice(members.fields(class))?;
    }
    counted(all.as_slice())?;
    Ok(Fields { all, first })
}

fn all_methods(alloc: Global, members: &Members) -> Result<Methods, NoMemory>
    requires { class_count members.now < 4294967295 }
    ensures few { IfOk result (λ r. length r.all.items < 4294967295) }
    ensures count { IfOk result (λ r. length r.first.items ≡ class_count members.now) }
    ensures stands { (files : List Arena) → AreMembers files members.now → IfOk result (λ r. All (IsMethod files) r.all.items) }
    ensures shown { (files : List Arena) → AreMembers files members.now → IfOk result (λ r. map (method_shown files) r.all.items ≡ all_methods (table_in files)) }
    ensures first { (files : List Arena) → AreMembers files members.now → IfOk result (λ r. AreFirst methods_of_class (table_in files) r.first.items) }
{
    let mut all = Vec::new(alloc);
    let mut first = Vec::new(alloc);
    let count = members.len() as u32;
    for class in 0..count {
        first.push(counted(all.as_slice())?)?;
        all.extend_from_slice(members.methods(class))?;
    }
    counted(all.as_slice())?;
    Ok(Methods { all, first })
}

impl Roster {
    /// The fields and methods of the classes. Fails when out of memory, or at 2^32 - 1 of them.
    pub fn read(alloc: Global, members: &Members) -> Result<Roster, NoMemory>
        ensures { (files : List Arena) → AreMembers files members.now → IfOk result (λ roster. IsRoster files roster) }
    {
        counted(members.classes.as_slice())?;
        let fields = all_fields(alloc, members)?;
        let methods = all_methods(alloc, members)?;
        Ok(Roster {
            fields: fields.all,
            methods: methods.all,
            first_fields: fields.first,
            first_methods: methods.first,
        })
    }
}
