// Searches along the line of a class and its ancestors, nearest first.
ghost use Rattle.std.specs.Prelude.{◌≡◌, ◌++◌, List, Some, None, IfOk, IfSome, map, flat_map, All, option_map, option_to_list};
ghost use Rattle.kr_ast.specs.Arena.{Arena};
ghost use Rattle.kr_classes_table.specs.Table.{ancestors, field_named, field_on, fields_of, is_below, is_instance, line_of, line_within, method_named, method_on, own_fields};
ghost use Rattle.kr_classes_members.specs.Shown.{IsField, IsMethod, field_shown, method_shown, table_in};
ghost use Rattle.kr_classes_members.specs.Kept.{AreMembers};

use crate::fields::Field;
use crate::members::Members;
use crate::methods::Method;
use kr_base::{NoMemory, add_found};
use kr_classes_table::ClassId;
use std::alloc::Global;

/// A field that every object has.
fn instance_only(field: Field) -> Option<Field>
    ensures stands { (files : List Arena) → IsField files field → IfSome result (IsField files) }
    ensures shown { (files : List Arena) → option_to_list (option_map (field_shown files) result) ≡ is_instance (field_shown files field) }
{
    if field.is_static { None } else { Some(field) }
}

impl Members {
    /// Whether the second class is the first one or an ancestor of it.
    pub fn is_below(&self, class: ClassId, other: ClassId) -> bool
        ensures { (files : List Arena) → AreMembers files self.now → result ≡ is_below (table_in files) class other }
    {
        let mut at = Some(class);
        let steps = self.len() + 1;
        for step in 0..steps {
            match at {
                None => return false,
                Some(here) => {
                    if here == other {
                        return true;
                    }
                    at = self.superclass(here);
                }
            }
        }
        false
    }

    /// The field or constant of a name in the nearest class within `steps` classes upwards.
    fn field_upwards(&self, from: Option<ClassId>, steps: usize, name: &[u8]) -> Option<Field>
        ensures stands { (files : List Arena) → AreMembers files self.now → IfSome result (IsField files) }
        ensures shown { (files : List Arena) → AreMembers files self.now → option_map (field_shown files) result ≡ field_on (table_in files) (line_within steps (table_in files) from) name.now }
    {
        let mut at = from;
        for step in 0..steps {
            match at {
                None => return None,
                Some(here) => {
                    let found = self.own_field(here, name);
                    if found.is_some() {
                        return found;
                    }
                    at = self.superclass(here);
                }
            }
        }
        None
    }

    /// The field or constant of a name, the nearest on the line.
    pub fn field_named(&self, class: ClassId, name: &[u8]) -> Option<Field>
        ensures stands { (files : List Arena) → AreMembers files self.now → IfSome result (IsField files) }
        ensures shown { (files : List Arena) → AreMembers files self.now → option_map (field_shown files) result ≡ field_named (table_in files) class name.now }
    {
        self.field_upwards(Some(class), self.len() + 1, name)
    }

    /// The field or constant of a name that a class inherits.
    pub fn inherited_field(&self, class: ClassId, name: &[u8]) -> Option<Field>
        ensures stands { (files : List Arena) → AreMembers files self.now → IfSome result (IsField files) }
        ensures shown { (files : List Arena) → AreMembers files self.now → option_map (field_shown files) result ≡ field_on (table_in files) (ancestors (table_in files) class) name.now }
    {
        self.field_upwards(self.superclass(class), self.len(), name)
    }

    /// The method of a name in the nearest class within `steps` classes upwards.
    fn method_upwards(&self, from: Option<ClassId>, steps: usize, name: &[u8]) -> Option<Method>
        ensures stands { (files : List Arena) → AreMembers files self.now → IfSome result (IsMethod files) }
        ensures shown { (files : List Arena) → AreMembers files self.now → option_map (method_shown files) result ≡ method_on (table_in files) (line_within steps (table_in files) from) name.now }
    {
        let mut at = from;
        for step in 0..steps {
            match at {
                None => return None,
                Some(here) => {
                    let found = self.own_method(here, name);
                    if found.is_some() {
                        return found;
                    }
                    at = self.superclass(here);
                }
            }
        }
        None
    }

    /// The method of a name, the nearest on the line.
    pub fn method_named(&self, class: ClassId, name: &[u8]) -> Option<Method>
        ensures stands { (files : List Arena) → AreMembers files self.now → IfSome result (IsMethod files) }
        ensures shown { (files : List Arena) → AreMembers files self.now → option_map (method_shown files) result ≡ method_named (table_in files) class name.now }
    {
        self.method_upwards(Some(class), self.len() + 1, name)
    }

    /// The method of a name that a class inherits.
    pub fn inherited_method(&self, class: ClassId, name: &[u8]) -> Option<Method>
        ensures stands { (files : List Arena) → AreMembers files self.now → IfSome result (IsMethod files) }
        ensures shown { (files : List Arena) → AreMembers files self.now → option_map (method_shown files) result ≡ method_on (table_in files) (ancestors (table_in files) class) name.now }
    {
        self.method_upwards(self.superclass(class), self.len(), name)
    }

    /// A class and its ancestors.
    pub fn line(&self, alloc: Global, class: ClassId) -> Result<Vec<ClassId>, NoMemory>
        ensures { (files : List Arena) → AreMembers files self.now → IfOk result (λ line. line.items ≡ line_of (table_in files) class) }
    {
        let mut line = Vec::new(alloc);
        let mut at = Some(class);
        let steps = self.len() + 1;
        for step in 0..steps {
            match at {
                None => return Ok(line),
                Some(here) => {
                    line.push(here)?;
                    at = self.superclass(here);
                }
            }
        }
        Ok(line)
    }

    /// Adds the instance fields that a class declares itself.
    fn add_instance_fields(&self, class: ClassId, fields: &mut Vec<Field>) -> Result<(), NoMemory>
        ensures stands { (files : List Arena) → AreMembers files self.now → IfOk result (λ none. All (IsField files) fields.old.items → All (IsField files) fields.new.items) }
        ensures shown { (files : List Arena) → AreMembers files self.now → IfOk result (λ none. map (field_shown files) fields.new.items ≡ map (field_shown files) fields.old.items ++ flat_map is_instance (own_fields (table_in files) class)) }
    {
        for field in self.fields(class) {
            add_found(fields, instance_only(*field))?;
        }
        Ok(())
    }

    /// The instance fields of a class's objects, inherited ones first.
    pub fn fields_of(&self, alloc: Global, class: ClassId) -> Result<Vec<Field>, NoMemory>
        ensures stands { (files : List Arena) → AreMembers files self.now → IfOk result (λ fields. All (IsField files) fields.items) }
        ensures shown { (files : List Arena) → AreMembers files self.now → IfOk result (λ fields. map (field_shown files) fields.items ≡ fields_of (table_in files) class) }
    {
        let mut line = self.line(alloc, class)?;
        line.reverse();
        let mut fields = Vec::new(alloc);
        for here in line.iter() {
            self.add_instance_fields(*here, &mut fields)?;
        }
        Ok(fields)
    }
}
