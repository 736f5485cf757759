// The meaning of names in the code of a class that no local has (Java Language Specification 6.5).
ghost use Rattle.std.specs.Prelude.{◌≡◌, List, Some, None, IfSome, option_and_then, option_map};
ghost use Rattle.kr_ast.specs.Arena.{Arena};
ghost use Rattle.kr_classes_table.specs.Constants.{constant_of, constant_only as only_constant, field_meant};
ghost use Rattle.kr_classes_members.specs.Shown.{IsField, field_shown, table_in};
ghost use Rattle.kr_classes_members.specs.Kept.{AreMembers};

use crate::fields::Field;
use crate::members::Members;
use kr_classes_table::ClassId;

/// A field that is a constant.
fn constant_only(found: Option<Field>) -> Option<Field>
    ensures stands { (files : List Arena) → IfSome found (IsField files) → IfSome result (IsField files) }
    ensures shown { (files : List Arena) → option_map (field_shown files) result ≡ option_and_then only_constant (option_map (field_shown files) found) }
{
    match found {
        None => None,
        Some(field) => { if field.is_static { found } else { None } }
    }
}

impl Members {
    /// The constant of a class that a name before a dot means.
    pub fn constant_of(&self, class: Option<ClassId>, name: &[u8]) -> Option<Field>
        ensures stands { (files : List Arena) → AreMembers files self.now → IfSome result (IsField files) }
        ensures shown { (files : List Arena) → AreMembers files self.now → option_map (field_shown files) result ≡ constant_of (table_in files) class name.now }
    {
        match class {
            None => None,
            Some(class) => constant_only(self.field_named(class, name)),
        }
    }

    /// The meaning of a simple name in the code of a class: a field or constant of the class or an ancestor, else a
    /// constant of the outer class.
    pub fn field_meant(&self, class: ClassId, name: &[u8]) -> Option<Field>
        ensures stands { (files : List Arena) → AreMembers files self.now → IfSome result (IsField files) }
        ensures shown { (files : List Arena) → AreMembers files self.now → option_map (field_shown files) result ≡ field_meant (table_in files) class name.now }
    {
        match self.field_named(class, name) {
            Some(found) => Some(found),
            None => self.constant_of(self.outer_class(class), name),
        }
    }
}
