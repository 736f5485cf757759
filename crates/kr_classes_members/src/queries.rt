// Queries on a class by its number: its superclass, its outer class, its own members, its line.
ghost use Rattle.std.specs.Prelude.{◌≡◌, ◌≤◌, List, Some, None, IfSome, length, map, flat_map, All, find, bytes_eq, option_and_then, option_map, option_to_list, option_copied, slice_get};
ghost use Rattle.std.specs.List.{position_from};
ghost use Rattle.kr_ast.specs.Arena.{Arena};
ghost use Rattle.kr_classes_table.specs.Table.{class_at, own_fields, own_methods, super_of};
ghost use Rattle.kr_classes_table.specs.Constants.{outer_class};
ghost use Rattle.kr_classes_names.specs.Listed.{place_of};
ghost use Rattle.kr_classes_members.specs.Shown.{IsConstructor, IsField, IsMethod, constructor_shown, field_shown, method_shown, table_in};
ghost use Rattle.kr_classes_members.specs.Kept.{AreMembers, class_count};

use crate::fields::Field;
use crate::members::{ClassMembers, Members};
use crate::methods::{Constructor, Method};
use kr_base::{NoMemory, Place};
use kr_classes_table::ClassId;

impl ClassMembers {
    /// The first of its fields with this name.
    fn field(&self, name: &[u8]) -> Option<Field>
        ensures { result ≡ option_and_then (slice_get self.now.fields.items) (place_of name.now self.now.field_index) }
    {
        match self.field_index.find(name) {
            None => None,
            Some(number) => self.fields.get(number as usize).copied(),
        }
    }

    /// The first of its methods with this name.
    fn method(&self, name: &[u8]) -> Option<Method>
        ensures { result ≡ option_and_then (slice_get self.now.methods.items) (place_of name.now self.now.method_index) }
    {
        match self.method_index.find(name) {
            None => None,
            Some(number) => self.methods.get(number as usize).copied(),
        }
    }
}

impl Members {
    /// How many classes there are.
    pub fn len(&self) -> usize
        ensures count { result ≡ class_count self.now }
        ensures all { (files : List Arena) → AreMembers files self.now → result ≡ length (table_in files).classes }
    {
        self.classes.len()
    }

    /// For more classes than have numbers.
    pub fn at_limit(&self) -> NoMemory
        requires { 4294967295 ≤ class_count self.now }
    {
        NoMemory::at_limit(self.classes.as_slice())
    }

    /// A class by its number.
    fn class(&self, class: ClassId) -> Option<&ClassMembers>
        ensures { option_copied result ≡ slice_get self.now.classes.items class }
    {
        self.classes.get(class as usize)
    }

    /// The superclass of a class.
    pub fn superclass(&self, class: ClassId) -> Option<ClassId>
        ensures { (files : List Arena) → AreMembers files self.now → result ≡ super_of (table_in files) class }
    {
        match self.class(class) {
            None => None,
            Some(members) => members.superclass,
        }
    }

    /// The class that contains a class.
    pub fn outer_class(&self, class: ClassId) -> Option<ClassId>
        ensures { (files : List Arena) → AreMembers files self.now → result ≡ outer_class (table_in files) class }
    {
        match self.class(class) {
            None => None,
            Some(members) => members.heading.outer,
        }
    }

    /// The fields and constants that a class declares itself, in source order.
    pub fn fields(&self, class: ClassId) -> &[Field]
        ensures stands { (files : List Arena) → AreMembers files self.now → All (IsField files) result.now }
        ensures shown { (files : List Arena) → AreMembers files self.now → map (field_shown files) result.now ≡ own_fields (table_in files) class }
    {
        match self.class(class) {
            None => &[],
            Some(members) => members.fields.as_slice(),
        }
    }

    /// The methods that a class declares itself, in source order.
    pub fn methods(&self, class: ClassId) -> &[Method]
        ensures stands { (files : List Arena) → AreMembers files self.now → All (IsMethod files) result.now }
        ensures shown { (files : List Arena) → AreMembers files self.now → map (method_shown files) result.now ≡ own_methods (table_in files) class }
    {
        match self.class(class) {
            None => &[],
            Some(members) => members.methods.as_slice(),
        }
    }

    /// The constructors that a class declares, in source order.
    pub fn constructors(&self, class: ClassId) -> &[Constructor]
        ensures stands { (files : List Arena) → AreMembers files self.now → All (IsConstructor files) result.now }
        ensures shown { (files : List Arena) → AreMembers files self.now → map (constructor_shown files) result.now ≡ flat_map (λ d. d.constructors) (option_to_list (class_at (table_in files).classes class)) }
    {
        match self.class(class) {
            None => &[],
            Some(members) => members.constructors.as_slice(),
        }
    }

    /// The place of a class's name.
    pub fn place(&self, class: ClassId) -> Option<Place>
        ensures { (files : List Arena) → AreMembers files self.now → result ≡ option_map (λ d. d.place) (class_at (table_in files).classes class) }
    {
        match self.class(class) {
            None => None,
            Some(members) => Some(members.heading.place),
        }
    }

    /// Which of a class's own fields and constants is the first of a name.
    pub fn own_field_number(&self, class: ClassId, name: &[u8]) -> Option<u32>
        ensures { (files : List Arena) → AreMembers files self.now → result ≡ position_from (bytes_eq name.now) 0 (map (λ f. f.name) (own_fields (table_in files) class)) }
    {
        match self.class(class) {
            None => None,
            Some(members) => members.field_index.find(name),
        }
    }

    /// Which of a class's own methods is the first of a name.
    pub fn own_method_number(&self, class: ClassId, name: &[u8]) -> Option<u32>
        ensures { (files : List Arena) → AreMembers files self.now → result ≡ position_from (bytes_eq name.now) 0 (map (λ m. m.name) (own_methods (table_in files) class)) }
    {
        match self.class(class) {
            None => None,
            Some(members) => members.method_index.find(name),
        }
    }

    /// The field or constant of a name that a class declares itself.
    pub fn own_field(&self, class: ClassId, name: &[u8]) -> Option<Field>
        ensures stands { (files : List Arena) → AreMembers files self.now → IfSome result (IsField files) }
        ensures shown { (files : List Arena) → AreMembers files self.now → option_map (field_shown files) result ≡ find (λ f. bytes_eq f.name name.now) (own_fields (table_in files) class) }
    {
        match self.class(class) {
            None => None,
            Some(members) => members.field(name),
        }
    }

    /// The method of a name that a class declares itself.
    pub fn own_method(&self, class: ClassId, name: &[u8]) -> Option<Method>
        ensures stands { (files : List Arena) → AreMembers files self.now → IfSome result (IsMethod files) }
        ensures shown { (files : List Arena) → AreMembers files self.now → option_map (method_shown files) result ≡ find (λ m. bytes_eq m.name name.now) (own_methods (table_in files) class) }
    {
        match self.class(class) {
            None => None,
            Some(members) => members.method(name),
        }
    }
}
