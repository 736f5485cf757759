// The fields, methods and constructors by number, found by name.
ghost use Rattle.std.specs.Prelude.{◌≡◌, ◌<◌, ◌∷◌, [], List, Some, None, IfSome, length, option_and_then, slice_get};
ghost use Rattle.kr_ast.specs.Arena.{Arena};
ghost use Rattle.kr_classes_table.specs.Table.{field_named, field_on, method_named, method_on};
ghost use Rattle.kr_classes_members.specs.Shown.{table_in};
ghost use Rattle.kr_classes_members.specs.Kept.{AreMembers};
ghost use Rattle.kr_classes_members.specs.Rosters.{IsRoster, all_fields, all_methods};

use crate::{Field, Members, Method};

/// The fields and the methods of all classes, class by class, with the number of each class's first.
#[derive(Drop)]
pub struct Roster {
    pub fields: Vec<Field>,
    pub methods: Vec<Method>,
    pub(crate) first_fields: Vec<u32>,
    pub(crate) first_methods: Vec<u32>,
}

/// The number of a class's first one.
fn first_number(first: &Vec<u32>, class: u32) -> Option<u32>
    ensures { result ≡ slice_get first.now.items class }
{
    first.get(class as usize).copied()
}

impl Roster {
    /// The first of a class's own methods with a name.
    fn own_method(&self, members: &Members, class: u32, name: &[u8]) -> Option<u32>
        ensures within { (files : List Arena) → AreMembers files members.now → IsRoster files self.now → IfSome result (λ k. k < length (all_methods (table_in files))) }
        ensures shown { (files : List Arena) → AreMembers files members.now → IsRoster files self.now → option_and_then (slice_get (all_methods (table_in files))) result ≡ method_on (table_in files) (class ∷ []) name.now }
    {
        match members.own_method_number(class, name) {
            None => None,
            Some(number) => match first_number(&self.first_methods, class) {
                None => None,
                Some(first) => {
                    if number > u32::MAX - first {
                        None
                    } else {
                        Some(first + number)
                    }
                }
            },
        }
    }

    /// The first of a class's own fields and constants with a name.
    fn own_field(&self, members: &Members, class: u32, name: &[u8]) -> Option<u32>
        ensures within { (files : List Arena) → AreMembers files members.now → IsRoster files self.now → IfSome result (λ k. k < length (all_fields (table_in files))) }
        ensures shown { (files : List Arena) → AreMembers files members.now → IsRoster files self.now → option_and_then (slice_get (all_fields (table_in files))) result ≡ field_on (table_in files) (class ∷ []) name.now }
    {
        match members.own_field_number(class, name) {
            None => None,
            Some(number) => match first_number(&self.first_fields, class) {
                None => None,
                Some(first) => {
                    if number > u32::MAX - first {
                        None
                    } else {
                        Some(first + number)
                    }
                }
            },
        }
    }

    /// The method of a name, the nearest on the line of a class and its ancestors.
    pub fn method_named(&self, members: &Members, class: u32, name: &[u8]) -> Option<u32>
        ensures within { (files : List Arena) → AreMembers files members.now → IsRoster files self.now → IfSome result (λ k. k < length (all_methods (table_in files))) }
        ensures shown { (files : List Arena) → AreMembers files members.now → IsRoster files self.now → option_and_then (slice_get (all_methods (table_in files))) result ≡ method_named (table_in files) class name.now }
    {
        let mut at = Some(class);
        let steps = members.len() + 1;
        for step in 0..steps {
            match at {
                None => return None,
                Some(here) => {
                    let found = self.own_method(members, here, name);
                    if found.is_some() {
                        return found;
                    }
                    at = members.superclass(here);
                }
            }
        }
        None
    }

    /// The field or constant of a name, the nearest on the line of a class and its ancestors.
    pub fn field_named(&self, members: &Members, class: u32, name: &[u8]) -> Option<u32>
        ensures within { (files : List Arena) → AreMembers files members.now → IsRoster files self.now → IfSome result (λ k. k < length (all_fields (table_in files))) }
        ensures shown { (files : List Arena) → AreMembers files members.now → IsRoster files self.now → option_and_then (slice_get (all_fields (table_in files))) result ≡ field_named (table_in files) class name.now }
    {
        let mut at = Some(class);
        let steps = members.len() + 1;
        for step in 0..steps {
            match at {
                None => return None,
                Some(here) => {
                    let found = self.own_field(members, here, name);
                    if found.is_some() {
                        return found;
                    }
                    at = members.superclass(here);
                }
            }
        }
        None
    }
}
