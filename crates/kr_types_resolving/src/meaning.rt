// The meaning of a node, by numbers.
ghost use Rattle.std.specs.Prelude.{◌≡◌, ◌<◌, IfSome, length, option_map};
ghost use Rattle.kr_classes_table.specs.Table.{Table};
ghost use Rattle.kr_classes_members.specs.Rosters.{all_fields, all_methods, field_numbered, method_numbered};
ghost use Rattle.kr_types_resolving.specs.Meanings as meanings;
ghost use Rattle.kr_types_resolving.specs.Shown.{IsMeaningWithin, meaning_shown};

use kr_classes_table::{ClassId, FieldId, MethodId};

/// The item to which a node resolves. Fields and methods have the roster's numbers.
#[derive(Clone, Copy)]
pub enum Meaning {
    Nothing,
    /// a local or parameter, by the number of those in scope declared before it
    Local(u32),
    /// a field of `this`, or of the object before the dot
    Instance(FieldId),
    Constant(FieldId),
    /// a class, by its name before a dot
    Class(ClassId),
    /// a method, or one that overrides it
    Virtual(MethodId),
    Static(MethodId),
    /// the superclass's method
    Super(MethodId),
    /// the creation of an object
    New(ClassId),
    NewSet,
    NewList,
}

impl Meaning {
    /// The class that it means, if any.
    pub fn class(self) -> Option<ClassId>
        ensures { (t : Table) → result ≡ meanings.class_meant (meaning_shown t self) }
    {
        match self {
            Meaning::Class(class) => Some(class),
            _ => None,
        }
    }

    /// A class of this number.
    pub(crate) fn of_class(found: Option<ClassId>) -> Meaning
        ensures within { (t : Table) → IsMeaningWithin t result }
        ensures shown { (t : Table) → meaning_shown t result ≡ meanings.class_meaning found }
    {
        match found {
            None => Meaning::Nothing,
            Some(class) => Meaning::Class(class),
        }
    }

    /// The method that is called, on an object or not.
    pub fn method(self) -> Option<MethodId>
        ensures within { (t : Table) → IsMeaningWithin t self → IfSome result (λ k. k < length (all_methods t)) }
        ensures shown { (t : Table) → option_map (method_numbered t) result ≡ meanings.method_in (meaning_shown t self) }
    {
        match self {
            Meaning::Virtual(number) => Some(number),
            Meaning::Static(number) => Some(number),
            _ => None,
        }
    }

    /// The superclass's method that is called.
    pub fn super_method(self) -> Option<MethodId>
        ensures within { (t : Table) → IsMeaningWithin t self → IfSome result (λ k. k < length (all_methods t)) }
        ensures shown { (t : Table) → option_map (method_numbered t) result ≡ meanings.super_in (meaning_shown t self) }
    {
        match self {
            Meaning::Super(number) => Some(number),
            _ => None,
        }
    }

    /// The field of an object.
    pub fn instance(self) -> Option<FieldId>
        ensures within { (t : Table) → IsMeaningWithin t self → IfSome result (λ k. k < length (all_fields t)) }
        ensures shown { (t : Table) → option_map (field_numbered t) result ≡ meanings.instance_in (meaning_shown t self) }
    {
        match self {
            Meaning::Instance(number) => Some(number),
            _ => None,
        }
    }

    /// The constant.
    pub fn constant(self) -> Option<FieldId>
        ensures within { (t : Table) → IsMeaningWithin t self → IfSome result (λ k. k < length (all_fields t)) }
        ensures shown { (t : Table) → option_map (field_numbered t) result ≡ meanings.constant_in (meaning_shown t self) }
    {
        match self {
            Meaning::Constant(number) => Some(number),
            _ => None,
        }
    }
}
