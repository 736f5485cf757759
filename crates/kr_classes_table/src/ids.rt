// Numbers that name what a program declares.

/// A class, by the number of classes before it in file and source order.
pub type ClassId = u32;

/// A field or constant, by the number of those before it, class by class.
pub type FieldId = u32;

/// A method, by the number of those before it, class by class.
pub type MethodId = u32;

/// A type, by its index in a list without duplicates.
pub type TypeId = u32;

/// A name, by its index in a list without duplicates.
pub type NameId = u32;
