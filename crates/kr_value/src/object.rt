// The classes and the spots of objects.

/// The class of an object: a class by its number in the class table, an array type by its number, or one of the
/// library's two collections.
#[derive(Clone, Copy, PartialEq, Eq)]
pub enum Class {
    Object(u32),
    Array(u32),
    Set,
    List,
}

/// A place for a value in an object: a field by its position in the class, those of the superclass first; an array's
/// length; an element by its index.
#[derive(Clone, Copy, PartialEq, Eq)]
pub enum Spot {
    Field(u32),
    Length,
    Element(u32),
}
