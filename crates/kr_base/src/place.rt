// A place in a source file.

/// The file's number counts from 0, line and column from 1; columns are in characters.
#[derive(Clone, Copy, PartialEq, Eq)]
pub struct Place {
    pub file: u32,
    pub line: u32,
    pub col: u32,
}
