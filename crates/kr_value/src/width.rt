// The widths of whole numbers.

/// How many bits whole numbers have: `int` has 32, `long` 64 (Java Language Specification 4.2.1).
#[derive(Clone, Copy, PartialEq, Eq, Hash)]
pub enum Width {
    Bits32,
    Bits64,
}
