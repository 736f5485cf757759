// How code ends that doesn't go on.

/// Why a run traps: the exceptions of the Java Language Specification that the subset can meet, an object that is
/// thrown, and two ends of this tool's own.
#[derive(Clone, Copy, PartialEq, Eq)]
pub enum Kind {
    NullPointerException,
    ArithmeticException,
    ArrayIndexOutOfBoundsException,
    NegativeArraySizeException,
    ClassCastException,
    NoSuchElementException,
    /// An object of this class, which is none of those above, is thrown.
    Thrown(u32),
    /// The body of a method with a result has ended without `return`.
    NoReturn,
    /// A longer array than this tool makes.
    ArrayTooLong,
}

/// How a run ends early. It is stuck where a node has no meaning: one that breaks a typing rule.
#[derive(Clone, Copy, PartialEq, Eq)]
pub enum Stop {
    Trapped(Kind),
    OutOfFuel,
    Stuck,
}

/// The verdict of a test of the method under test on a structure.
#[derive(Clone, Copy, PartialEq, Eq)]
pub enum Verdict {
    Pass,
    /// The postcondition of this number, counted from 1, is the first that is false.
    Ensures(u32),
    /// The method throws, and the `signals` clause of this number is the first one that fits and is false.
    Signals(u32),
    /// `repOk` is false after the method.
    RepOk,
    /// The method traps, and no `signals` clause fits.
    Trap(Kind),
    /// `repOk`, a postcondition or a `signals` clause traps.
    CheckTrap(Kind),
    /// Method, `repOk` and postconditions need more than the fuel.
    Spent,
}
