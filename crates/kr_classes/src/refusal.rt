// Why classes are refused.
ghost use Rattle.std.specs.Prelude.{◌≡◌};
ghost use Rattle.kr_classes.specs.Refusals.{rule_code};

use kr_base::{Place, RefusalAt};

/// A class rule, by what breaks it.
#[derive(Clone, Copy, PartialEq, Eq)]
pub enum ClassRule {
    /// C1: a class has the name of a collection, or of a class before it.
    RepeatedClass,
    /// C2: `extends` names no class.
    UnknownSuperclass,
    /// C3: a class is its own ancestor.
    OwnAncestor,
    /// C4: a field has the name of one before it or of an inherited one, or a class has two constructors.
    RepeatedMember,
    /// C5: a method has the name of one before it, or an inherited name and other types of parameters.
    OtherParameters,
    /// C6: a method has the name of one that every object has.
    ObjectMethod,
    /// C7: an overriding method differs in `static`, or its result doesn't fit.
    OtherResult,
    /// C8: there are more than 64 classes beside the predefined ones, or more than 32 instance fields in one.
    TooMany,
}

/// A broken rule and its place.
#[derive(Clone, Copy)]
pub(crate) struct Found {
    pub(crate) place: Place,
    pub(crate) rule: ClassRule,
}

impl ClassRule {
    /// The rule's code, as `C1`.
    pub fn code(self) -> &'static str
        ensures { result.now ≡ rule_code self }
    {
        match self {
            ClassRule::RepeatedClass => "C1",
            ClassRule::UnknownSuperclass => "C2",
            ClassRule::OwnAncestor => "C3",
            ClassRule::RepeatedMember => "C4",
            ClassRule::OtherParameters => "C5",
            ClassRule::ObjectMethod => "C6",
            ClassRule::OtherResult => "C7",
            ClassRule::TooMany => "C8",
        }
    }
}

/// The classes were refused: they break a rule at a place, or memory was refused.
pub type ClassRefusal = RefusalAt<ClassRule>;
