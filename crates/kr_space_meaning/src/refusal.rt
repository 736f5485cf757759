// Why a document is none of a program.
ghost use Rattle.std.specs.Prelude.{◌≡◌};
ghost use Rattle.kr_space_meaning.specs.Order as order;

use kr_base::RefusalOf;
use kr_fin::Ranked;

/// A rule of documents beside a program, by what breaks it.
#[derive(Clone, Copy, PartialEq, Eq)]
pub enum SpaceRule {
    /// S1: a name that no class has, or that is no type's.
    UnknownName,
    /// S2: a field, element or parameter of a slot without domain.
    NoDomain,
    /// S3: a domain without values.
    EmptyDomain,
    /// S4: a value that doesn't fit the type.
    UnfitValue,
    /// S5: a value twice in a domain.
    ValueTwice,
    /// S6: more slots, or more values in a domain, than there may be.
    TooMany,
    /// S7: the root has no instance method `boolean repOk()`.
    NoPredicate,
    /// S8: the root has no instance method of the given name.
    NoMethod,
    /// S9: a domain of no field, element or parameter.
    NoSlot,
}

impl SpaceRule {
    /// The rule's code, as `S1`.
    pub fn code(self) -> &'static str
        ensures { result.now ≡ order.rule_code self }
    {
        match self {
            SpaceRule::UnknownName => "S1",
            SpaceRule::NoDomain => "S2",
            SpaceRule::EmptyDomain => "S3",
            SpaceRule::UnfitValue => "S4",
            SpaceRule::ValueTwice => "S5",
            SpaceRule::TooMany => "S6",
            SpaceRule::NoPredicate => "S7",
            SpaceRule::NoMethod => "S8",
            SpaceRule::NoSlot => "S9",
        }
    }
}

impl Ranked for SpaceRule {
    ghost rank_of = { order.space_rank };

    fn rank(self) -> u32 {
        match self {
            SpaceRule::UnknownName => 1,
            SpaceRule::NoDomain => 2,
            SpaceRule::EmptyDomain => 3,
            SpaceRule::UnfitValue => 4,
            SpaceRule::ValueTwice => 5,
            SpaceRule::TooMany => 6,
            SpaceRule::NoPredicate => 7,
            SpaceRule::NoMethod => 8,
            SpaceRule::NoSlot => 9,
        }
    }
}

/// The document was refused: it breaks a rule, or memory was refused.
pub type SpaceRefusal = RefusalOf<SpaceRule>;
