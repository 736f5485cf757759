// Why bytes are no finitization.
ghost use Rattle.std.specs.Prelude.{◌≡◌};
ghost use Rattle.kr_fin.specs.Order as order;

use crate::least::Ranked;
use kr_base::RefusalOf;

/// A rule of finitizations, by what breaks it.
#[derive(Clone, Copy, PartialEq, Eq)]
pub enum FinRule {
    /// F6: longer than 1 MiB.
    TooLong,
    /// F1: no TOML document.
    NotToml,
    /// F2: a key that isn't known.
    UnknownKey,
    /// F3: a value of the wrong kind.
    WrongKind,
    /// F4: a number out of its limit.
    OutOfLimit,
    /// F5: a key that has to be there, and isn't.
    MissingKey,
}

impl FinRule {
    /// The rule's code, as `F1`.
    pub fn code(self) -> &'static str
        ensures { result.now ≡ order.rule_code self }
    {
        match self {
            FinRule::TooLong => "F6",
            FinRule::NotToml => "F1",
            FinRule::UnknownKey => "F2",
            FinRule::WrongKind => "F3",
            FinRule::OutOfLimit => "F4",
            FinRule::MissingKey => "F5",
        }
    }
}

impl Ranked for FinRule {
    ghost rank_of = { order.rank_of };

    fn rank(self) -> u32 {
        match self {
            FinRule::TooLong => 0,
            FinRule::NotToml => 1,
            FinRule::UnknownKey => 2,
            FinRule::WrongKind => 3,
            FinRule::OutOfLimit => 4,
            FinRule::MissingKey => 5,
        }
    }
}

/// The bytes were refused: they break a rule, or memory was refused.
pub type FinRefusal = RefusalOf<FinRule>;
