// The rule on array types.
ghost use Rattle.std.specs.Prelude.{◌≡◌};
ghost use Rattle.kr_emit_meaning.specs.Buildable.{rank_of};

use kr_fin::Ranked;

/// The rule on array types.
#[derive(Clone, Copy, PartialEq, Eq)]
pub enum ElementRule {
    /// E3: the elements are arrays or collections.
    Elements,
}

impl Ranked for ElementRule {
    ghost rank_of = { rank_of };

    fn rank(self) -> u32 {
        match self {
            ElementRule::Elements => 3,
        }
    }
}
