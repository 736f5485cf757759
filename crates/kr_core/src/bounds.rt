// A bound that is a cut.
ghost use Rattle.std.specs.Prelude.{◌≡◌};
ghost use Rattle.kr_base.specs.Bounds.{is_same};

use kr_base::{Bound, Cut};

/// Whether the bound is the cut.
pub fn is_at(bound: &Bound, cut: &Cut) -> bool
    ensures { result ≡ is_same bound.now (Bound.At cut.now) }
{
    !bound.is_below_cut(cut) && !bound.is_above_cut(cut)
}
