// Bounds, and the spans between them.
ghost use Rattle.std.specs.Prelude.{◌≡◌, IfOk, IsTrue, ◌↔◌};
ghost use Rattle.kr_base.specs.declared.span.Bound.TheVariants.{At};
ghost use Rattle.kr_base.specs.Bounds.{less, is_cut};

use crate::{Cut, NoMemory};
use std::cmp::Ordering;

/// The end of a span: a cut, or `End`, which is above every cut.
#[derive(Drop)]
pub enum Bound {
    At(Cut),
    End,
}

impl Bound {
    #[tactic(auto, unfolding(crate::specs::Bounds::less))]
    pub fn is_below(&self, other: &Bound) -> bool
        ensures { result ≡ less self.now other.now }
    {
        match self {
            Bound::End => false,
            Bound::At(own) => match other {
                Bound::End => true,
                Bound::At(cut) => own.is_below(cut),
            },
        }
    }

    /// Whether the bound is below the cut of these numbers.
    #[tactic(auto, unfolding(crate::specs::Bounds::less))]
    pub fn is_below_key(&self, key: &[u32]) -> bool
        ensures { result ≡ less self.now (At key.now) }
    {
        match self {
            Bound::End => false,
            Bound::At(own) => own.numbers().cmp(key) == Ordering::Less,
        }
    }

    /// Whether the bound is above the cut of these numbers.
    #[tactic(auto, unfolding(crate::specs::Bounds::less))]
    pub fn is_above_key(&self, key: &[u32]) -> bool
        ensures { result ≡ less (At key.now) self.now }
    {
        match self {
            Bound::End => true,
            Bound::At(own) => key.cmp(own.numbers()) == Ordering::Less,
        }
    }

    pub fn is_below_cut(&self, cut: &Cut) -> bool
        ensures { result ≡ less self.now (At cut.now) }
    {
        self.is_below_key(cut.numbers())
    }

    pub fn is_above_cut(&self, cut: &Cut) -> bool
        ensures { result ≡ less (At cut.now) self.now }
    {
        self.is_above_key(cut.numbers())
    }

    pub fn is_cut(&self) -> bool
        ensures { result ≡ is_cut self.now }
    {
        match self {
            Bound::At(_) => true,
            Bound::End => false,
        }
    }

    pub fn try_clone(&self) -> Result<Bound, NoMemory>
        ensures { IfOk result (λ copy. copy ≡ self.now) }
    {
        match self {
            Bound::End => Ok(Bound::End),
            Bound::At(cut) => Ok(Bound::At(cut.try_clone()?)),
        }
    }
}

/// The keys above `after` and not above `upto`.
#[derive(Drop)]
pub struct Span {
    pub after: Cut,
    pub upto: Bound,
}

impl Cut {
    ghost use Rattle.kr_base.specs.Entries.{is_within};

    /// Whether the cut is above `after` and not above `upto`.
    #[tactic(auto, unfolding(crate::specs::Bounds::less))]
    pub fn is_within(&self, after: &Cut, upto: &Bound) -> bool
        ensures { result ≡ is_within (At after.now) upto.now self.now }
    {
        after.is_below(self) && !upto.is_below_cut(self)
    }
}
