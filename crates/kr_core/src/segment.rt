// A part of the candidate order.
ghost use Rattle.std.specs.Prelude.{◌≡◌};
ghost use Rattle.kr_core.specs.States.{has_remainder, is_owned, is_owned_by, is_closed};

use kr_base::Bound;

/// The candidates above `after` and not above `upto`. Those up to `mark` are scanned: `tried` of them were counted, and
/// `rows` of their rows are not yet drained. The owner is a seat.
#[derive(Drop)]
pub struct Segment {
    pub number: u64,
    pub after: Bound,
    pub mark: Bound,
    pub upto: Bound,
    pub owner: Option<u32>,
    pub rows: u64,
    pub tried: u64,
}

impl Segment {
    /// Whether some of it is not scanned.
    pub fn has_remainder(&self) -> bool
        ensures { result ≡ has_remainder self.now }
    {
        self.mark.is_below(&self.upto)
    }

    /// Whether some seat owns it.
    pub fn is_owned(&self) -> bool
        ensures { result ≡ is_owned self.now.owner }
    {
        match self.owner {
            None => false,
            Some(_) => true,
        }
    }

    /// Whether this seat owns it.
    pub fn is_owned_by(&self, seat: u32) -> bool
        ensures { result ≡ is_owned_by seat self.now.owner }
    {
        match self.owner {
            None => false,
            Some(owner) => owner == seat,
        }
    }

    /// Whether it has neither owner nor remainder.
    pub fn is_closed(&self) -> bool
        ensures { result ≡ is_closed self.now }
    {
        !self.is_owned() && !self.has_remainder()
    }
}
