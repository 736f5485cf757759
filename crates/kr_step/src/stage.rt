// The positions of a search, and its answers.

use crate::Ending;

/// The position of a search: after the last candidate found, where none is found yet after its cut; at the next one, which
/// wasn't run yet; or at one that was run, with how that ended.
#[derive(Clone, Copy, PartialEq, Eq)]
pub(crate) enum Stage {
    Behind,
    Moved,
    Ahead(Ending),
}

/// The result of the next step of a search.
#[derive(Clone, Copy, PartialEq, Eq)]
pub enum Next {
    Found(Ending),
    End,
}

/// The result of the next step of a search up to a bound: an entry before the bound, the entry at it, or none up to it.
#[derive(Clone, Copy)]
pub(crate) enum Upto {
    Inside(Ending),
    Last(Ending),
    Past,
}
