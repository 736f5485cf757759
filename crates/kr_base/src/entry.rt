// The entries of a listing, one for each class of equivalent candidates.

use crate::Cut;

/// The verdict on a candidate: valid, with its row; invalid, if the predicate is false or traps; or out of fuel.
#[derive(Drop)]
pub enum Mark<R> {
    Valid(R),
    Invalid,
    Spent,
}

/// A candidate's key with its mark.
#[derive(Drop)]
pub struct Entry<R> {
    pub key: Cut,
    pub mark: Mark<R>,
}
