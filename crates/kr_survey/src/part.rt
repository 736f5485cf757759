// What a scan gives, and what a board gives in the end.

use crate::{RowList, Rows};
use kr_base::{Bound, Cut};

/// What a scan found: how far it came, the rows of the valid entries up to there, how many entries it walked, and
/// whether the last of them is spent.
#[derive(Drop)]
pub struct Part<R> {
    pub reach: Bound,
    pub rows: RowList<R>,
    pub tried: u64,
    pub spent: bool,
}

/// What a board listed: the rows not drained before, how many entries were tried in all, and the key of the spent one
/// that ended the listing, if any did.
#[derive(Drop)]
pub struct Listing<R> {
    pub rows: Rows<R>,
    pub tried: u64,
    pub spent: Option<Cut>,
}
