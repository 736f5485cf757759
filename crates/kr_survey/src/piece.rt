// A part of a listing, with the span that it covers.

use crate::RowList;
use kr_base::{Cut, Span};

/// The listing of a span: its rows, how many entries it has, and the key of the spent one that ended it, if any did. With a
/// spent key the piece covers its span as well.
#[derive(Drop)]
pub struct Piece<R> {
    pub span: Span,
    pub rows: RowList<R>,
    pub tried: u64,
    pub spent: Option<Cut>,
}
