// Rows handed over.
ghost use Rattle.std.specs.Prelude.{◌≡◌, ◌++◌, Some, List, ℕ};
ghost use Rattle.kr_pool.specs.Vocabulary.{EntryOf, ListsFrom, More};
ghost use Rattle.kr_pool.specs.Handing.{HandsOver, HandsRest};

use kr_survey::{End, Halt, Listing, Room, RowList, Rows, Taker};

/// Whether there is no row.
pub(crate) fn is_nothing<R>(rows: &Rows<R>) -> bool {
    for piece in rows.pieces() {
        if !piece.is_empty() {
            return false;
        }
    }
    true
}

/// Hands rows over, a piece at a time, until the taker is full.
pub fn hand_over<R: Drop, T: Taker<K, Row = R>, K>(
    rows: Rows<R>,
    taker: &mut T,
    out: &mut K,
) -> Result<Room, Halt>
    ensures hands { (start : T) (from : K) (done : List R) → T.takes start from done taker.old out.old (Some More) → HandsOver T.takes (done ++ rows) start from taker.new out.new result }
    ensures limit { T.limit taker.new ≡ T.limit taker.old }
{
    for piece in rows.into_pieces() {
        match taker.take(RowList::new(piece), out) {
            Err(halt) => return Err(halt),
            Ok(Room::Full) => return Ok(Room::Full),
            Ok(Room::More) => {}
        }
    }
    Ok(Room::More)
}

/// Hands over what is left of a listing.
pub fn hand_listing<R: Drop, T: Taker<K, Row = R>, K>(
    listing: Listing<R>,
    taker: &mut T,
    out: &mut K,
) -> Result<End, Halt>
    ensures { (es : List (EntryOf R)) (d : ℕ) → ListsFrom d es listing → HandsRest T.takes es d taker.old out.old taker.new out.new result }
{
    let Listing { rows, tried, spent } = listing;
    match hand_over(rows, taker, out) {
        Err(halt) => Err(halt),
        Ok(Room::More) => Ok(End::Whole { tried, spent }),
        Ok(Room::Full) => Ok(End::Full),
    }
}
