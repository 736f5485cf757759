// The listing of pieces in their order.
ghost use Rattle.std.specs.Prelude.{◌≡◌, IfOk};
ghost use Rattle.kr_survey.specs.Listings.{IsListingOf};

use kr_base::NoMemory;
use kr_survey::{Listing, Piece, Rows};
use std::alloc::Global;

/// Rows, numbers and key of the pieces up to and with the first that is spent.
pub fn listing_of<R: Drop>(alloc: Global, pieces: Vec<Piece<R>>) -> Result<Listing<R>, NoMemory>
    ensures { IfOk result (λ listing. IsListingOf pieces.items listing) }
{
    let mut rows = Vec::new(alloc);
    let mut tried: u64 = 0;
    for piece in pieces {
        rows.push(piece.rows.into_vec())?;
        tried = tried.saturating_add(piece.tried);
        if piece.spent.is_some() {
            return Ok(Listing {
                rows: Rows::new(rows),
                tried,
                spent: piece.spent,
            });
        }
    }
    Ok(Listing {
        rows: Rows::new(rows),
        tried,
        spent: None,
    })
}
