// Keys of one number each, and what is handed out of them.

use kr_base::Cut;
use kr_survey::{Listing, Rows};

/// What was handed out: the number after the last row's, if the rows were the valid keys in order; how many entries were
/// tried, and whether one was spent.
#[derive(Clone, Copy, PartialEq, Eq)]
pub(crate) struct Handed {
    pub(crate) next: Option<u32>,
    pub(crate) tried: u64,
    pub(crate) spent: bool,
}

/// What is handed out of so many keys, of which one is spent, if it is among them.
pub(crate) fn wanted(count: u32, spent: u32) -> Handed {
    let is_spent = spent <= count;
    let tried = if is_spent { spent } else { count };
    let last = if is_spent {
        spent.saturating_sub(1)
    } else {
        count
    };
    Handed {
        next: Some(after(last)),
        tried: u64::from(tried),
        spent: is_spent,
    }
}

/// What a listing hands out.
pub(crate) fn handed_by(listing: &Listing<Cut>) -> Handed {
    Handed {
        next: counted(&listing.rows),
        tried: listing.tried,
        spent: listing.spent.is_some(),
    }
}

/// The number after the last, if these rows are the valid keys from 1 on.
pub(crate) fn counted(rows: &Rows<Cut>) -> Option<u32> {
    let mut next = Some(1);
    for piece in rows.pieces() {
        next = match next {
            None => None,
            Some(number) => numbered(piece.as_slice(), number),
        };
    }
    next
}

// The number after the last, if these rows are the valid keys from a number on.
fn numbered(rows: &[Cut], number: u32) -> Option<u32> {
    let mut number = number;
    for row in rows {
        if row.numbers() != [0, number].as_slice() {
            return None;
        }
        number = after(number);
    }
    Some(number)
}

// The next valid key: each fifth is invalid.
fn after(number: u32) -> u32 {
    let next = number.saturating_add(1);
    if next % 5 == 0 {
        next.saturating_add(1)
    } else {
        next
    }
}
