// How a seat's turn ends.

use kr_base::NoMemory;
use kr_board::Lease;

/// The result of a report: the seat goes on under a lease; it is done with its segment; the part has no room yet, and is kept with
/// its lease; or memory was refused.
#[derive(Drop)]
pub(crate) enum Turn {
    Go(Lease),
    Done,
    Full,
    Refused(NoMemory),
}
