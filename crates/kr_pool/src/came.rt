// How far a round came.

use kr_survey::Room;

/// How far a round came: whether nothing is left to do, whether no row came, and whether the taker takes more.
#[derive(Clone, Copy)]
pub(crate) struct Came {
    pub(crate) all: bool,
    pub(crate) nothing: bool,
    pub(crate) room: Room,
}
