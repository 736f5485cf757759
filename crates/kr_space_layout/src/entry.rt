// The table of slots.

use kr_iso::Object;
use kr_value::SlotPlace;

/// A slot: its place, its owner, and the number of its domain.
#[derive(Clone, Copy, PartialEq, Eq)]
pub(crate) struct Entry {
    pub(crate) place: SlotPlace,
    pub(crate) owner: Option<Object>,
    /// None for `this`, whose domain is all objects of the root.
    pub(crate) domain: Option<u32>,
}
