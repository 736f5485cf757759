// Slots: the places for a candidate's values.

/// A slot, by its number from 0.
#[derive(Clone, Copy, PartialEq, Eq)]
pub struct Slot(pub u32);
