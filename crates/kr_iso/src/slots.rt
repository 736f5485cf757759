// The slots of candidates.
ghost use Rattle.std.specs.Prelude.{◌≡◌, ◌<◌};
ghost use Rattle.kr_mean.specs.Space.{Space};
ghost use Rattle.kr_iso.specs.Objects.{shown};
ghost use Rattle.kr_iso.specs.Rows.{IsRow};

use crate::Object;

/// The slots of a problem, with their domains.
pub trait Slots {
    /// The slots of a problem, as candidates need them.
    ghost space: { Self → Space };

    /// How many slots there are.
    fn slots(&self) -> u32
        ensures { result ≡ (space self.now).slots };

    /// How many values a slot's domain has.
    fn size(&self, slot: u32) -> u32
        requires { slot < (space self.now).slots }
        ensures { result ≡ (space self.now).size slot };

    /// The object that is the value at an index of a slot, if it is one.
    fn object_at(&self, slot: u32, index: u32) -> Option<Object>
        requires slot { slot < (space self.now).slots }
        requires index { index < (space self.now).size slot }
        ensures { shown result ≡ (space self.now).object_at slot index };

    /// How many values of a slot, from an index on, are no objects, or are objects of one class domain one after another, as
    /// far as is known.
    fn row(&self, slot: u32, index: u32) -> u32
        requires slot { slot < (space self.now).slots }
        requires index { index < (space self.now).size slot }
        ensures { IsRow (space self.now) slot index result };
}
