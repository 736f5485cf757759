// A seat that cuts in two what it has left.
ghost use Rattle.std.specs.Prelude.{◌≡◌, [], None, Some, true, IfOk, IfSome, IfNone, OnOk, OnErr};
ghost use Rattle.kr_base.specs.declared.span.Bound.TheVariants.{At};
ghost use Rattle.kr_base.specs.Bounds.{less};
ghost use Rattle.kr_core.specs.declared.event.Event.TheVariants.{Steal};
ghost use Rattle.kr_core.specs.declared.event.Reply.TheVariants.{Lease as Leased};
ghost use Rattle.kr_board.specs.Boards.{Adds, Stays};
ghost use Rattle.kr_board.specs.Splitting.{split_at, split_of};

use super::{Board, Taken};
use kr_base::{Bound, Cut, NoMemory};
use kr_core::{Core, Lease};

// Where it does, by the segment's mark and upto.
fn split_at(mark: &Bound, upto: &Bound, lease: &Lease) -> Result<Option<Cut>, NoMemory>
    ensures { IfOk result (λ cut. cut ≡ split_at mark.now upto.now lease.now) }
{
    match mark {
        Bound::End => Ok(None),
        Bound::At(own) => {
            if own.is_same(&lease.mark) {
                own.inside(upto)
            } else {
                Ok(None)
            }
        }
    }
}

// Where it does, if it can.
fn split_of(core: &Core, lease: &Lease) -> Result<Option<Cut>, NoMemory>
    ensures { IfOk result (λ cut. cut ≡ split_of core.now lease.now) }
{
    if core.next() == u64::MAX {
        return Ok(None);
    }
    let Some(segment) = core.segment_of(lease.segment) else {
        return Ok(None);
    };
    if !segment.is_owned_by(lease.seat) {
        return Ok(None);
    }
    split_at(&segment.mark, &segment.upto, lease)
}

impl<R: Drop> Board<R> {
    /// Cuts in two what a seat has left to scan: the seat steals from itself, whichever segment it is. It answers the
    /// lease of the rest; up to that one's mark the lease at hand goes on. It answers none, and nothing is logged, where
    /// there is no cut, and where the segment isn't any more what the lease says.
    pub fn split(&mut self, lease: &Lease) -> Result<Option<Lease>, NoMemory>
        ensures cut { IfOk result (λ rest. IfSome rest (λ r. split_of self.old.core lease.now ≡ Some r.mark)) }
        ensures event { IfOk result (λ rest. IfSome rest (λ r. Adds self.old (Steal lease.now.seat lease.now.segment r.mark self.old.core.next) (Leased r) [] self.new)) }
        ensures seat { IfOk result (λ rest. IfSome rest (λ r. r.seat ≡ lease.now.seat)) }
        ensures ahead { IfOk result (λ rest. IfSome rest (λ r. less (At lease.now.mark) (At r.mark) ≡ true)) }
        ensures no_cut { IfOk result (λ rest. IfNone rest (split_of self.old.core lease.now ≡ None)) }
        ensures none { IfOk result (λ rest. IfNone rest (self.new ≡ self.old)) }
        ensures stays { OnOk result (Stays self.old self.new) }
        ensures unchanged { OnErr result (self.new ≡ self.old) }
    {
        match split_of(&self.core, lease)? {
            None => Ok(None),
            Some(cut) => Ok(Some(self.steal_own(lease, cut)?)),
        }
    }

    // The seat steals from itself at a cut.
    fn steal_own(&mut self, lease: &Lease, cut: Cut) -> Result<Lease, NoMemory>
        requires { split_of self.old.core lease.now ≡ Some cut }
        ensures event { IfOk result (λ rest. Adds self.old (Steal lease.now.seat lease.now.segment cut self.old.core.next) (Leased rest) [] self.new) }
        ensures ahead { IfOk result (λ rest. less (At lease.now.mark) (At rest.mark) ≡ true) }
        ensures stays { OnOk result (Stays self.old self.new) }
        ensures unchanged { OnErr result (self.new ≡ self.old) }
    {
        match self.steal(lease.seat, lease.segment, cut)? {
            Taken::Lease(rest) => Ok(rest),
            Taken::Later => unreachable!(),
            Taken::Finished => unreachable!(),
        }
    }
}
