// Leases of segments: copies of a mark, which is a cut, and of an upto.
ghost use Rattle.std.specs.Prelude.{◌≡◌, true, false, IfOk, IfSome, IfNone};
ghost use Rattle.std.specs.Option.{option_map};
ghost use Rattle.kr_core.specs.States.{segment_of};
ghost use Rattle.kr_core.specs.Steps.{may_take, may_steal, stolen, IsLease};
ghost use Rattle.kr_core.specs.Reaches.{closes, WouldLease};

use crate::fits::segment_of;
use crate::{Lease, Segment};
use kr_base::{Bound, Cut, NoMemory};

fn lease(seat: u32, segment: u64, mark: &Cut, upto: &Bound) -> Result<Lease, NoMemory>
    ensures { IfOk result (λ l. (l.seat ≡ seat) × (l.segment ≡ segment) × (l.mark ≡ mark.now) × (l.upto ≡ upto.now)) }
{
    Ok(Lease {
        seat,
        segment,
        mark: mark.try_clone()?,
        upto: upto.try_clone()?,
    })
}

/// The lease of a segment that may be taken.
pub fn lease_of(segments: &[Segment], seat: u32, number: u64) -> Result<Lease, NoMemory>
    requires { may_take (segment_of number segments.now) ≡ true }
    ensures { IfOk result (IsLease seat (segment_of number segments.now)) }
{
    let Some(segment) = segment_of(segments, number) else {
        unreachable!()
    };
    let Bound::At(mark) = &segment.mark else {
        unreachable!()
    };
    lease(seat, segment.number, mark, &segment.upto)
}

/// The lease of the rest after the cut, in a segment that may be stolen from, under its new number.
pub fn lease_behind(
    segments: &[Segment],
    seat: u32,
    victim: u64,
    cut: &Cut,
    number: u64,
) -> Result<Lease, NoMemory>
    requires { may_steal cut.now (segment_of victim segments.now) ≡ true }
    ensures { IfOk result (IsLease seat (option_map (stolen seat cut.now number) (segment_of victim segments.now))) }
{
    let Some(segment) = segment_of(segments, victim) else {
        unreachable!()
    };
    lease(seat, number, cut, &segment.upto)
}

/// The lease of a segment once it is scanned up to the reach, where something remains.
pub fn lease_from(
    segments: &[Segment],
    seat: u32,
    number: u64,
    reach: &Bound,
) -> Result<Option<Lease>, NoMemory>
    ensures some { IfOk result (λ l. IfSome l (λ lease. WouldLease seat reach.now (segment_of number segments.now) lease × (closes reach.now (segment_of number segments.now) ≡ false))) }
    ensures none { IfOk result (λ l. IfNone l (closes reach.now (segment_of number segments.now) ≡ true)) }
{
    let Some(segment) = segment_of(segments, number) else {
        return Ok(None);
    };
    if !reach.is_below(&segment.upto) {
        return Ok(None);
    }
    match reach {
        Bound::End => Ok(None),
        Bound::At(mark) => Ok(Some(lease(seat, segment.number, mark, &segment.upto)?)),
    }
}
