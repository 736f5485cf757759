// Where an event fits: the cases of the step relation, asked of the segments.
ghost use Rattle.std.specs.Prelude.{◌≡◌, ◌<◌, IfSome, IfNone, length, if◌then◌else◌, ◌&&◌, nat_lt, nat_le};
ghost use Rattle.std.specs.List.{sum_by};
ghost use Rattle.kr_base.specs.Causes.{capped};
ghost use Rattle.kr_base.specs.Bounds.{is_cut};
ghost use Rattle.kr_core.specs.States.{segment_of, place_of};
ghost use Rattle.kr_core.specs.Steps.{may_take, may_steal, may_report, may_give_up, may_stop, front};

use crate::Segment;
use crate::bounds::is_at;
use kr_base::{Bound, Cut};

/// The place of the segment of that number.
pub fn place(segments: &[Segment], number: u64) -> Option<usize>
    ensures none { IfNone result (segment_of number segments.now ≡ None) }
    ensures some { IfSome result (λ i. (i ≡ place_of number segments.now) × (i < length segments.now)) }
{
    for (i, segment) in segments.iter().enumerate() {
        if segment.number == number {
            return Some(i);
        }
    }
    None
}

/// The segment of that number.
pub fn segment_of(segments: &[Segment], number: u64) -> Option<&Segment>
    ensures none { IfNone result (segment_of number segments.now ≡ None) }
    ensures some { IfSome result (λ s. segment_of number segments.now ≡ Some s.now) }
{
    match place(segments, number) {
        None => None,
        Some(i) => Some(&segments[i]),
    }
}

/// Take: it has a remainder and no owner.
pub fn may_take(segments: &[Segment], number: u64) -> bool
    ensures { result ≡ may_take (segment_of number segments.now) }
{
    match segment_of(segments, number) {
        None => false,
        Some(segment) => segment.has_remainder() && !segment.is_owned(),
    }
}

/// Steal: it has an owner, and the cut is between its mark and its upto.
pub fn may_steal(segments: &[Segment], victim: u64, cut: &Cut) -> bool
    ensures { result ≡ may_steal cut.now (segment_of victim segments.now) }
{
    match segment_of(segments, victim) {
        None => false,
        Some(segment) => {
            segment.is_owned() && segment.mark.is_below_cut(cut) && segment.upto.is_above_cut(cut)
        }
    }
}

/// Whether these counts can be those of a part that reached this bound, spent or not.
pub fn counts_fit(reach: &Bound, rows: u64, tried: u64, spent: bool) -> bool
    ensures { result ≡ (if spent then is_cut reach.now && nat_lt rows tried else nat_le rows tried) }
{
    if spent {
        reach.is_cut() && rows < tried
    } else {
        rows <= tried
    }
}

/// Report: the seat owns it, and the reach and the counts fit.
pub fn may_report(
    segments: &[Segment],
    seat: u32,
    number: u64,
    reach: &Bound,
    rows: u64,
    tried: u64,
    spent: bool,
) -> bool
    ensures { result ≡ may_report seat reach.now rows tried spent (segment_of number segments.now) }
{
    match segment_of(segments, number) {
        None => false,
        Some(segment) => {
            segment.is_owned_by(seat)
                && segment.mark.is_below(reach)
                && !segment.upto.is_below(reach)
                && counts_fit(reach, rows, tried, spent)
        }
    }
}

/// GiveUp: the seat owns it.
pub fn may_give_up(segments: &[Segment], seat: u32, number: u64) -> bool
    ensures { result ≡ may_give_up seat (segment_of number segments.now) }
{
    match segment_of(segments, number) {
        None => false,
        Some(segment) => segment.is_owned_by(seat),
    }
}

/// Drain: the rows up to and with the first segment that isn't closed.
pub fn front_rows(segments: &[Segment]) -> u64
    ensures { result ≡ capped (sum_by (λ s. s.rows) (front segments.now)) }
{
    let mut rows: u64 = 0;
    for segment in segments {
        rows = rows.saturating_add(segment.rows);
        if !segment.is_closed() {
            return rows;
        }
    }
    rows
}

/// StopAt: the first segment's mark is the cut.
pub fn may_stop(segments: &[Segment], mark: &Cut) -> bool
    ensures { result ≡ may_stop mark.now segments.now }
{
    match segments.first() {
        None => false,
        Some(segment) => is_at(&segment.mark, mark),
    }
}
