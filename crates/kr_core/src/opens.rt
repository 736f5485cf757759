// The segments that a span and its cuts begin with.
ghost use Rattle.std.specs.Prelude.{◌≡◌, ◌&&◌, ◌↔◌, IsTrue, IfOk};
ghost use Rattle.kr_base.specs.Bounds.{less};
ghost use Rattle.kr_core.specs.Openings.{AreInside, segments_at, untouched, end_of};

use crate::Segment;
use kr_base::{Bound, Cut, NoMemory, Span};
use std::alloc::Global;

/// Where the span ends: no lower than where it begins.
pub fn end_of(span: &Span) -> Result<Bound, NoMemory>
    ensures { IfOk result (λ end. end ≡ end_of span.now) }
{
    if span.upto.is_above_cut(&span.after) {
        span.upto.try_clone()
    } else {
        Ok(Bound::At(span.after.try_clone()?))
    }
}

fn untouched(number: u64, after: &Cut, upto: Bound) -> Result<Segment, NoMemory>
    ensures { IfOk result (λ s. s ≡ untouched number (Bound.At after.now) upto) }
{
    Ok(Segment {
        number,
        after: Bound::At(after.try_clone()?),
        mark: Bound::At(after.try_clone()?),
        upto,
        owner: None,
        rows: 0,
        tried: 0,
    })
}

/// Segments that adjoin at the cuts, from a cut on to an end.
pub fn segments_at(
    alloc: Global,
    after: &Cut,
    cuts: &[Cut],
    end: &Bound,
) -> Result<Vec<Segment>, NoMemory>
    ensures { IfOk result (λ v. v.items ≡ segments_at 0 (Bound.At after.now) cuts.now end.now) }
{
    let mut segments = Vec::new(alloc);
    let mut begin = after;
    let mut number: u64 = 0;
    for cut in cuts {
        segments.push(untouched(number, begin, Bound::At(cut.try_clone()?))?)?;
        begin = cut;
        number += 1;
    }
    segments.push(untouched(number, begin, end.try_clone()?)?)?;
    Ok(segments)
}

/// Whether a cut is above one and below a bound.
#[tactic(auto, unfolding(kr_base::specs::Bounds::less))]
pub(crate) fn is_between(begin: &Cut, cut: &Cut, upto: &Bound) -> bool
    ensures { result ≡ (less (Bound.At begin.now) (Bound.At cut.now) && less (Bound.At cut.now) upto.now) }
{
    begin.is_below(cut) && upto.is_above_cut(cut)
}

/// Whether the cuts ascend strictly and are strictly inside the span.
pub fn are_inside(cuts: &[Cut], span: &Span) -> bool
    ensures { IsTrue result ↔ AreInside cuts.now span.now }
{
    let mut begin = &span.after;
    for cut in cuts {
        if !is_between(begin, cut, &span.upto) {
            return false;
        }
        begin = cut;
    }
    true
}
