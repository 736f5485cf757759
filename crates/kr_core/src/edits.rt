// Changes of the segments.
ghost use Rattle.std.specs.Prelude.{◌≡◌, ◌<◌, ◌≤◌, true, false, [], ◌∷◌, length, drop, vec_len, vec_capacity};
ghost use Rattle.std.specs.List.{sum_by};
ghost use Rattle.kr_base.specs.Causes.{capped};
ghost use Rattle.kr_core.specs.States.{change};
ghost use Rattle.kr_core.specs.Steps.{owned, lowered, stolen, scanned, gone, left, stopped};
ghost use Rattle.kr_core.specs.Reaches.{owner_behind};

use crate::Segment;
use crate::fits::place;
use kr_base::{Bound, Cut};
use std::mem;

/// Another owner, or none, for the segment of that number.
pub fn set_owner(segments: &mut Vec<Segment>, number: u64, owner: Option<u32>)
    ensures { segments.new.items ≡ change number (λ s ss. owned owner s ∷ ss) segments.old.items }
{
    if let Some(i) = place(segments.as_slice(), number) {
        segments[i].owner = owner;
    }
}

/// The victim ends at the cut, and the rest of it is a segment of the seat. `after` and `mark` are the same cut.
pub fn cut_segment(
    segments: &mut Vec<Segment>,
    victim: u64,
    cut: Cut,
    after: Cut,
    mark: Cut,
    number: u64,
    seat: u32,
)
    requires same { (after ≡ cut) × (mark ≡ cut) }
    requires room { vec_len segments.old < vec_capacity segments.old }
    ensures { segments.new.items ≡ change victim (λ s ss. lowered cut s ∷ (stolen seat cut number s ∷ ss)) segments.old.items }
{
    if let Some(i) = place(segments.as_slice(), victim) {
        let upto = mem::replace(&mut segments[i].upto, Bound::At(cut));
        let rest = Segment {
            number,
            after: Bound::At(after),
            mark: Bound::At(mark),
            upto,
            owner: Some(seat),
            rows: 0,
            tried: 0,
        };
        let _ = segments.insert(i + 1, rest);
    }
}

fn owner_behind(reach: &Bound, upto: &Bound, owner: Option<u32>) -> Option<u32>
    ensures { result ≡ owner_behind reach.now upto.now owner }
{
    if !reach.is_below(upto) { None } else { owner }
}

/// The segment is scanned up to the reach.
pub fn scan_to(segments: &mut Vec<Segment>, number: u64, reach: Bound, rows: u64, tried: u64)
    ensures { segments.new.items ≡ change number (λ s ss. scanned reach rows tried false s ∷ ss) segments.old.items }
{
    if let Some(i) = place(segments.as_slice(), number) {
        let segment = &mut segments[i];
        segment.owner = owner_behind(&reach, &segment.upto, segment.owner);
        segment.mark = reach;
        segment.rows = segment.rows.saturating_add(rows);
        segment.tried = segment.tried.saturating_add(tried);
    }
}

/// The segment is scanned up to the reach and ends there, and the later ones go. `upto` is the reach again.
pub fn end_at(
    segments: &mut Vec<Segment>,
    number: u64,
    reach: Bound,
    upto: Bound,
    rows: u64,
    tried: u64,
)
    requires { upto ≡ reach }
    ensures { segments.new.items ≡ change number (λ s ss. scanned reach rows tried true s ∷ []) segments.old.items }
{
    if let Some(i) = place(segments.as_slice(), number) {
        segments.truncate(i + 1);
        let segment = &mut segments[i];
        segment.mark = reach;
        segment.upto = upto;
        segment.owner = None;
        segment.rows = segment.rows.saturating_add(rows);
        segment.tried = segment.tried.saturating_add(tried);
    }
}

/// The number of closed segments at the front, the last of all not counted.
pub fn gone_count(segments: &[Segment]) -> usize
    ensures { result ≡ length (gone segments.now) }
{
    let most = segments.len().saturating_sub(1);
    let mut count = 0;
    while count < most && segments[count].is_closed() {
        count += 1;
    }
    count
}

/// The number of candidates tried in the segments.
pub fn tried_of(segments: &[Segment]) -> u64
    ensures { result ≡ capped (sum_by (λ s. s.tried) segments.now) }
{
    let mut tried: u64 = 0;
    for segment in segments {
        tried = tried.saturating_add(segment.tried);
    }
    tried
}

// The first ones go. It takes no memory.
fn drop_first(segments: &mut Vec<Segment>, count: usize)
    requires { count ≤ vec_len segments.old }
    ensures { segments.new.items ≡ drop count segments.old.items }
{
    segments.drain(..count);
}

/// The closed segments at the front go, but not the last of all, and the first of the others has no rows. What was tried
/// in those that go is answered.
pub fn drain_front(segments: &mut Vec<Segment>) -> u64
    ensures tried { result ≡ capped (sum_by (λ s. s.tried) (gone segments.old.items)) }
    ensures left { segments.new.items ≡ left segments.old.items }
{
    let count = gone_count(segments.as_slice());
    let tried = tried_of(&segments.as_slice()[..count]);
    drop_first(segments, count);
    if !segments.is_empty() {
        segments[0].rows = 0;
    }
    tried
}

/// The first segment ends at the mark without an owner, and the later ones go.
pub fn stop_first(segments: &mut Vec<Segment>, mark: Cut)
    ensures { segments.new.items ≡ stopped mark segments.old.items }
{
    segments.truncate(1);
    if !segments.is_empty() {
        let first = &mut segments[0];
        first.upto = Bound::At(mark);
        first.owner = None;
    }
}
