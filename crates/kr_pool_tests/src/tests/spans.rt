// Spans of keys, and how they are read.
ghost use Rattle.std.specs.Prelude.{◌≡◌, true, IfOk};
ghost use Rattle.kr_survey.specs.Spans.{is_ahead};

use kr_base::{Bound, Cut, NoMemory, Span};
use std::alloc::Global;
use std::process::Abort;

/// The cut of these numbers.
pub(crate) fn cut_of(alloc: Global, numbers: &[u32]) -> Result<Cut, NoMemory> {
    Ok(Cut::new(Vec::from_slice(alloc, numbers)?))
}

/// The span of these cuts.
fn span_of(alloc: Global, after: &[u32], upto: &[u32]) -> Result<Span, NoMemory> {
    let after = cut_of(alloc, after)?;
    let upto = cut_of(alloc, upto)?;
    Ok(Span {
        after,
        upto: Bound::At(upto),
    })
}

/// The span of all keys.
pub(crate) fn below_one(alloc: Global) -> Result<Span, NoMemory> {
    span_of(alloc, &[], &[1])
}

/// A span that begins before it ends.
pub(crate) fn ahead_of(
    rt: &impl Abort,
    alloc: Global,
    after: &[u32],
    upto: &[u32],
) -> Result<Span, NoMemory>
    ensures { IfOk result (λ span. is_ahead span ≡ true) }
{
    let span = span_of(alloc, after, upto)?;
    assert!(rt; span.upto.is_above_cut(&span.after));
    Ok(span)
}

/// Whether there is a span, and it begins at a cut.
pub(crate) fn begins_at(span: &Option<Span>, after: &[u32]) -> bool {
    match span {
        Some(span) => span.after.numbers() == after,
        None => false,
    }
}
