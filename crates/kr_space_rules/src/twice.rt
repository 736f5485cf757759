// Whether a domain has a value twice.
ghost use Rattle.std.specs.Prelude.{◌≡◌, All, IfOk, map};
ghost use Rattle.std.specs.List.Sorted.{IsNonDecreasingBy, IsPermutation};
ghost use Rattle.kr_space_rules.specs.Vocabulary.{all_choices, has_twice_in, IsNumbered, stretch_of};
ghost use Rattle.kr_space_rules.specs.Spans.{meet};

use crate::spans::{Span, spans_of};
use kr_base::NoMemory;
use kr_space_layout::{Block, DomainEntry};
use std::alloc::Global;

/// Brings spans into the order of their starts.
fn sort_spans(spans: &mut Vec<Span>)
    ensures permutation { IsPermutation spans.old.items spans.new.items }
    ensures sorted { IsNonDecreasingBy (λ s. s.start) spans.new.items }
{
    spans.sort_unstable_by_key(|span| span.start);
}

/// Whether one of the spans begins before the one in front of it ends.
fn spans_meet(spans: &[Span]) -> bool
    ensures { result ≡ meet (record { start = 0; count = 0 }) spans.now }
{
    let mut last = Span { start: 0, count: 0 };
    for span in spans {
        if span.start.saturating_sub(last.start) < last.count {
            return true;
        }
        last = *span;
    }
    false
}

/// Whether a value occurs twice among these entries, where these are the objects of the class domains.
pub fn has_twice(alloc: Global, items: &[DomainEntry], blocks: &[Block]) -> Result<bool, NoMemory>
    requires { All IsNumbered blocks.now }
    ensures { IfOk result (λ b. b ≡ has_twice_in (all_choices (map (stretch_of blocks.now) items.now))) }
{
    let mut spans = spans_of(alloc, items, blocks)?;
    sort_spans(&mut spans);
    Ok(spans_meet(&spans))
}
