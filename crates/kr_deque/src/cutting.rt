// A span in parts for workers.
ghost use Rattle.std.specs.Prelude.{◌≡◌, ◌<◌, ◌≤◌, ◌++◌, ◌∷◌, [], true, length, IfOk, OnOk};
ghost use Rattle.kr_base.specs.declared.span.Bound.TheVariants.{At};
ghost use Rattle.kr_survey.specs.Joins.{joined, lists};
ghost use Rattle.kr_survey.specs.Spans.{is_ahead, Adjoins};
ghost use Rattle.kr_core.specs.Cutting.{cuts_for as cuts_of};
ghost use Rattle.kr_deque_hands.specs.Building.{EachAhead};
ghost use Rattle.kr_deque.specs.Cutting.{part, parts_at, alone, padded};

use kr_base::{Bound, Cut, NoMemory, Span};
use kr_core::cuts_for;
use kr_deque_hands::copy;
use std::alloc::Global;
use std::mem;

// Adds a list of one span.
#[tactic(auto, using(crate::proofs::Cuts::lists_one))]
fn add_one(alloc: Global, spans: &mut Vec<Vec<Span>>, span: Span) -> Result<(), NoMemory>
    ensures { OnOk result (lists spans.new.items ≡ lists spans.old.items ++ (span ∷ []) ∷ []) }
{
    let mut list = Vec::new(alloc);
    list.push(span)?;
    spans.push(list)?;
    Ok(())
}

// Cuts the front of the rest off.
fn cut_at(
    alloc: Global,
    spans: &mut Vec<Vec<Span>>,
    rest: &mut Span,
    cut: Cut,
) -> Result<(), NoMemory>
    ensures lists { OnOk result (lists spans.new.items ≡ lists spans.old.items ++ (part rest.old.after (At cut) ∷ []) ∷ []) }
    ensures rest { OnOk result (rest.new ≡ part cut rest.old.upto) }
{
    let after = cut.try_clone()?;
    let before = mem::replace(&mut rest.after, after);
    add_one(
        alloc,
        spans,
        Span {
            after: before,
            upto: Bound::At(cut),
        },
    )
}

// The parts of a span over cuts, each in a list of its own.
fn parts_of(alloc: Global, span: &Span, cuts: Vec<Cut>) -> Result<Vec<Vec<Span>>, NoMemory>
    ensures { IfOk result (λ spans. lists spans.items ≡ alone (parts_at span.now.after cuts.items span.now.upto)) }
{
    let mut rest = copy(span)?;
    let mut spans = Vec::new(alloc);
    for cut in cuts {
        match cut_at(alloc, &mut spans, &mut rest, cut) {
            Ok(()) => {}
            Err(why) => return Err(why),
        }
    }
    match add_one(alloc, &mut spans, rest) {
        Ok(()) => Ok(spans),
        Err(why) => Err(why),
    }
}

// Adds empty lists up to a number.
fn pad(alloc: Global, spans: &mut Vec<Vec<Span>>, count: u32) -> Result<(), NoMemory>
    requires { length spans.old.items ≤ count }
    ensures { OnOk result (lists spans.new.items ≡ padded (lists spans.old.items) count) }
{
    while spans.len() < count as usize {
        spans.push(Vec::new(alloc))?;
    }
    Ok(())
}

/// A list for each worker: the parts of the span between the cuts 0.1, 0.2 and so on below the number of workers that are
/// strictly inside, part i in list i, and empty lists after them.
#[tactic(auto, using(crate::proofs::Cuts::laid_count, crate::proofs::Cuts::laid_ahead, crate::proofs::Cuts::laid_parts))]
pub fn spans_for(alloc: Global, span: &Span, workers: u32) -> Result<Vec<Vec<Span>>, NoMemory>
    requires workers { 0 < workers }
    requires ahead { is_ahead span.now ≡ true }
    ensures lists { IfOk result (λ spans. lists spans.items ≡ padded (alone (parts_at span.now.after (cuts_of span.now workers) span.now.upto)) workers) }
    ensures count { IfOk result (λ spans. length spans.items ≡ workers) }
    ensures ahead { IfOk result (λ spans. EachAhead spans.items) }
    ensures parts { IfOk result (λ spans. Adjoins (At span.now.after) (joined (lists spans.items)) span.now.upto) }
{
    let cuts = cuts_for(alloc, span, workers)?;
    match parts_of(alloc, span, cuts) {
        Err(why) => Err(why),
        Ok(spans) => {
            let mut spans = spans;
            match pad(alloc, &mut spans, workers) {
                Ok(()) => Ok(spans),
                Err(why) => Err(why),
            }
        }
    }
}
