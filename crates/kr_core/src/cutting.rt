// Where a span is cut for workers.
ghost use Rattle.std.specs.Prelude.{◌≡◌, ◌<◌, ◌++◌, ◌∷◌, [], IfOk, OnOk, if◌then◌else◌};
ghost use Rattle.kr_core.specs.Cutting.{cuts_for, first_level, is_inside};

use crate::opens::is_between;
use kr_base::{Cut, NoMemory, Span};
use std::alloc::Global;

/// The cut 0.k.
pub fn first_level(alloc: Global, number: u32) -> Result<Cut, NoMemory>
    ensures { IfOk result (λ cut. cut ≡ first_level number) }
{
    let mut numbers = Vec::new(alloc);
    numbers.push(0)?;
    numbers.push(number)?;
    Ok(Cut::new(numbers))
}

fn is_inside(span: &Span, cut: &Cut) -> bool
    ensures { result ≡ is_inside span.now cut.now }
{
    is_between(&span.after, cut, &span.upto)
}

// Adds the cut of a number, if it is inside the span.
fn add_level(alloc: Global, cuts: &mut Vec<Cut>, span: &Span, number: u32) -> Result<(), NoMemory>
    ensures { OnOk result (cuts.new.items ≡ cuts.old.items ++ (if is_inside span.now (first_level number) then first_level number ∷ [] else [])) }
{
    let cut = first_level(alloc, number)?;
    if is_inside(span, &cut) {
        cuts.push(cut)?;
    }
    Ok(())
}

/// The cuts 0.1, 0.2 and so on below the number of workers, those strictly inside the span.
#[tactic(auto, using(crate::proofs::Cuts::cuts_next))]
pub fn cuts_for(alloc: Global, span: &Span, workers: u32) -> Result<Vec<Cut>, NoMemory>
    requires { 0 < workers }
    ensures { IfOk result (λ cuts. cuts.items ≡ cuts_for span.now workers) }
{
    let mut cuts = Vec::new(alloc);
    for number in 1..workers {
        add_level(alloc, &mut cuts, span, number)?;
    }
    Ok(cuts)
}
