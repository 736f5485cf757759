// A document.
ghost use Rattle.std.specs.Prelude.{IfOk};
ghost use Rattle.kr_space_meaning.specs.Limits.{IsWithinLimits};

use kr_fin::{FinDoc, FinRefusal, read_fin};
use std::alloc::Global;

/// The document of a text.
pub fn document_of(alloc: Global, text: &str) -> Result<FinDoc, FinRefusal>
    ensures { IfOk result (λ document. IsWithinLimits document) }
{
    read_fin(alloc, text.as_bytes())
}
