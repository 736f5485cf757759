// The three parts of a text.
ghost use Rattle.std.specs.Prelude.{IfOk};
ghost use Rattle.kr_trace.specs.Stages.{HasParts};

use crate::ending::{Last, last_in};
use kr_base::NoMemory;
use kr_text::first_line;
use std::alloc::Global;

/// The parts of a text: how many lines are rows, the last line after them, and the text after that.
#[derive(Drop)]
pub(crate) struct Parts<'a> {
    pub(crate) rows: usize,
    pub(crate) last: Option<Last>,
    pub(crate) events: &'a [u8],
}

pub(crate) fn parts_of<'a>(alloc: Global, text: &'a [u8]) -> Result<Parts<'a>, NoMemory>
    ensures { IfOk result (λ parts. HasParts text.now parts.rows parts.last parts.events.now) }
{
    let mut rest = text;
    let mut rows = 0;
    while let Some((line, after)) = first_line(rest) {
        let last = last_in(alloc, line)?;
        if last.is_some() {
            return Ok(Parts {
                rows,
                last,
                events: after,
            });
        }
        rows += 1;
        rest = after;
    }
    Ok(Parts {
        rows,
        last: None,
        events: b"".as_slice(),
    })
}
