// Builders with their numbers.
ghost use Rattle.std.specs.Prelude.{◌≡◌, ◌++◌, ◌∷◌, [], IfOk, OnOk};
ghost use Rattle.kr_emit.specs.Writers.{line_at, numbered, text_at};

use crate::making::Builder;
use itoa::Buffer;
use kr_base::{Cut, NoMemory};
use kr_report_streaming::{RowLine, Text};
use std::alloc::Global;
use std::mem;

/// A builder's text.
fn text_of(alloc: Global, builder: &Builder, number: u64) -> Result<Text, NoMemory>
    ensures { IfOk result (λ text. text ≡ text_at number builder.now) }
{
    let mut buffer = Buffer::new();
    let mut bytes = Vec::from_slice(alloc, builder.front.as_slice())?;
    bytes.extend_from_slice(buffer.format(number).as_bytes())?;
    bytes.extend_from_slice(builder.rest.as_slice())?;
    Ok(Text::new(bytes))
}

/// A builder as a line, which takes its key.
pub(crate) fn line_of(
    alloc: Global,
    builder: &mut Builder,
    number: u64,
) -> Result<RowLine, NoMemory>
    ensures { IfOk result (λ line. line ≡ line_at number builder.old) }
{
    let text = text_of(alloc, &*builder, number)?;
    Ok(RowLine {
        key: mem::replace(&mut builder.key, Cut::empty(alloc)),
        text,
        failing: false,
    })
}

/// Adds a builder as a line.
fn add_line(
    alloc: Global,
    builder: Builder,
    number: u64,
    lines: &mut Vec<RowLine>,
) -> Result<(), NoMemory>
    ensures { OnOk result (lines.new.items ≡ lines.old.items ++ line_at number builder ∷ []) }
{
    let mut builder = builder;
    let line = line_of(alloc, &mut builder, number)?;
    lines.push(line)?;
    Ok(())
}

/// Builders as lines, numbered from a number on.
#[tactic(auto, using(crate::proofs::Numbered::numbered_more))]
pub(crate) fn lines_of(
    alloc: Global,
    builders: Vec<Builder>,
    first: u32,
) -> Result<Vec<RowLine>, NoMemory>
    ensures { IfOk result (λ lines. lines.items ≡ numbered first builders.items) }
{
    let mut lines = Vec::new(alloc);
    let mut number = u64::from(first);
    for builder in builders {
        add_line(alloc, builder, number, &mut lines)?;
        number = number.saturating_add(1);
    }
    Ok(lines)
}
