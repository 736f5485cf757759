// A shard read from its text.
ghost use Rattle.std.specs.Prelude.{◌<◌, ◌^◌, IfOk, Some};
ghost use Rattle.kr_text.specs.Splitting.{lines_in, unended};
ghost use Rattle.kr_shard.specs.Shards.{ending_in, with_span};
ghost use Rattle.kr_shard.specs.Stages.{Answers, IsFront, ReadsShard, ReadsBody};

use crate::shard::{Rows, Shard, ShardRefusal};
use crate::words::{Ending, ending_of, row_key, span_of};
use kr_base::{Bound, Cut, NoMemory, Span};
use kr_text::first_line;
use std::alloc::Global;

/// The rows at the front of a text: how many, the last one's key or the cut that they are above, and their length.
#[derive(Drop)]
struct Front {
    count: u64,
    last: Cut,
    len: usize,
}

fn read_rows(alloc: Global, span: &Span, text: &[u8]) -> Result<Front, NoMemory>
    ensures { IfOk result (λ front. IsFront span.now text.now front) }
{
    let mut rest = text;
    let mut count: u64 = 0;
    let mut last = span.after.try_clone()?;
    while let Some((line, after)) = first_line(rest) {
        let Some(key) = row_key(alloc, &span.upto, &last, line)? else {
            break;
        };
        last = key;
        count += 1;
        rest = after;
    }
    Ok(Front {
        count,
        last,
        len: text.len() - rest.len(),
    })
}

/// How a text ends that goes on after the rows.
fn read_ending(
    alloc: Global,
    upto: &Bound,
    front: &Front,
    text: &[u8],
) -> Result<Ending, ShardRefusal>
    requires { front.now.count < 2 ^ 63 }
    ensures { Answers (ending_in upto.now front.now.last front.now.count (lines_in text.now) (unended text.now)) result }
{
    let Some((line, after)) = first_line(text) else {
        return Err(ShardRefusal::Malformed(front.count + 2));
    };
    let Some(ending) = ending_of(alloc, upto, &front.last, front.count, line)? else {
        return Err(ShardRefusal::Malformed(front.count + 2));
    };
    if after.is_empty() {
        Ok(ending)
    } else {
        Err(ShardRefusal::Malformed(front.count + 3))
    }
}

/// What comes after a first line.
#[derive(Drop)]
struct Body {
    rows: Rows,
    ending: Ending,
}

fn read_body(alloc: Global, span: &Span, text: &[u8]) -> Result<Body, ShardRefusal>
    ensures { ReadsBody span.now text.now result }
{
    let front = read_rows(alloc, span, text)?;
    match read_ending(alloc, &span.upto, &front, &text[front.len..]) {
        Err(refusal) => Err(refusal),
        Ok(ending) => {
            let rows = Rows::of(alloc, &text[..front.len], front.count)?;
            Ok(Body { rows, ending })
        }
    }
}

/// The shard of this span, of what comes after its first line.
fn read_after(alloc: Global, span: Span, text: &[u8]) -> Result<Shard, ShardRefusal>
    ensures { Answers (with_span (Some span) (lines_in text.now) (unended text.now)) result }
{
    let Body { rows, ending } = read_body(alloc, &span, text)?;
    let Ending { tried, spent } = ending;
    Ok(Shard {
        span,
        rows,
        tried,
        spent,
    })
}

/// The shard whose text this is.
pub fn read_shard(alloc: Global, text: &[u8]) -> Result<Shard, ShardRefusal>
    ensures { ReadsShard text.now result }
{
    let Some((line, rest)) = first_line(text) else {
        return Err(ShardRefusal::Malformed(1));
    };
    match span_of(alloc, line)? {
        Some(span) => read_after(alloc, span, rest),
        None => Err(ShardRefusal::Malformed(1)),
    }
}
