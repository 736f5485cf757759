// The end of a log, and the last line.
ghost use Rattle.std.specs.Prelude.{◌≡◌, ◌+◌, ◌<◌, ◌^◌, length};
ghost use Rattle.kr_base.specs.Bounds.{is_same, less};
ghost use Rattle.kr_core.specs.Openings.{end_of};
ghost use Rattle.kr_trace.specs.Checked.{agrees, ended_with, is_whole};
ghost use Rattle.kr_trace.specs.Stages.{Answers};

use crate::ending::Last;
use crate::judging::Listing;
use crate::reading::bad;
use crate::refusal::{TraceRefusal, TraceRule};
use crate::replay::{Replay, is_at};
use crate::rows::Rows;
use kr_base::{Bound, Span};

fn is_same(a: &Bound, b: &Bound) -> bool
    ensures { result ≡ is_same a.now b.now }
{
    !a.is_below(b) && !b.is_below(a)
}

/// Whether all of the span was scanned, and none was spent.
fn is_whole(span: &Span, core: &Replay) -> bool
    ensures { result ≡ is_whole span.now core.now }
{
    let end = core.end();
    if core.is_spent() {
        return false;
    }
    if span.upto.is_above_cut(&span.after) {
        is_same(end, &span.upto)
    } else {
        is_at(end, &span.after)
    }
}

/// Whether the last line says what rows and events say.
fn agrees(span: &Span, rows: &Rows, core: &Replay, last: &Last) -> bool
    ensures { result ≡ agrees span.now rows.now core.now last.now }
{
    match last {
        Last::Listed(valid, tried) => {
            *valid == rows.len() as u64 && (*tried == core.tried() && is_whole(span, core))
        }
        Last::Tested(valid, failing, tried) => {
            *valid == rows.len() as u64
                && (*failing == rows.failing() && (*tried == core.tried() && is_whole(span, core)))
        }
        Last::More(key) => rows.is_last(key) && core.end().is_above_cut(key),
        Last::Spent(key) => core.is_spent() && (is_at(core.end(), key) && rows.are_below(key)),
    }
}

/// The end of a log of so many events, whose last line has a number.
pub(crate) fn end_log(
    span: &Span,
    listing: &Listing,
    core: &Replay,
    number: u64,
    count: u64,
) -> Result<u64, TraceRefusal>
    requires { number + count + 1 < 2 ^ 64 }
    ensures { Answers (ended_with span.now listing.now.rows listing.now.last number count core.now) result }
{
    if !core.are_closed() {
        return Err(bad(number + count + 1, TraceRule::Unfinished));
    }
    if agrees(span, &listing.rows, core, &listing.last) {
        Ok(count)
    } else {
        Err(bad(number, TraceRule::OtherEnding))
    }
}
