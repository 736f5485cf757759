// Events, as lines.
ghost use Rattle.std.specs.Prelude.{◌++◌, codes};
ghost use Rattle.kr_base.specs.Cuts.{cut_text};
ghost use Rattle.kr_base.specs.Told.{Writes};
ghost use Rattle.kr_report_streaming.specs.Traces.{bound_text, counts_text, event_text, head_text, one_text, stop_text, trace_text, two_text};

use itoa::Buffer;
use kr_base::{Bound, Cut, Failed, Sink, put_all};
use kr_core::Event;
use kr_text::put_pieces;

/// Writes a word and a number.
fn put_one<K: Sink>(word: &[u8], a: u64, out: &mut K) -> Result<(), Failed>
    ensures { Writes K.taken K.faults out.old out.new (one_text word.now a) result }
{
    let mut first = Buffer::new();
    let a = first.format(a).as_bytes();
    put_pieces(out, &[word, a, b"\n"])
}

/// Writes a word and two numbers.
fn put_two<K: Sink>(word: &[u8], a: u64, b: u64, out: &mut K) -> Result<(), Failed>
    ensures { Writes K.taken K.faults out.old out.new (two_text word.now a b) result }
{
    let mut first = Buffer::new();
    let mut second = Buffer::new();
    let a = first.format(a).as_bytes();
    let b = second.format(b).as_bytes();
    put_pieces(out, &[word, a, b" ", b, b"\n"])
}

/// Writes a word, two numbers, and a space after them.
fn put_head<K: Sink>(word: &[u8], a: u64, b: u64, out: &mut K) -> Result<(), Failed>
    ensures { Writes K.taken K.faults out.old out.new (head_text word.now a b) result }
{
    let mut first = Buffer::new();
    let mut second = Buffer::new();
    let a = first.format(a).as_bytes();
    let b = second.format(b).as_bytes();
    put_pieces(out, &[word, a, b" ", b, b" "])
}

fn put_bound<K: Sink>(bound: &Bound, out: &mut K) -> Result<(), Failed>
    ensures { Writes K.taken K.faults out.old out.new (bound_text bound.now) result }
{
    match bound {
        Bound::At(cut) => cut.write(out),
        Bound::End => put_all(out, b"end"),
    }
}

fn put_counts<K: Sink>(rows: u64, tried: u64, spent: bool, out: &mut K) -> Result<(), Failed>
    ensures { Writes K.taken K.faults out.old out.new (counts_text rows tried spent) result }
{
    let mut first = Buffer::new();
    let mut second = Buffer::new();
    let rows = first.format(rows).as_bytes();
    let tried = second.format(tried).as_bytes();
    if spent {
        put_pieces(out, &[b" ", rows, b" ", tried, b" spent\n"])
    } else {
        put_pieces(out, &[b" ", rows, b" ", tried, b"\n"])
    }
}

fn put_steal<K: Sink>(
    seat: u64,
    victim: u64,
    cut: &Cut,
    segment: u64,
    out: &mut K,
) -> Result<(), Failed>
    ensures { Writes K.taken K.faults out.old out.new (head_text (codes "steal ") seat victim ++ (cut_text cut.now ++ one_text (codes " ") segment)) result }
{
    put_head(b"steal ", seat, victim, out)?;
    cut.write(out)?;
    put_one(b" ", segment, out)
}

fn put_report<K: Sink>(
    seat: u64,
    segment: u64,
    reach: &Bound,
    rows: u64,
    tried: u64,
    spent: bool,
    out: &mut K,
) -> Result<(), Failed>
    ensures { Writes K.taken K.faults out.old out.new (head_text (codes "report ") seat segment ++ (bound_text reach.now ++ counts_text rows tried spent)) result }
{
    put_head(b"report ", seat, segment, out)?;
    put_bound(reach, out)?;
    put_counts(rows, tried, spent, out)
}

/// Writes `stop` with a mark.
fn put_marked<K: Sink>(mark: &Cut, out: &mut K) -> Result<(), Failed>
    ensures { Writes K.taken K.faults out.old out.new (codes "stop " ++ (cut_text mark.now ++ codes "\n")) result }
{
    put_all(out, b"stop ")?;
    mark.write(out)?;
    put_all(out, b"\n")
}

fn put_stop<K: Sink>(mark: &Cut, out: &mut K) -> Result<(), Failed>
    ensures { Writes K.taken K.faults out.old out.new (stop_text mark.now) result }
{
    match mark.numbers().split_first() {
        None => put_all(out, b"stop\n"),
        Some(_) => put_marked(mark, out),
    }
}

/// Writes the line of an event. It takes no memory.
pub fn put_event<K: Sink>(event: &Event, out: &mut K) -> Result<(), Failed>
    ensures { Writes K.taken K.faults out.old out.new (event_text event.now) result }
{
    match event {
        Event::Take { seat, segment } => put_two(b"take ", u64::from(*seat), *segment, out),
        Event::Steal {
            seat,
            victim,
            cut,
            segment,
        } => put_steal(u64::from(*seat), *victim, cut, *segment, out),
        Event::Report {
            seat,
            segment,
            reach,
            rows,
            tried,
            spent,
        } => put_report(
            u64::from(*seat),
            *segment,
            reach,
            *rows,
            *tried,
            *spent,
            out,
        ),
        Event::GiveUp { seat, segment } => put_two(b"giveup ", u64::from(*seat), *segment, out),
        Event::Drain { rows } => put_one(b"drain ", *rows, out),
        Event::StopAt { mark } => put_stop(mark, out),
        Event::Look { seat } => put_one(b"look ", u64::from(*seat), out),
    }
}

/// Writes the lines of a log. It takes no memory.
pub fn put_trace<K: Sink>(events: &[Event], out: &mut K) -> Result<(), Failed>
    ensures { Writes K.taken K.faults out.old out.new (trace_text events.now) result }
{
    for event in events {
        put_event(event, out)?;
    }
    Ok(())
}
