// Events with the replies and states that they lead to, worked by hand. Each is a line of text: events as the trace
// writes them, cuts as numbers joined by dots, `.` for the empty cut; a state as the next number, what was tried in
// segments that are gone, the end and whether it is spent, and then each segment as its number, owner or `-`, after, mark,
// upto, rows and tried.

use crate::texts::{after_bound, after_number, after_word, are_segments, is_lease};
use kr_base::{Bound, Cut, Span};
use kr_core::{Core, CoreRefusal, Event, Reply, Segment, counting_law, kept_law};
use kr_report_streaming::put_event;
use kr_text::Line;
use std::alloc::Global;
use std::process::Abort;

fn cut_of(alloc: Global, text: &str) -> Option<Cut> {
    if text == "." {
        Some(Cut::empty(alloc))
    } else {
        Cut::parse(alloc, text).ok()
    }
}

fn bound_of(alloc: Global, text: &str) -> Option<Bound> {
    if text == "end" {
        Some(Bound::End)
    } else {
        Some(Bound::At(cut_of(alloc, text)?))
    }
}

/// A word of a line; the empty one where there is none.
fn word(line: &str, at: usize) -> &str {
    let mut place: usize = 0;
    for piece in line.split(' ') {
        if place == at {
            return piece;
        }
        place = place.saturating_add(1);
    }
    ""
}

/// A word of a line as a number; 0 where it is none.
fn number(line: &str, at: usize) -> u64 {
    match word(line, at).parse::<u64>() {
        Ok(number) => number,
        Err(_) => 0,
    }
}

/// The second word of a line as a seat.
fn seat(line: &str) -> u32 {
    u32::try_from(number(line, 1)).unwrap_or(0)
}

/// An event that speaks of no cut.
fn plain_of(kind: &str, line: &str) -> Event {
    let seat = seat(line);
    let segment = number(line, 2);
    if kind == "drain" {
        Event::Drain {
            rows: number(line, 1),
        }
    } else if kind == "look" {
        Event::Look { seat }
    } else if kind == "take" {
        Event::Take { seat, segment }
    } else {
        Event::GiveUp { seat, segment }
    }
}

fn event_of(alloc: Global, line: &str) -> Option<Event> {
    let kind = word(line, 0);
    if kind == "report" {
        Some(Event::Report {
            reach: bound_of(alloc, word(line, 3))?,
            seat: seat(line),
            segment: number(line, 2),
            rows: number(line, 4),
            tried: number(line, 5),
            spent: word(line, 6) == "spent",
        })
    } else if kind == "steal" {
        Some(Event::Steal {
            cut: cut_of(alloc, word(line, 3))?,
            seat: seat(line),
            victim: number(line, 2),
            segment: number(line, 4),
        })
    } else if kind == "stop" {
        Some(Event::StopAt {
            mark: cut_of(alloc, word(line, 1))?,
        })
    } else {
        Some(plain_of(kind, line))
    }
}

/// Whether a text is the line of an event.
fn is_line(alloc: Global, event: &Event, text: &str) -> bool {
    let mut line = Line::new(alloc);
    put_event(event, &mut line).is_ok()
        && match line.bytes().split_last() {
            Some((end, front)) => *end == b'\n' && front == text.as_bytes(),
            None => false,
        }
}

fn is_reply(reply: &Reply, text: &str) -> bool {
    match reply {
        Reply::Lease(lease) => is_lease(lease, "lease", text),
        Reply::Go(lease) => is_lease(lease, "go", text),
        Reply::Done => text == "done",
        Reply::Noted => text == "noted",
    }
}

/// Whether an event is answered so: `illegal`, where it comes back as it was.
fn is_answered(alloc: Global, core: &mut Core, event: Event, line: &str, reply: &str) -> bool {
    match core.apply(event) {
        Ok(made) => is_reply(&made, reply),
        Err(CoreRefusal::Illegal(event)) => reply == "illegal" && is_line(alloc, &event, line),
        Err(CoreRefusal::NoMemory(_)) => false,
    }
}

/// `NEXT PAST END`, and `spent` where it is.
fn after_counts<'a>(text: &'a str, core: &Core) -> Option<&'a str> {
    let text = after_number(text, core.next())?;
    let text = after_number(text, core.past())?;
    let text = after_bound(text, core.end())?;
    if core.is_spent() {
        after_word(text, "spent")
    } else {
        Some(text)
    }
}

fn is_state(core: &Core, text: &str) -> bool {
    match after_counts(text, core) {
        Some(text) => are_segments(core.segments(), text),
        None => false,
    }
}

fn span_of(alloc: Global, after: &str, upto: &str) -> Option<Span> {
    let after = cut_of(alloc, after)?;
    let upto = bound_of(alloc, upto)?;
    Some(Span { after, upto })
}

/// Adds the cuts; false where one is none, or memory is refused.
fn push_cuts(alloc: Global, all: &mut Vec<Cut>, cuts: &[&str]) -> bool {
    for cut in cuts {
        match cut_of(alloc, cut) {
            Some(cut) => {
                if all.push(cut).is_err() {
                    return false;
                }
            }
            None => return false,
        }
    }
    true
}

/// The machine in its opening state, where the cuts are inside the span.
fn opened_with(alloc: Global, span: &Span, cuts: &[&str]) -> Option<Core> {
    let mut all = Vec::new(alloc);
    let made = push_cuts(alloc, &mut all, cuts);
    if !made || !Core::can_open(span, all.as_slice()) {
        return None;
    }
    Core::open(alloc, span, all.as_slice()).ok()
}

fn opened(alloc: Global, after: &str, upto: &str, cuts: &[&str]) -> Option<Core> {
    match span_of(alloc, after, upto) {
        Some(span) => opened_with(alloc, &span, cuts),
        None => None,
    }
}

/// Whether a span with cuts opens in this state.
fn opens(alloc: Global, after: &str, upto: &str, cuts: &[&str], state: &str) -> bool {
    match opened(alloc, after, upto, cuts) {
        Some(core) => is_state(&core, state),
        None => false,
    }
}

/// Whether a span doesn't open with these cuts.
fn refuses_to_open(alloc: Global, span: &Span, cuts: &[&str]) -> bool {
    let mut all = Vec::new(alloc);
    push_cuts(alloc, &mut all, cuts) && !Core::can_open(span, all.as_slice())
}

fn refuses(alloc: Global, after: &str, upto: &str, cuts: &[&str]) -> bool {
    match span_of(alloc, after, upto) {
        Some(span) => refuses_to_open(alloc, &span, cuts),
        None => false,
    }
}

/// Whether the event of a line is answered so, and leads to this state.
fn steps(alloc: Global, core: &mut Core, line: &str, reply: &str, state: &str) -> bool {
    let Some(event) = event_of(alloc, line) else {
        return false;
    };
    let fits = core.fits(&event);
    fits == (reply != "illegal")
        && is_answered(alloc, core, event, line, reply)
        && is_state(core, state)
}

/// Takes the events one after another. An empty state stands for the one before.
fn run_on(
    rt: &impl Abort,
    alloc: Global,
    core: &mut Core,
    opening: &str,
    rows: &[(&str, &str, &str)],
) {
    let mut state = opening;
    for row in rows {
        let (line, reply, then) = *row;
        if !then.is_empty() {
            state = then;
        }
        assert!(rt; steps(alloc, core, line, reply, state), "at {line}");
    }
}

/// The same from the opening state on.
fn run(
    rt: &impl Abort,
    alloc: Global,
    core: Option<Core>,
    opening: &str,
    rows: &[(&str, &str, &str)],
) {
    match core {
        Some(core) => {
            let mut core = core;
            run_on(rt, alloc, &mut core, opening, rows);
        }
        None => assert!(rt; false, "it doesn't open"),
    }
}

#[test]
fn openings(rt: HostRuntime) {
    let none: &[&str] = &[];
    for (after, upto, cuts, state) in [
        (".", "end", none, "1 0 end ; 0 - . . end 0 0"),
        (
            ".",
            "end",
            &["0.1", "0.2"],
            "3 0 end ; 0 - . . 0.1 0 0 ; 1 - 0.1 0.1 0.2 0 0 ; 2 - 0.2 0.2 end 0 0",
        ),
        (
            "1",
            "2.5",
            &["1.0", "2"],
            "3 0 2.5 ; 0 - 1 1 1.0 0 0 ; 1 - 1.0 1.0 2 0 0 ; 2 - 2 2 2.5 0 0",
        ),
        ("2", "1", none, "1 0 2 ; 0 - 2 2 2 0 0"),
        ("2", "2", none, "1 0 2 ; 0 - 2 2 2 0 0"),
    ] {
        assert!(rt; opens(rt.alloc(), after, upto, cuts, state), "{state}");
    }
}

#[test]
fn refused_cuts(rt: HostRuntime) {
    for (after, upto, first, second) in [
        (".", "end", ".", "1"),
        ("1", "2", "1.5", "2"),
        ("1", "3", "2", "2"),
        ("1", "3", "2.5", "2"),
        ("3", "1", "2", "2.5"),
    ] {
        assert!(rt;
            refuses(rt.alloc(), after, upto, &[first, second]),
            "at {first} and {second}"
        );
    }
}

#[test]
fn three_segments(rt: HostRuntime) {
    let core = opened(rt.alloc(), ".", "end", &["1", "2"]);
    run(
        &rt,
        rt.alloc(),
        core,
        "3 0 end ; 0 - . . 1 0 0 ; 1 - 1 1 2 0 0 ; 2 - 2 2 end 0 0",
        &[
            (
                "take 5 0",
                "lease 5 0 . 1",
                "3 0 end ; 0 5 . . 1 0 0 ; 1 - 1 1 2 0 0 ; 2 - 2 2 end 0 0",
            ),
            (
                "take 6 1",
                "lease 6 1 1 2",
                "3 0 end ; 0 5 . . 1 0 0 ; 1 6 1 1 2 0 0 ; 2 - 2 2 end 0 0",
            ),
            (
                "report 5 0 0.3 1 2",
                "go 5 0 0.3 1",
                "3 0 end ; 0 5 . 0.3 1 1 2 ; 1 6 1 1 2 0 0 ; 2 - 2 2 end 0 0",
            ),
            (
                "steal 7 0 0.5 3",
                "lease 7 3 0.5 1",
                "4 0 end ; 0 5 . 0.3 0.5 1 2 ; 3 7 0.5 0.5 1 0 0 ; 1 6 1 1 2 0 0 ; 2 - 2 2 end 0 0",
            ),
            ("report 5 0 1 0 1", "illegal", ""),
            (
                "report 5 0 0.5 0 1",
                "done",
                "4 0 end ; 0 - . 0.5 0.5 1 3 ; 3 7 0.5 0.5 1 0 0 ; 1 6 1 1 2 0 0 ; 2 - 2 2 end 0 0",
            ),
            ("take 5 0", "illegal", ""),
            (
                "drain 1",
                "noted",
                "4 3 end ; 3 7 0.5 0.5 1 0 0 ; 1 6 1 1 2 0 0 ; 2 - 2 2 end 0 0",
            ),
            (
                "report 6 1 1.5 2 4 spent",
                "done",
                "4 3 1.5 spent ; 3 7 0.5 0.5 1 0 0 ; 1 - 1 1.5 1.5 2 4",
            ),
            (
                "giveup 7 3",
                "noted",
                "4 3 1.5 spent ; 3 - 0.5 0.5 1 0 0 ; 1 - 1 1.5 1.5 2 4",
            ),
            ("look 9", "noted", ""),
            (
                "take 8 3",
                "lease 8 3 0.5 1",
                "4 3 1.5 spent ; 3 8 0.5 0.5 1 0 0 ; 1 - 1 1.5 1.5 2 4",
            ),
            (
                "report 8 3 1 1 1",
                "done",
                "4 3 1.5 spent ; 3 - 0.5 1 1 1 1 ; 1 - 1 1.5 1.5 2 4",
            ),
            ("drain 3", "noted", "4 4 1.5 spent ; 1 - 1 1.5 1.5 0 4"),
            ("stop 1.5", "noted", ""),
            ("drain 0", "noted", ""),
        ],
    );
}

#[test]
fn stop_at_the_first_of_several(rt: HostRuntime) {
    let core = opened(rt.alloc(), ".", "3", &["1"]);
    run(
        &rt,
        rt.alloc(),
        core,
        "2 0 3 ; 0 - . . 1 0 0 ; 1 - 1 1 3 0 0",
        &[
            (
                "take 0 0",
                "lease 0 0 . 1",
                "2 0 3 ; 0 0 . . 1 0 0 ; 1 - 1 1 3 0 0",
            ),
            (
                "report 0 0 0.2 0 3",
                "go 0 0 0.2 1",
                "2 0 3 ; 0 0 . 0.2 1 0 3 ; 1 - 1 1 3 0 0",
            ),
            (
                "take 1 1",
                "lease 1 1 1 3",
                "2 0 3 ; 0 0 . 0.2 1 0 3 ; 1 1 1 1 3 0 0",
            ),
            (
                "report 1 1 2 1 2 spent",
                "done",
                "2 0 2 spent ; 0 0 . 0.2 1 0 3 ; 1 - 1 2 2 1 2",
            ),
            ("stop 0.2", "noted", "2 0 0.2 ; 0 - . 0.2 0.2 0 3"),
        ],
    );
}

#[test]
fn greatest_counts(rt: HostRuntime) {
    let core = opened(rt.alloc(), ".", "end", &["1"]);
    run(
        &rt,
        rt.alloc(),
        core,
        "2 0 end ; 0 - . . 1 0 0 ; 1 - 1 1 end 0 0",
        &[
            (
                "take 0 0",
                "lease 0 0 . 1",
                "2 0 end ; 0 0 . . 1 0 0 ; 1 - 1 1 end 0 0",
            ),
            (
                "report 0 0 0.2 18446744073709551615 18446744073709551615",
                "go 0 0 0.2 1",
                "2 0 end ; 0 0 . 0.2 1 18446744073709551615 18446744073709551615 ; 1 - 1 1 end 0 0",
            ),
            (
                "report 0 0 1 1 1",
                "done",
                "2 0 end ; 0 - . 1 1 18446744073709551615 18446744073709551615 ; 1 - 1 1 end 0 0",
            ),
            (
                "take 0 1",
                "lease 0 1 1 end",
                "2 0 end ; 0 - . 1 1 18446744073709551615 18446744073709551615 ; 1 0 1 1 end 0 0",
            ),
            (
                "report 0 1 end 1 1",
                "done",
                "2 0 end ; 0 - . 1 1 18446744073709551615 18446744073709551615 ; 1 - 1 end end 1 1",
            ),
            (
                "drain 18446744073709551615",
                "noted",
                "2 18446744073709551615 end ; 1 - 1 end end 0 1",
            ),
            ("take 0 1", "illegal", ""),
            ("stop 1", "illegal", ""),
        ],
    );
}

#[test]
fn events_that_fit_nowhere(rt: HostRuntime) {
    let core = opened(rt.alloc(), ".", "end", &["1", "2"]);
    run(
        &rt,
        rt.alloc(),
        core,
        "3 0 end ; 0 - . . 1 0 0 ; 1 - 1 1 2 0 0 ; 2 - 2 2 end 0 0",
        &[
            (
                "take 5 0",
                "lease 5 0 . 1",
                "3 0 end ; 0 5 . . 1 0 0 ; 1 - 1 1 2 0 0 ; 2 - 2 2 end 0 0",
            ),
            (
                "report 5 0 0.3 1 2",
                "go 5 0 0.3 1",
                "3 0 end ; 0 5 . 0.3 1 1 2 ; 1 - 1 1 2 0 0 ; 2 - 2 2 end 0 0",
            ),
            (
                "take 7 2",
                "lease 7 2 2 end",
                "3 0 end ; 0 5 . 0.3 1 1 2 ; 1 - 1 1 2 0 0 ; 2 7 2 2 end 0 0",
            ),
            ("take 6 0", "illegal", ""),
            ("take 6 3", "illegal", ""),
            ("steal 6 1 1.5 3", "illegal", ""),
            ("steal 6 4 0.5 3", "illegal", ""),
            ("steal 6 0 0.3 3", "illegal", ""),
            ("steal 6 0 1 3", "illegal", ""),
            ("steal 6 0 0.5 2", "illegal", ""),
            ("steal 6 0 0.5 4", "illegal", ""),
            ("report 6 0 0.5 0 1", "illegal", ""),
            ("report 5 1 1.5 0 1", "illegal", ""),
            ("report 5 3 0.5 0 1", "illegal", ""),
            ("report 5 0 0.3 0 0", "illegal", ""),
            ("report 5 0 1.1 0 1", "illegal", ""),
            ("report 5 0 0.5 2 1", "illegal", ""),
            ("report 5 0 0.5 1 1 spent", "illegal", ""),
            ("report 7 2 end 0 1 spent", "illegal", ""),
            ("giveup 6 0", "illegal", ""),
            ("giveup 5 1", "illegal", ""),
            ("giveup 5 3", "illegal", ""),
            ("drain 0", "illegal", ""),
            ("drain 2", "illegal", ""),
            ("stop 0.2", "illegal", ""),
            ("stop 1", "illegal", ""),
        ],
    );
}

#[test]
fn a_span_with_nothing_in_it(rt: HostRuntime) {
    kept_law();
    counting_law::<u8>();
    let core = opened(rt.alloc(), "2", "1", &[]);
    run(
        &rt,
        rt.alloc(),
        core,
        "1 0 2 ; 0 - 2 2 2 0 0",
        &[
            ("take 0 0", "illegal", ""),
            ("drain 0", "noted", ""),
            ("stop 2", "noted", ""),
        ],
    );
}

/// Whether events are taken.
fn are_taken(alloc: Global, core: &mut Core, lines: &[&str]) -> bool {
    for line in lines {
        match event_of(alloc, line) {
            Some(event) => {
                if core.apply(event).is_err() {
                    return false;
                }
            }
            None => return false,
        }
    }
    true
}

/// Whether a segment has a remainder, is owned, is owned by 6, is closed.
fn tells(segment: &Segment, wanted: [bool; 4]) -> bool {
    segment.has_remainder() == wanted[0]
        && segment.is_owned() == wanted[1]
        && segment.is_owned_by(6) == wanted[2]
        && segment.is_closed() == wanted[3]
}

fn all_tell(segments: &[Segment], wanted: &[[bool; 4]]) -> bool {
    for at in 0..segments.len() {
        match (segments.get(at), wanted.get(at)) {
            (Some(segment), Some(wanted)) => {
                if !tells(segment, *wanted) {
                    return false;
                }
            }
            _ => return false,
        }
    }
    segments.len() == wanted.len()
}

/// Whether three segments tell so, where the first is scanned and the second is taken.
fn three_tell(alloc: Global, core: Option<Core>, wanted: &[[bool; 4]]) -> bool {
    match core {
        Some(core) => {
            let mut core = core;
            let lines = ["take 5 0", "report 5 0 1 0 1", "take 6 1"];
            are_taken(alloc, &mut core, &lines) && all_tell(core.segments(), wanted)
        }
        None => false,
    }
}

#[test]
fn what_segments_tell(rt: HostRuntime) {
    let wanted = [
        [false, false, false, true],
        [true, true, true, false],
        [true, false, false, false],
    ];
    let core = opened(rt.alloc(), ".", "end", &["1", "2"]);
    assert!(rt; three_tell(rt.alloc(), core, &wanted));
}
