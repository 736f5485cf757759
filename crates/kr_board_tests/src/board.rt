// Boards over four keys, worked by hand. Each row has a call, what comes of it, and the board then: its number of events,
// and of each segment number, owner or `-`, after, mark, upto, rows and tried. Cuts are numbers joined by dots, `.` the
// empty one. Comparing takes no memory, so that a call that is refused memory may be made again.
ghost use Rattle.std.specs.Prelude.{◌<◌};

use crate::survey::{cut_of, push_valid, scan, survey_of};
use crate::texts::{after_cut, after_number, after_word, are_segments, ends, is_cut, is_lease};
use kr_base::{Bound, Cut, Entry, NoMemory, Span};
use kr_board::{Board, Closed, GivenUp, Lease, Refused, Reported, Taken, is_possible};
use kr_core::Core;
use kr_survey::{ListSurvey, Part, Rows};
use std::alloc::Global;
use std::process::Abort;
use std::test::Fail;

fn push_keys(alloc: Global, entries: &mut Vec<Entry<Cut>>) -> Result<(), NoMemory> {
    for number in [1, 2, 3, 4] {
        push_valid(alloc, entries, &[0, number])?;
    }
    Ok(())
}

// Valid at 0.1, 0.2, 0.3 and 0.4; a row is its key.
fn four_keys(rt: &impl Abort, alloc: Global) -> Result<ListSurvey, NoMemory> {
    let mut entries = Vec::new(alloc);
    push_keys(alloc, &mut entries)?;
    Ok(survey_of(rt, alloc, entries))
}

const MODULUS: u64 = 1_000_000_007;

fn mixed(sum: u64, number: u64) -> u64 {
    (sum % MODULUS) * 31 + number % MODULUS
}

fn bound_sum(sum: u64, bound: &Bound) -> u64 {
    let mut sum = sum;
    if let Bound::At(cut) = bound {
        for number in cut.numbers() {
            sum = mixed(sum, u64::from(*number));
        }
    }
    mixed(sum, 11)
}

// A number of all that shows of a board: where a call is refused memory, it stays.
fn board_sum(board: &Board<Cut>) -> u64 {
    let mut sum = board.log().len() as u64;
    for segment in board.segments() {
        sum = mixed(sum, segment.number);
        sum = bound_sum(sum, &segment.after);
        sum = bound_sum(sum, &segment.mark);
        sum = bound_sum(sum, &segment.upto);
        sum = mixed(sum, u64::from(segment.owner.unwrap_or(99)));
        sum = mixed(sum, segment.rows);
        sum = mixed(sum, segment.tried);
    }
    sum
}

// A call that is refused memory leaves the board as it was, and is made again.
fn take(rt: &impl Abort, board: &mut Board<Cut>, seat: u32) -> Result<Taken, NoMemory> {
    let before = board_sum(board);
    match board.take(seat) {
        Ok(taken) => Ok(taken),
        Err(_) => {
            assert!(rt; board_sum(board) == before, "not as before");
            board.take(seat)
        }
    }
}

fn drain(rt: &impl Abort, board: &mut Board<Cut>) -> Result<Rows<Cut>, NoMemory> {
    let before = board_sum(board);
    match board.drain() {
        Ok(rows) => Ok(rows),
        Err(_) => {
            assert!(rt; board_sum(board) == before, "not as before");
            board.drain()
        }
    }
}

fn stop_once(rt: &impl Abort, board: &mut Board<Cut>) -> Result<Cut, NoMemory> {
    let can_stop = board.can_stop();
    assert!(rt; can_stop, "the first mark is a cut");
    board.stop()
}

fn stop(rt: &impl Abort, board: &mut Board<Cut>) -> Result<Cut, NoMemory> {
    let before = board_sum(board);
    match stop_once(rt, board) {
        Ok(mark) => Ok(mark),
        Err(_) => {
            assert!(rt; board_sum(board) == before, "not as before");
            stop_once(rt, board)
        }
    }
}

// A report that was refused memory, made again.
fn report_again(
    rt: &impl Abort,
    board: &mut Board<Cut>,
    lease: Lease,
    part: Part<Cut>,
) -> Result<Reported<Cut>, NoMemory> {
    let possible = is_possible(&lease.mark, &part);
    assert!(rt; possible, "not as before: the part");
    let few = board.is_few(&part);
    assert!(rt; few, "more than 256 rows");
    match board.report(lease, part) {
        Ok(reported) => Ok(reported),
        Err(refused) => Err(refused.why),
    }
}

// A part under a lease.
fn report_part(
    rt: &impl Abort,
    board: &mut Board<Cut>,
    lease: Lease,
    part: Part<Cut>,
) -> Result<Reported<Cut>, NoMemory> {
    let possible = is_possible(&lease.mark, &part);
    assert!(rt; possible, "a part of a survey");
    let few = board.is_few(&part);
    assert!(rt; few, "more than 256 rows");
    let before = board_sum(board);
    match board.report(lease, part) {
        Ok(reported) => Ok(reported),
        Err(Refused { lease, part, .. }) => {
            assert!(rt; board_sum(board) == before, "not as before");
            report_again(rt, board, lease, part)
        }
    }
}

fn lease_again(lease: &Lease) -> Result<Lease, NoMemory> {
    Ok(Lease {
        seat: lease.seat,
        segment: lease.segment,
        mark: lease.mark.try_clone()?,
        upto: lease.upto.try_clone()?,
    })
}

// A scan up to a lease's own upto, reported under it.
fn report(
    rt: &impl Abort,
    board: &mut Board<Cut>,
    survey: &ListSurvey,
    lease: &Lease,
    most: u32,
) -> Result<Reported<Cut>, NoMemory>
    requires { 0 < most }
{
    let part = scan(survey, &lease.mark, &lease.upto, most)?;
    match lease_again(lease) {
        Ok(lease) => report_part(rt, board, lease, part),
        Err(why) => Err(why),
    }
}

// A lease goes to the others.
fn is_given(
    leases: &mut Vec<Lease>,
    lease: Lease,
    kind: &str,
    wanted: &str,
) -> Result<bool, NoMemory> {
    let is_wanted = is_lease(&lease, kind, wanted);
    leases.push(lease)?;
    Ok(is_wanted)
}

fn is_taken(leases: &mut Vec<Lease>, taken: Taken, wanted: &str) -> Result<bool, NoMemory> {
    match taken {
        Taken::Lease(lease) => is_given(leases, lease, "lease", wanted),
        Taken::Later => Ok(wanted == "later"),
        Taken::Finished => Ok(wanted == "finished"),
    }
}

fn is_reported(
    leases: &mut Vec<Lease>,
    reported: Reported<Cut>,
    wanted: &str,
) -> Result<bool, NoMemory> {
    match reported {
        Reported::Gone => Ok(wanted == "gone"),
        Reported::Moved(mark) => Ok(match after_word(wanted, "moved") {
            Some(text) => is_cut(&mark, text),
            None => false,
        }),
        Reported::Overrun(lease) => is_given(leases, lease, "overrun", wanted),
        Reported::Full(lease, _part) => is_given(leases, lease, "full", wanted),
        Reported::Done => Ok(wanted == "done"),
        Reported::Go(lease) => is_given(leases, lease, "go", wanted),
    }
}

fn after_piece<'a>(text: &'a str, piece: &[Cut]) -> Option<&'a str> {
    let mut text = text;
    for row in piece {
        text = after_cut(text, row)?;
    }
    Some(text)
}

/// `rows ROW ..`
fn after_rows<'a>(text: &'a str, pieces: &[Vec<Cut>]) -> Option<&'a str> {
    let mut text = after_word(text, "rows")?;
    for piece in pieces {
        text = after_piece(text, piece.as_slice())?;
    }
    Some(text)
}

#[derive(Clone, Copy)]
enum Call {
    Take { seat: u32 },
    Report { lease: usize, most: u32 },
    GiveUp { lease: usize },
    ReleaseAll,
    Drain,
    Stop,
    IsFinished,
}

// The lease at a place in the list of all that were given.
fn answers_report(
    rt: &impl Abort,
    board: &mut Board<Cut>,
    survey: &ListSurvey,
    leases: &mut Vec<Lease>,
    at: usize,
    most: u32,
    wanted: &str,
) -> Result<bool, NoMemory> {
    match leases.get(at) {
        Some(lease) => {
            let reported = report(rt, board, survey, lease, most.max(1))?;
            is_reported(leases, reported, wanted)
        }
        None => Ok(false),
    }
}

fn answers_give_up(board: &mut Board<Cut>, leases: &[Lease], at: usize, wanted: &str) -> bool {
    match leases.get(at) {
        Some(lease) => match board.give_up(lease) {
            GivenUp::Released => wanted == "released",
            GivenUp::Gone => wanted == "gone",
        },
        None => false,
    }
}

fn answers_drain(rt: &impl Abort, board: &mut Board<Cut>, wanted: &str) -> Result<bool, NoMemory> {
    let rows = drain(rt, board)?;
    Ok(ends(after_rows(wanted, rows.pieces())))
}

fn answers_stop(rt: &impl Abort, board: &mut Board<Cut>, wanted: &str) -> Result<bool, NoMemory> {
    let mark = stop(rt, board)?;
    Ok(is_cut(&mark, wanted))
}

/// Whether a call is answered so.
fn answers(
    rt: &impl Abort,
    board: &mut Board<Cut>,
    survey: &ListSurvey,
    leases: &mut Vec<Lease>,
    call: Call,
    wanted: &str,
) -> Result<bool, NoMemory> {
    match call {
        Call::Take { seat } => {
            let taken = take(rt, board, seat)?;
            is_taken(leases, taken, wanted)
        }
        Call::Report { lease, most } => {
            answers_report(rt, board, survey, leases, lease, most, wanted)
        }
        Call::GiveUp { lease } => Ok(answers_give_up(board, leases.as_slice(), lease, wanted)),
        Call::ReleaseAll => {
            board.release_all();
            Ok(wanted.is_empty())
        }
        Call::Drain => answers_drain(rt, board, wanted),
        Call::Stop => answers_stop(rt, board, wanted),
        Call::IsFinished => Ok(wanted == if board.is_finished() { "true" } else { "false" }),
    }
}

/// `COUNT events`, and the segments.
fn is_board(board: &Board<Cut>, text: &str) -> bool {
    match after_number(text, board.log().len() as u64) {
        Some(text) => match after_word(text, "events") {
            Some(text) => are_segments(board.segments(), text),
            None => false,
        },
        None => false,
    }
}

// From the empty cut up to 1, without cuts.
fn opened(rt: &impl Abort, alloc: Global, survey: &ListSurvey) -> Result<Board<Cut>, NoMemory> {
    let upto = Bound::At(cut_of(alloc, &[1])?);
    let span = Span {
        after: Cut::empty(alloc),
        upto,
    };
    let cuts: [Cut; 0] = [];
    let inside = Core::can_open(&span, &cuts);
    assert!(rt; inside, "the cuts are inside");
    Board::new(alloc, survey, span, &cuts)
}

// The same, cut at 0.2, and with a window.
fn opened_within(
    rt: &impl Abort,
    alloc: Global,
    survey: &ListSurvey,
    window: u64,
) -> Result<Board<Cut>, NoMemory> {
    let upto = Bound::At(cut_of(alloc, &[1])?);
    let cuts = [cut_of(alloc, &[0, 2])?];
    let span = Span {
        after: Cut::empty(alloc),
        upto,
    };
    let inside = Core::can_open(&span, &cuts);
    assert!(rt; inside, "the cuts are inside");
    assert!(rt; 0 < window && window <= 65536, "a window");
    Board::with_window(alloc, survey, span, &cuts, window)
}

// Makes the calls one after another.
fn step_all(
    rt: &impl Abort,
    board: &mut Board<Cut>,
    survey: &ListSurvey,
    leases: &mut Vec<Lease>,
    rows: &[(Call, &str, &str)],
) -> Result<(), NoMemory> {
    for row in rows {
        let (call, wanted, then) = *row;
        let answered = answers(rt, board, survey, leases, call, wanted)?;
        assert!(rt; answered, "not {wanted}, before {then}");
        assert!(rt; is_board(board, then), "not {then}");
    }
    Ok(())
}

/// What is left of a text whose front says what a board closed to.
fn after_closed<'a>(text: &'a str, closed: &Closed<Cut>) -> Option<&'a str> {
    match closed {
        Closed::Unfinished(_board) => after_word(text, "unfinished"),
        Closed::Listing(listing) => {
            let text = after_rows(text, listing.rows.pieces())?;
            let text = after_word(after_word(text, ";")?, "tried")?;
            let text = after_word(after_number(text, listing.tried)?, ";")?;
            after_word(
                text,
                if listing.spent.is_some() {
                    "spent"
                } else {
                    "unspent"
                },
            )
        }
    }
}

fn closes(board: Board<Cut>, wanted: &str) -> bool {
    let closed = board.close();
    ends(after_closed(wanted, &closed))
}

fn run_over(
    rt: &impl Abort,
    alloc: Global,
    survey: &ListSurvey,
    rows: &[(Call, &str, &str)],
    closed: &str,
) -> Result<(), NoMemory> {
    let mut board = opened(rt, alloc, survey)?;
    let mut leases = Vec::new(alloc);
    step_all(rt, &mut board, survey, &mut leases, rows)?;
    assert!(rt; closes(board, closed), "not {closed}");
    Ok(())
}

// Makes the calls one after another on a board, and closes it.
fn run(
    rt: &impl Abort,
    alloc: Global,
    rows: &[(Call, &str, &str)],
    closed: &str,
) -> Result<(), NoMemory> {
    let survey = four_keys(rt, alloc)?;
    run_over(rt, alloc, &survey, rows, closed)
}

// Makes the calls on a board with a window, and closes it.
fn run_within(
    rt: &impl Abort,
    alloc: Global,
    window: u64,
    rows: &[(Call, &str, &str)],
    closed: &str,
) -> Result<(), NoMemory> {
    let survey = four_keys(rt, alloc)?;
    let mut board = opened_within(rt, alloc, &survey, window)?;
    let mut leases = Vec::new(alloc);
    step_all(rt, &mut board, &survey, &mut leases, rows)?;
    assert!(rt; closes(board, closed), "not {closed}");
    Ok(())
}

#[test]
fn four_keys_with_a_theft(rt: HostRuntime) -> Result<(), Fail> {
    Ok(run(
        &rt,
        rt.alloc(),
        &[
            (
                Call::Take { seat: 0 },
                "lease 0 0 . 1",
                "1 events ; 0 0 . . 1 0 0",
            ),
            (
                Call::Report { lease: 0, most: 1 },
                "go 0 0 0.1 1",
                "2 events ; 0 0 . 0.1 1 1 1",
            ),
            (
                Call::Report { lease: 0, most: 1 },
                "moved 0.1",
                "3 events ; 0 0 . 0.1 1 1 1",
            ),
            (
                Call::Take { seat: 1 },
                "lease 1 1 0.2 1",
                "4 events ; 0 0 . 0.1 0.2 1 1 ; 1 1 0.2 0.2 1 0 0",
            ),
            (
                Call::Report { lease: 1, most: 2 },
                "overrun 0 0 0.1 0.2",
                "5 events ; 0 0 . 0.1 0.2 1 1 ; 1 1 0.2 0.2 1 0 0",
            ),
            (
                Call::Report { lease: 3, most: 2 },
                "done",
                "6 events ; 0 - . 0.2 0.2 2 2 ; 1 1 0.2 0.2 1 0 0",
            ),
            (
                Call::Report { lease: 3, most: 2 },
                "gone",
                "7 events ; 0 - . 0.2 0.2 2 2 ; 1 1 0.2 0.2 1 0 0",
            ),
            (
                Call::IsFinished,
                "false",
                "7 events ; 0 - . 0.2 0.2 2 2 ; 1 1 0.2 0.2 1 0 0",
            ),
            (
                Call::Report {
                    lease: 2,
                    most: 256,
                },
                "done",
                "8 events ; 0 - . 0.2 0.2 2 2 ; 1 - 0.2 1 1 2 2",
            ),
            (
                Call::Take { seat: 0 },
                "finished",
                "9 events ; 0 - . 0.2 0.2 2 2 ; 1 - 0.2 1 1 2 2",
            ),
        ],
        "rows 0.1 0.2 0.3 0.4 ; tried 4 ; unspent",
    )?)
}

#[test]
fn a_seat_gives_up(rt: HostRuntime) -> Result<(), Fail> {
    Ok(run(
        &rt,
        rt.alloc(),
        &[
            (
                Call::Take { seat: 0 },
                "lease 0 0 . 1",
                "1 events ; 0 0 . . 1 0 0",
            ),
            (
                Call::Report { lease: 0, most: 1 },
                "go 0 0 0.1 1",
                "2 events ; 0 0 . 0.1 1 1 1",
            ),
            (
                Call::Report { lease: 0, most: 1 },
                "moved 0.1",
                "3 events ; 0 0 . 0.1 1 1 1",
            ),
            (
                Call::Take { seat: 1 },
                "lease 1 1 0.2 1",
                "4 events ; 0 0 . 0.1 0.2 1 1 ; 1 1 0.2 0.2 1 0 0",
            ),
            (
                Call::GiveUp { lease: 2 },
                "released",
                "5 events ; 0 0 . 0.1 0.2 1 1 ; 1 - 0.2 0.2 1 0 0",
            ),
            (
                Call::GiveUp { lease: 2 },
                "gone",
                "5 events ; 0 0 . 0.1 0.2 1 1 ; 1 - 0.2 0.2 1 0 0",
            ),
            (
                Call::Take { seat: 2 },
                "lease 2 1 0.2 1",
                "6 events ; 0 0 . 0.1 0.2 1 1 ; 1 2 0.2 0.2 1 0 0",
            ),
            (
                Call::Take { seat: 3 },
                "lease 3 2 0.3 1",
                "7 events ; 0 0 . 0.1 0.2 1 1 ; 1 2 0.2 0.2 0.3 0 0 ; 2 3 0.3 0.3 1 0 0",
            ),
            (
                Call::Drain,
                "rows 0.1",
                "8 events ; 0 0 . 0.1 0.2 0 1 ; 1 2 0.2 0.2 0.3 0 0 ; 2 3 0.3 0.3 1 0 0",
            ),
            (Call::Stop, "0.1", "9 events ; 0 - . 0.1 0.1 0 1"),
            (
                Call::Report {
                    lease: 3,
                    most: 256,
                },
                "gone",
                "10 events ; 0 - . 0.1 0.1 0 1",
            ),
        ],
        "rows ; tried 1 ; unspent",
    )?)
}

#[test]
fn all_leases_are_given_up(rt: HostRuntime) -> Result<(), Fail> {
    Ok(run(
        &rt,
        rt.alloc(),
        &[
            (
                Call::Take { seat: 0 },
                "lease 0 0 . 1",
                "1 events ; 0 0 . . 1 0 0",
            ),
            (
                Call::Report { lease: 0, most: 1 },
                "go 0 0 0.1 1",
                "2 events ; 0 0 . 0.1 1 1 1",
            ),
            (
                Call::Take { seat: 1 },
                "lease 1 1 0.2 1",
                "3 events ; 0 0 . 0.1 0.2 1 1 ; 1 1 0.2 0.2 1 0 0",
            ),
            (
                Call::ReleaseAll,
                "",
                "5 events ; 0 - . 0.1 0.2 1 1 ; 1 - 0.2 0.2 1 0 0",
            ),
            (
                Call::ReleaseAll,
                "",
                "5 events ; 0 - . 0.1 0.2 1 1 ; 1 - 0.2 0.2 1 0 0",
            ),
            (
                Call::Take { seat: 0 },
                "lease 0 0 0.1 0.2",
                "6 events ; 0 0 . 0.1 0.2 1 1 ; 1 - 0.2 0.2 1 0 0",
            ),
        ],
        "unfinished",
    )?)
}

#[test]
fn a_window_of_one_row(rt: HostRuntime) -> Result<(), Fail> {
    Ok(run_within(
        &rt,
        rt.alloc(),
        1,
        &[
            (
                Call::Take { seat: 0 },
                "lease 0 0 . 0.2",
                "1 events ; 0 0 . . 0.2 0 0 ; 1 - 0.2 0.2 1 0 0",
            ),
            (
                Call::Take { seat: 1 },
                "lease 1 1 0.2 1",
                "2 events ; 0 0 . . 0.2 0 0 ; 1 1 0.2 0.2 1 0 0",
            ),
            (
                Call::Report { lease: 1, most: 1 },
                "go 1 1 0.3 1",
                "3 events ; 0 0 . . 0.2 0 0 ; 1 1 0.2 0.3 1 1 1",
            ),
            (
                Call::Report { lease: 2, most: 1 },
                "full 1 1 0.3 1",
                "4 events ; 0 0 . . 0.2 0 0 ; 1 1 0.2 0.3 1 1 1",
            ),
            (
                Call::Report {
                    lease: 0,
                    most: 256,
                },
                "done",
                "5 events ; 0 - . 0.2 0.2 2 2 ; 1 1 0.2 0.3 1 1 1",
            ),
            (
                Call::Drain,
                "rows 0.1 0.2 0.3",
                "6 events ; 1 1 0.2 0.3 1 0 1",
            ),
            (
                Call::Report { lease: 3, most: 1 },
                "go 1 1 0.4 1",
                "7 events ; 1 1 0.2 0.4 1 1 2",
            ),
            (
                Call::Report {
                    lease: 4,
                    most: 256,
                },
                "done",
                "8 events ; 1 - 0.2 1 1 1 2",
            ),
            (Call::Drain, "rows 0.4", "9 events ; 1 - 0.2 1 1 0 2"),
            (Call::IsFinished, "true", "9 events ; 1 - 0.2 1 1 0 2"),
        ],
        "rows ; tried 4 ; unspent",
    )?)
}

#[test]
fn stopped_before_any_take(rt: HostRuntime) -> Result<(), Fail> {
    Ok(run_within(
        &rt,
        rt.alloc(),
        4096,
        &[(Call::Stop, ".", "1 events ; 0 - . . . 0 0")],
        "rows ; tried 0 ; unspent",
    )?)
}
