// A free front is given, while the owner of a later segment waits.
ghost use Rattle.std.specs.Prelude.{◌≡◌, ◌<◌, [], None, IfOk, IfSome};
ghost use Rattle.kr_core.specs.Openings.{AreInside};

use crate::tests::spans::{below_one, cut_of};
use kr_base::{Cut, NoMemory, Span};
use kr_board::{Board, Lease};
use kr_core::cuts_for;
use kr_pool::{Lead, Leading, OpenGate, Run, Seat, Shared, Stint};
use kr_survey::{Entry, ListSurvey, Mark, Survey};
use std::alloc::Global;
use std::marker::Brand;
use std::process::Abort;
use std::sync::Wait;
use std::sync::ledger::{Blank, Ledger};
use std::test::Fail;

// In three segments one after another: three parts, one entry, and one entry.
fn entries_of(alloc: Global) -> Result<Vec<Entry<Cut>>, NoMemory> {
    let mut entries = Vec::new(alloc);
    for number in 0u32..35 {
        let first = number.saturating_sub(32);
        let key = cut_of(alloc, &[0, first, number])?;
        let mark = Mark::Valid(cut_of(alloc, &[0, first, number])?);
        entries.push(Entry { key, mark })?;
    }
    Ok(entries)
}

fn three_segments(rt: &impl Abort, alloc: Global) -> Result<ListSurvey, NoMemory> {
    let entries = entries_of(alloc)?;
    let ascends = ListSurvey::is_ascending(entries.as_slice());
    assert!(rt; ascends, "the keys ascend");
    Ok(ListSurvey::new(alloc, entries))
}

// The next seat takes a lease, and keeps it.
fn take_next<N: Run<Cut>, D: Ledger, W: Wait>(
    rt: &W,
    shared: &Shared<Cut, N, D>,
    seats: &mut Vec<Seat<N>>,
) -> Result<Option<(Seat<N>, Lease)>, NoMemory>
    ensures { IfOk result (λ taken. IfSome taken (λ t. t.1.seat ≡ t.0.number)) }
{
    match seats.pop() {
        None => Ok(None),
        Some(seat) => {
            let mut seat = seat;
            match shared.take_now(rt, &mut seat)? {
                None => Ok(None),
                Some(lease) => Ok(Some((seat, lease))),
            }
        }
    }
}

// The caller's seat does a part of the first segment, and another seat begins the second; it does the next part, and another seat
// begins the third; the second is given up, as where a round ends; the caller's seat does the last part, and the rows are drained.
// Whether the caller's seat works on, at the second segment, although the third has an owner and few entries were tried.
fn begins_front<N: Run<Cut>, D: Ledger, L: Ledger, E: Ledger, S: Survey<Row = Cut>, W: Wait>(
    rt: &W,
    survey: &S,
    shared: &Shared<Cut, N, D>,
    seats: &mut Vec<Seat<N>>,
    lead: &mut Lead<Cut, N, D>,
    stint: &mut Stint<Cut, N, L, E>,
) -> Result<bool, NoMemory>
    requires survey { S.all survey.now ≡ N.all }
    ensures { lead.new.2 ≡ lead.old.2 }
{
    let mut scratch = lead.scratch(survey);
    let mut leading = Leading::start();
    shared.lead(rt);
    let first = lead.step(
        rt,
        shared,
        survey,
        &mut scratch,
        &mut leading,
        stint,
        &OpenGate,
    );
    let second = take_next(rt, shared, seats)?;
    let next = lead.step(
        rt,
        shared,
        survey,
        &mut scratch,
        &mut leading,
        stint,
        &OpenGate,
    );
    let third = take_next(rt, shared, seats)?;
    match second {
        None => return Ok(false),
        Some((seat, lease)) => {
            let mut seat = seat;
            shared.give_up(rt, &lease, &mut seat);
        }
    }
    let last = lead.step(
        rt,
        shared,
        survey,
        &mut scratch,
        &mut leading,
        stint,
        &OpenGate,
    );
    let (_, all) = lead.drain(rt, shared)?;
    let begins = lead.step(
        rt,
        shared,
        survey,
        &mut scratch,
        &mut leading,
        stint,
        &OpenGate,
    );
    Ok(first && next && last && third.is_some() && !all && begins)
}

fn begins_counted<N: Run<Cut>, D: Ledger, L: Ledger, E: Ledger, S: Survey<Row = Cut>, W: Wait>(
    rt: &W,
    survey: &S,
    shared: &Shared<Cut, N, D>,
    seats: &mut Vec<Seat<N>>,
    lead: &mut Lead<Cut, N, D>,
    runs: Blank,
    handed: Blank,
) -> Result<bool, NoMemory>
    requires runs { (runs.name ≡ L.name) × (runs.parts ≡ L.parts) × (0 < L.parts) }
    requires handed { (handed.name ≡ E.name) × (handed.parts ≡ E.parts) × (0 < E.parts) }
    requires survey { S.all survey.now ≡ N.all }
{
    let mut stint = lead.begin::<L, E>(runs, handed);
    let begins = begins_front(rt, survey, shared, seats, lead, &mut stint);
    lead.end(stint);
    begins
}

fn start_front<N: Run<Cut>, D: Ledger, S: Survey<Row = Cut>, W: Wait>(
    rt: &W,
    alloc: Global,
    survey: &S,
    span: Span,
    cuts: &[Cut],
    workers: u32,
    calls: Blank,
    tap: Blank,
) -> Result<bool, NoMemory>
    requires ledger { (calls.name ≡ N.name) × (calls.parts ≡ N.parts) }
    requires tap { (tap.name ≡ D.name) × (tap.parts ≡ D.parts) × (tap.parts ≡ 1) }
    requires workers { (N.parts ≡ workers) × (N.workers ≡ workers) }
    requires some { 0 < workers }
    requires window { N.window ≡ None }
    requires limit { N.limit ≡ None }
    requires survey { S.all survey.now ≡ N.all }
    requires span { span ≡ N.span }
    requires cuts { cuts.now ≡ N.cuts }
    requires inside { AreInside cuts.now span }
    requires opening { N.opening ≡ [] }
{
    survey.ascends();
    let board = Board::new(alloc, survey, span, cuts)?;
    let (shared, mut seats, tap) = Shared::<Cut, N, D>::start(
        alloc, board, None, workers, calls, tap,
    )?;
    match seats.pop() {
        None => Ok(false),
        Some(seat) => {
            let mut lead = Lead::new(seat, tap);
            begins_counted::<N, D, Brand, Brand, S, W>(
                rt,
                survey,
                &shared,
                &mut seats,
                &mut lead,
                Blank::new(1),
                Blank::new(1),
            )
        }
    }
}

// The same by seven seats.
fn front_of_seven<W: Wait + Abort>(rt: &W, alloc: Global) -> Result<bool, NoMemory> {
    let survey = three_segments(rt, alloc)?;
    let span = below_one(alloc)?;
    let cuts = cuts_for(alloc, &span, 7)?;
    start_front::<Brand, Brand, ListSurvey, W>(
        rt,
        alloc,
        &survey,
        span,
        cuts.as_slice(),
        7,
        Blank::new(7),
        Blank::new(1),
    )
}

#[test]
fn a_free_front_is_begun(rt: HostRuntime) -> Result<(), Fail> {
    assert!(rt; front_of_seven(&rt, rt.alloc())?);
    Ok(())
}
