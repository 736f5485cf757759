// Reports: a part of a survey, taken in under a lease.
ghost use Rattle.std.specs.Prelude.{◌≡◌, ◌-◌, ◌^◌, ◌≤◌, [], None, false, length, IfOk, IfErr, OnOk, OnErr};
ghost use Rattle.kr_survey.specs.Joins.{joined};
ghost use Rattle.kr_board.specs.Boards.{Adds, StaysWith};
ghost use Rattle.kr_board.specs.Parts.{IsPossible};
ghost use Rattle.kr_board.specs.Reporting.{IsRefusal, misfit, refusal, report_event, reply_of};
ghost use Rattle.kr_board.specs.Windows.{IsFew, is_over};

use super::{Board, Untaken};
use kr_base::{Bound, Cut, NoMemory};
use kr_core::{Core, Event, Lease, Reply};
use kr_survey::{Part, RowList};

/// The answer to a report: the lease's seat doesn't own the segment; its mark is another; the part reaches above its upto,
/// which the lease has then; the window is full, and lease and part are handed back; nothing is left of the segment; or it
/// goes on under this lease. The first four change nothing but the log.
#[derive(Drop)]
pub enum Reported<R> {
    Gone,
    Moved(Cut),
    Overrun(Lease),
    Full(Lease, Part<R>),
    Done,
    Go(Lease),
}

/// A report that was refused memory, with what was handed in.
#[derive(Drop)]
pub struct Refused<R> {
    pub lease: Lease,
    pub part: Part<R>,
    pub why: NoMemory,
}

// The lease again, up to where its segment ends now.
fn lowered(lease: &Lease, upto: &Bound) -> Result<Lease, NoMemory>
    ensures { IfOk result (λ l. l ≡ record lease.now { upto = upto.now }) }
{
    Ok(Lease {
        seat: lease.seat,
        segment: lease.segment,
        mark: lease.mark.try_clone()?,
        upto: upto.try_clone()?,
    })
}

// Why a report isn't taken in by the segments alone, if so.
fn misfit<R: Drop>(
    core: &Core,
    lease: &Lease,
    reach: &Bound,
) -> Result<Option<Reported<R>>, NoMemory>
    ensures { IfOk result (λ refused. refused ≡ misfit core.now lease.now reach.now) }
{
    let Some(segment) = core.segment_of(lease.segment) else {
        return Ok(Some(Reported::Gone));
    };
    if !segment.is_owned_by(lease.seat) {
        return Ok(Some(Reported::Gone));
    }
    let Bound::At(mark) = &segment.mark else {
        return Ok(Some(Reported::Gone));
    };
    if !mark.is_same(&lease.mark) {
        return Ok(Some(Reported::Moved(mark.try_clone()?)));
    }
    if segment.upto.is_below(reach) {
        return Ok(Some(Reported::Overrun(lowered(lease, &segment.upto)?)));
    }
    Ok(None)
}

// The reach, for the machine and for the log.
fn copies_of(reach: &Bound) -> Result<(Bound, Bound), NoMemory>
    ensures { IfOk result (λ copies. (copies.0 ≡ reach.now) × (copies.1 ≡ reach.now)) }
{
    Ok((reach.try_clone()?, reach.try_clone()?))
}

impl<R: Drop> Board<R> {
    /// Takes in what a scan gave from a lease's mark on.
    pub fn report(&mut self, lease: Lease, part: Part<R>) -> Result<Reported<R>, Refused<R>>
        requires possible { IsPossible lease.mark part }
        requires few { IsFew self.old.window (length part.rows) }
        ensures refusal { IfOk result (IsRefusal (refusal self.old lease part)) }
        ensures event { IfOk result (λ reported. Adds self.old (report_event self.old lease part) (reply_of reported) part.rows self.new) }
        ensures stays { OnOk result (StaysWith lease.mark part self.old self.new) }
        ensures unchanged { OnErr result (self.new ≡ self.old) }
        ensures back { IfErr result (λ refused. (refused.lease ≡ lease) × (refused.part ≡ part)) }
    {
        match misfit::<R>(&self.core, &lease, &part.reach) {
            Err(why) => Err(Refused { lease, part, why }),
            Ok(None) => self.report_fitting(lease, part),
            Ok(Some(reported)) => match self.look(lease.seat) {
                Ok(()) => Ok(reported),
                Err(why) => Err(Refused { lease, part, why }),
            },
        }
    }

    // A part that fits is taken in unless the window is full.
    fn report_fitting(&mut self, lease: Lease, part: Part<R>) -> Result<Reported<R>, Refused<R>>
        requires possible { IsPossible lease.mark part }
        requires few { IsFew self.old.window (length part.rows) }
        requires fits { misfit {R = R} self.old.core lease part.reach ≡ None }
        ensures refusal { IfOk result (IsRefusal (refusal self.old lease part)) }
        ensures event { IfOk result (λ reported. Adds self.old (report_event self.old lease part) (reply_of reported) part.rows self.new) }
        ensures stays { OnOk result (StaysWith lease.mark part self.old self.new) }
        ensures unchanged { OnErr result (self.new ≡ self.old) }
        ensures back { IfErr result (λ refused. (refused.lease ≡ lease) × (refused.part ≡ part)) }
    {
        if !self.is_over(lease.segment, part.rows.len() as u64) {
            return self.take_in(lease, part);
        }
        match self.look(lease.seat) {
            Ok(()) => Ok(Reported::Full(lease, part)),
            Err(why) => Err(Refused { lease, part, why }),
        }
    }

    // A part that fits, where the window has room.
    fn take_in(&mut self, lease: Lease, part: Part<R>) -> Result<Reported<R>, Refused<R>>
        requires possible { IsPossible lease.mark part }
        requires few { IsFew self.old.window (length part.rows) }
        requires fits { misfit {R = R} self.old.core lease part.reach ≡ None }
        requires room { is_over self.old lease.segment (length part.rows) ≡ false }
        ensures event { IfOk result (λ reported. Adds self.old (Event.Report lease.seat lease.segment part.reach (length part.rows) part.tried part.spent) (reply_of reported) part.rows self.new) }
        ensures unchanged { OnErr result (self.new ≡ self.old) }
        ensures back { IfErr result (λ refused. (refused.lease ≡ lease) × (refused.part ≡ part)) }
    {
        let count = part.rows.len() as u64;
        let kept = self.rows_kept();
        if count > u64::MAX - kept {
            let why = NoMemory::at_sum(count, kept);
            return Err(Refused { lease, part, why });
        }
        match copies_of(&part.reach) {
            Err(why) => Err(Refused { lease, part, why }),
            Ok((reach, again)) => self.write_in(lease, part, reach, again),
        }
    }

    // Takes a part in that fits, with two copies of its reach.
    fn write_in(
        &mut self,
        lease: Lease,
        part: Part<R>,
        reach: Bound,
        again: Bound,
    ) -> Result<Reported<R>, Refused<R>>
        requires copies { (reach ≡ part.reach) × (again ≡ part.reach) }
        requires possible { IsPossible lease.mark part }
        requires fits { misfit {R = R} self.old.core lease part.reach ≡ None }
        requires room { (is_over self.old lease.segment (length part.rows) ≡ false) × IsFew self.old.window (length part.rows) }
        requires few { length part.rows ≤ (2 ^ 64 - 1) - length (joined self.old.kept) }
        ensures event { IfOk result (λ reported. Adds self.old (Event.Report lease.seat lease.segment part.reach (length part.rows) part.tried part.spent) (reply_of reported) part.rows self.new) }
        ensures unchanged { OnErr result (self.new ≡ self.old) }
        ensures back { IfErr result (λ refused. (refused.lease ≡ lease) × (refused.part ≡ part)) }
    {
        let Part {
            reach: own,
            rows,
            tried,
            spent,
        } = part;
        let count = rows.len() as u64;
        let event = Event::Report {
            seat: lease.seat,
            segment: lease.segment,
            reach,
            rows: count,
            tried,
            spent,
        };
        let logged = Event::Report {
            seat: lease.seat,
            segment: lease.segment,
            reach: again,
            rows: count,
            tried,
            spent,
        };
        match self.add(event, logged, rows.into_vec()) {
            Ok(Reply::Go(next)) => Ok(Reported::Go(next)),
            Ok(Reply::Done) => Ok(Reported::Done),
            Ok(Reply::Lease(_)) => unreachable!(),
            Ok(Reply::Noted) => unreachable!(),
            Err(Untaken { rows, why }) => Err(Refused {
                lease,
                part: Part {
                    reach: own,
                    rows: RowList::new(rows),
                    tried,
                    spent,
                },
                why,
            }),
        }
    }
}
