// The machine: its state, and one step for an event.
ghost use Rattle.std.specs.Prelude.{◌≡◌, ◌+◌, ◌<◌, ◌↔◌, true, IsTrue, IfOk, OnErr, IfErr, IfSome, IfNone, length};
ghost use Rattle.std.specs.List.{sum_by};
ghost use Rattle.kr_base.specs.Causes.{capped};
ghost use Rattle.kr_core.specs.States.{segment_of, place_of};
ghost use Rattle.kr_core.specs.Steps.{Step, fits, front, gone};
ghost use Rattle.kr_core.specs.Refusals.{IsRefused};
ghost use Rattle.kr_core.specs.Openings.{opening, AreInside};

use crate::edits::{
    cut_segment, drain_front, end_at, gone_count, scan_to, set_owner, stop_first, tried_of,
};
use crate::fits::{
    front_rows, may_give_up, may_report, may_steal, may_stop, may_take, place, segment_of,
};
use crate::leases::{lease_behind, lease_from, lease_of};
use crate::opens::{are_inside, end_of, segments_at};
use crate::{Event, Reply, Segment};
use kr_base::{Bound, Cut, NoMemory, Span};
use std::alloc::Global;
use std::marker::Model;

/// The machine. Contracts see its state.
#[derive(Drop)]
pub struct Core {
    segments: Vec<Segment>,
    next: u64,
    past: u64,
    end: Bound,
    spent: bool,
}

impl Model for Core {
    ghost use Rattle.kr_core.specs.States.{State};

    ghost Value = { State };

    ghost view = { λ c. record { segments = c.segments.items; next = c.next; past = c.past; end = c.end; spent = c.spent } };
}

/// Why an event was not taken: it fits nowhere, and is handed back; or memory was refused.
#[derive(Drop)]
pub enum CoreRefusal {
    Illegal(Event),
    NoMemory(NoMemory),
}

impl From<NoMemory> for CoreRefusal {
    ghost use Rattle.std.specs.Prelude.{◌≡◌};
    ghost use Rattle.kr_core.specs.declared.machine.CoreRefusal.TheVariants.{NoMemory as Lacking};

    ghost from_gives = { λ why refusal. refusal ≡ Lacking why };

    fn from(why: NoMemory) -> CoreRefusal {
        CoreRefusal::NoMemory(why)
    }
}

impl Core {
    /// The opening state: segments that adjoin at the cuts, from the span's `after` on.
    pub fn open(alloc: Global, span: &Span, cuts: &[Cut]) -> Result<Core, NoMemory>
        requires { AreInside cuts.now span.now }
        ensures { IfOk result (λ core. core ≡ opening span.now cuts.now) }
    {
        let end = end_of(span)?;
        let segments = segments_at(alloc, &span.after, cuts, &end)?;
        Ok(Core {
            segments,
            next: cuts.len() as u64 + 1,
            past: 0,
            end,
            spent: false,
        })
    }

    /// Whether a span can be opened with these cuts: they ascend strictly and are strictly inside it.
    pub fn can_open(span: &Span, cuts: &[Cut]) -> bool
        ensures { IsTrue result ↔ AreInside cuts.now span.now }
    {
        are_inside(cuts, span)
    }

    /// One step. GiveUp, Drain and Look take no memory.
    pub fn apply(&mut self, event: Event) -> Result<Reply, CoreRefusal>
        ensures step { IfOk result (λ reply. Step self.old event reply self.new) }
        ensures refused { IfErr result (IsRefused self.old event) }
        ensures unchanged { OnErr result (self.new ≡ self.old) }
    {
        if !self.fits(&event) {
            return Err(CoreRefusal::Illegal(event));
        }
        self.step(event)
    }

    /// Whether some case of the step relation fits.
    pub fn fits(&self, event: &Event) -> bool
        ensures { result ≡ fits self.now event.now }
    {
        let segments = self.segments.as_slice();
        match event {
            Event::Take { segment, .. } => may_take(segments, *segment),
            Event::Steal {
                victim,
                cut,
                segment,
                ..
            } => {
                may_steal(segments, *victim, cut) && *segment == self.next && *segment < u64::MAX
            }
            Event::Report {
                seat,
                segment,
                reach,
                rows,
                tried,
                spent,
            } => may_report(segments, *seat, *segment, reach, *rows, *tried, *spent),
            Event::GiveUp { seat, segment } => may_give_up(segments, *seat, *segment),
            Event::Drain { rows } => *rows == front_rows(segments),
            Event::StopAt { mark } => may_stop(segments, mark),
            Event::Look { .. } => true,
        }
    }

    fn step(&mut self, event: Event) -> Result<Reply, CoreRefusal>
        requires { fits self.old event ≡ true }
        ensures step { IfOk result (λ reply. Step self.old event reply self.new) }
        ensures refused { IfErr result (IsRefused self.old event) }
        ensures unchanged { OnErr result (self.new ≡ self.old) }
    {
        match event {
            Event::Take { seat, segment } => Ok(self.take(seat, segment)?),
            Event::Steal {
                seat,
                victim,
                cut,
                segment,
            } => Ok(self.steal(seat, victim, cut, segment)?),
            Event::Report {
                seat,
                segment,
                reach,
                rows,
                tried,
                spent,
            } => Ok(self.report(seat, segment, reach, rows, tried, spent)?),
            Event::GiveUp { seat, segment } => Ok(self.give_up(seat, segment)),
            Event::Drain { rows } => Ok(self.drain(rows)),
            Event::StopAt { mark } => Ok(self.stop_at(mark)?),
            Event::Look { .. } => Ok(Reply::Noted),
        }
    }

    fn take(&mut self, seat: u32, segment: u64) -> Result<Reply, NoMemory>
        requires { fits self.old (Event.Take seat segment) ≡ true }
        ensures step { IfOk result (λ reply. Step self.old (Event.Take seat segment) reply self.new) }
        ensures unchanged { OnErr result (self.new ≡ self.old) }
    {
        let lease = lease_of(self.segments.as_slice(), seat, segment)?;
        set_owner(&mut self.segments, segment, Some(seat));
        Ok(Reply::Lease(lease))
    }

    fn steal(&mut self, seat: u32, victim: u64, cut: Cut, segment: u64) -> Result<Reply, NoMemory>
        requires { fits self.old (Event.Steal seat victim cut segment) ≡ true }
        ensures step { IfOk result (λ reply. Step self.old (Event.Steal seat victim cut segment) reply self.new) }
        ensures unchanged { OnErr result (self.new ≡ self.old) }
    {
        let lease = lease_behind(self.segments.as_slice(), seat, victim, &cut, segment)?;
        let after = cut.try_clone()?;
        let mark = cut.try_clone()?;
        self.segments.reserve(1)?;
        cut_segment(&mut self.segments, victim, cut, after, mark, segment, seat);
        self.next += 1;
        Ok(Reply::Lease(lease))
    }

    fn report(
        &mut self,
        seat: u32,
        segment: u64,
        reach: Bound,
        rows: u64,
        tried: u64,
        spent: bool,
    ) -> Result<Reply, NoMemory>
        requires { fits self.old (Event.Report seat segment reach rows tried spent) ≡ true }
        ensures step { IfOk result (λ reply. Step self.old (Event.Report seat segment reach rows tried spent) reply self.new) }
        ensures unchanged { OnErr result (self.new ≡ self.old) }
    {
        if spent {
            let upto = reach.try_clone()?;
            let end = reach.try_clone()?;
            end_at(&mut self.segments, segment, reach, upto, rows, tried);
            self.end = end;
            self.spent = true;
            return Ok(Reply::Done);
        }
        match lease_from(self.segments.as_slice(), seat, segment, &reach)? {
            None => {
                scan_to(&mut self.segments, segment, reach, rows, tried);
                Ok(Reply::Done)
            }
            Some(lease) => {
                scan_to(&mut self.segments, segment, reach, rows, tried);
                Ok(Reply::Go(lease))
            }
        }
    }

    fn give_up(&mut self, seat: u32, segment: u64) -> Reply
        requires { fits self.old (Event.GiveUp seat segment) ≡ true }
        ensures { Step self.old (Event.GiveUp seat segment) result self.new }
    {
        set_owner(&mut self.segments, segment, None);
        Reply::Noted
    }

    fn drain(&mut self, rows: u64) -> Reply
        requires { fits self.old (Event.Drain rows) ≡ true }
        ensures { Step self.old (Event.Drain rows) result self.new }
    {
        let tried = drain_front(&mut self.segments);
        self.past = self.past.saturating_add(tried);
        Reply::Noted
    }

    fn stop_at(&mut self, mark: Cut) -> Result<Reply, NoMemory>
        requires { fits self.old (Event.StopAt mark) ≡ true }
        ensures step { IfOk result (λ reply. Step self.old (Event.StopAt mark) reply self.new) }
        ensures unchanged { OnErr result (self.new ≡ self.old) }
    {
        let end = mark.try_clone()?;
        self.spent = self.segments.len() == 1 && self.spent;
        stop_first(&mut self.segments, mark);
        self.end = Bound::At(end);
        Ok(Reply::Noted)
    }
}

impl Core {
    /// The segments, in the order of candidates.
    pub fn segments(&self) -> &[Segment]
        ensures { result.now ≡ self.now.segments }
    {
        self.segments.as_slice()
    }

    /// The place of the segment of that number.
    pub fn place(&self, number: u64) -> Option<usize>
        ensures none { IfNone result (segment_of number self.now.segments ≡ None) }
        ensures some { IfSome result (λ i. (i ≡ place_of number self.now.segments) × (i < length self.now.segments)) }
    {
        place(self.segments.as_slice(), number)
    }

    /// The segment of that number.
    pub fn segment_of(&self, number: u64) -> Option<&Segment>
        ensures none { IfNone result (segment_of number self.now.segments ≡ None) }
        ensures some { IfSome result (λ s. segment_of number self.now.segments ≡ Some s.now) }
    {
        segment_of(self.segments.as_slice(), number)
    }

    /// The rows of the segments up to and with the first that isn't closed: those that a drain takes out.
    pub fn front_rows(&self) -> u64
        ensures { result ≡ capped (sum_by (λ s. s.rows) (front self.now.segments)) }
    {
        front_rows(self.segments.as_slice())
    }

    /// How many segments go in a drain.
    pub fn gone_count(&self) -> usize
        ensures { result ≡ length (gone self.now.segments) }
    {
        gone_count(self.segments.as_slice())
    }

    /// How many candidates were tried in all.
    pub fn tried(&self) -> u64
        ensures { result ≡ capped (self.now.past + sum_by (λ s. s.tried) self.now.segments) }
    {
        self.past.saturating_add(tried_of(self.segments.as_slice()))
    }

    /// Where the last segment ends, given back.
    pub fn into_end(self) -> Bound
        ensures { result ≡ self.end }
    {
        self.end
    }

    /// How many segments were made: the number of the next one.
    pub fn next(&self) -> u64
        ensures { result ≡ self.now.next }
    {
        self.next
    }

    /// How many candidates were tried in the segments that are gone.
    pub fn past(&self) -> u64
        ensures { result ≡ self.now.past }
    {
        self.past
    }

    /// Where the last segment ends.
    pub fn end(&self) -> &Bound
        ensures { result.now ≡ self.now.end }
    {
        &self.end
    }

    /// Whether a candidate was spent there.
    pub fn is_spent(&self) -> bool
        ensures { result ≡ self.now.spent }
    {
        self.spent
    }
}
