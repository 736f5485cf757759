// The machine of a board, with its segments found by number.
ghost use Rattle.std.specs.Prelude.{◌≡◌, ◌<◌, ◌+◌, true, IfOk, OnOk, IfSome, IfNone};
ghost use Rattle.std.specs.List.{list_all, sum_by};
ghost use Rattle.kr_base.specs.Bounds.{is_same};
ghost use Rattle.kr_base.specs.Causes.{capped};
ghost use Rattle.kr_core.specs.Cutting.{cuts_for};
ghost use Rattle.kr_core.specs.Openings.{opening};
ghost use Rattle.kr_core.specs.States.{is_closed, segment_of};
ghost use Rattle.kr_core.specs.Steps.{after, fits, may_give_up, may_report, may_steal, may_stop, may_take};

use crate::chain::Chain;
use kr_base::{Bound, Cut, NoMemory, Span};
use kr_core::{Event, Segment, counts_fit, cuts_for, end_of};
use std::alloc::Global;
use std::marker::Model;

/// Take: the segment has a remainder and no owner.
fn may_take(chain: &Chain, number: u64) -> bool
    ensures { result ≡ may_take (segment_of number chain.now.segments) }
{
    match chain.find(number) {
        None => false,
        Some(segment) => segment.has_remainder() && !segment.is_owned(),
    }
}

/// Steal: it has an owner, and the cut is between its mark and its upto.
fn may_steal(chain: &Chain, victim: u64, cut: &Cut) -> bool
    ensures { result ≡ may_steal cut.now (segment_of victim chain.now.segments) }
{
    match chain.find(victim) {
        None => false,
        Some(segment) => {
            segment.is_owned() && segment.mark.is_below_cut(cut) && segment.upto.is_above_cut(cut)
        }
    }
}

/// Report: the seat owns it, and the reach and the counts fit.
fn may_report(
    chain: &Chain,
    seat: u32,
    number: u64,
    reach: &Bound,
    rows: u64,
    tried: u64,
    spent: bool,
) -> bool
    ensures { result ≡ may_report seat reach.now rows tried spent (segment_of number chain.now.segments) }
{
    match chain.find(number) {
        None => false,
        Some(segment) => {
            segment.is_owned_by(seat)
                && segment.mark.is_below(reach)
                && !segment.upto.is_below(reach)
                && counts_fit(reach, rows, tried, spent)
        }
    }
}

/// GiveUp: the seat owns it.
fn may_give_up(chain: &Chain, seat: u32, number: u64) -> bool
    ensures { result ≡ may_give_up seat (segment_of number chain.now.segments) }
{
    match chain.find(number) {
        None => false,
        Some(segment) => segment.is_owned_by(seat),
    }
}

pub(crate) fn is_at(bound: &Bound, cut: &Cut) -> bool
    ensures { result ≡ is_same bound.now (Bound.At cut.now) }
{
    !bound.is_below_cut(cut) && !bound.is_above_cut(cut)
}

/// StopAt: the first segment's mark is the cut.
fn may_stop(chain: &Chain, mark: &Cut) -> bool
    ensures { result ≡ may_stop mark.now chain.now.segments }
{
    match chain.first() {
        None => false,
        Some(segment) => is_at(&segment.mark, mark),
    }
}

/// The machine, whose steps take a time that is bounded by the length of their events. Contracts see its state.
#[derive(Drop)]
pub(crate) struct Replay {
    chain: Chain,
    past: u64,
    end: Bound,
    spent: bool,
}

impl Model for Replay {
    ghost use Rattle.kr_core.specs.States.{State};

    ghost Value = { State };

    ghost view = { λ r. record { segments = r.chain.segments; next = r.chain.made; past = r.past; end = r.end; spent = r.spent } };
}

impl Replay {
    /// The state in which so many workers begin a span.
    pub(crate) fn open(alloc: Global, span: &Span, workers: u32) -> Result<Replay, NoMemory>
        requires { 0 < workers }
        ensures { IfOk result (λ replay. replay ≡ opening span.now (cuts_for span.now workers)) }
    {
        let end = end_of(span)?;
        let cuts = cuts_for(alloc, span, workers)?;
        let chain = Chain::open(alloc, &span.after, cuts.as_slice(), &end)?;
        Ok(Replay {
            chain,
            past: 0,
            end,
            spent: false,
        })
    }

    /// Whether an event fits.
    pub(crate) fn fits(&self, event: &Event) -> bool
        ensures { result ≡ fits self.now event.now }
    {
        match event {
            Event::Take { segment, .. } => may_take(&self.chain, *segment),
            Event::Steal {
                victim,
                cut,
                segment,
                ..
            } => {
                may_steal(&self.chain, *victim, cut)
                    && *segment == self.chain.made()
                    && *segment < u64::MAX
            }
            Event::Report {
                seat,
                segment,
                reach,
                rows,
                tried,
                spent,
            } => may_report(&self.chain, *seat, *segment, reach, *rows, *tried, *spent),
            Event::GiveUp { seat, segment } => may_give_up(&self.chain, *seat, *segment),
            Event::Drain { rows } => *rows == self.chain.front_rows(),
            Event::StopAt { mark } => may_stop(&self.chain, mark),
            Event::Look { .. } => true,
        }
    }

    /// Takes an event that fits.
    pub(crate) fn apply(&mut self, event: Event) -> Result<(), NoMemory>
        requires { fits self.old event ≡ true }
        ensures { OnOk result (self.new ≡ after self.old event) }
    {
        match event {
            Event::Take { seat, segment } => Ok(self.take(seat, segment)),
            Event::Steal {
                seat,
                victim,
                cut,
                segment,
            } => self.steal(seat, victim, cut, segment),
            Event::Report {
                seat,
                segment,
                reach,
                rows,
                tried,
                spent,
            } => self.report(seat, segment, reach, rows, tried, spent),
            Event::GiveUp { seat, segment } => Ok(self.give_up(seat, segment)),
            Event::Drain { rows } => Ok(self.drain(rows)),
            Event::StopAt { mark } => self.stop_at(mark),
            Event::Look { .. } => Ok(()),
        }
    }

    fn take(&mut self, seat: u32, segment: u64)
        ensures { self.new ≡ after self.old (Event.Take seat segment) }
    {
        self.chain.set_owner(segment, Some(seat));
    }

    fn steal(&mut self, seat: u32, victim: u64, cut: Cut, segment: u64) -> Result<(), NoMemory>
        requires { fits self.old (Event.Steal seat victim cut segment) ≡ true }
        ensures { OnOk result (self.new ≡ after self.old (Event.Steal seat victim cut segment)) }
    {
        self.chain.split(seat, victim, cut)?;
        Ok(())
    }

    fn report(
        &mut self,
        seat: u32,
        segment: u64,
        reach: Bound,
        rows: u64,
        tried: u64,
        spent: bool,
    ) -> Result<(), NoMemory>
        requires { fits self.old (Event.Report seat segment reach rows tried spent) ≡ true }
        ensures { OnOk result (self.new ≡ after self.old (Event.Report seat segment reach rows tried spent)) }
    {
        if spent {
            let upto = reach.try_clone()?;
            let end = reach.try_clone()?;
            self.chain.cut_off(segment, reach, upto, rows, tried);
            self.end = end;
            self.spent = true;
            return Ok(());
        }
        self.chain.scan_to(segment, reach, rows, tried);
        Ok(())
    }

    fn give_up(&mut self, seat: u32, segment: u64)
        ensures { self.new ≡ after self.old (Event.GiveUp seat segment) }
    {
        self.chain.set_owner(segment, None);
    }

    fn drain(&mut self, rows: u64)
        ensures { self.new ≡ after self.old (Event.Drain rows) }
    {
        let tried = self.chain.drain();
        self.past = self.past.saturating_add(tried);
    }

    fn stop_at(&mut self, mark: Cut) -> Result<(), NoMemory>
        ensures { OnOk result (self.new ≡ after self.old (Event.StopAt mark)) }
    {
        let end = mark.try_clone()?;
        self.spent = self.chain.is_one() && self.spent;
        self.chain.stop(mark);
        self.end = Bound::At(end);
        Ok(())
    }

    /// The segment of a number.
    pub(crate) fn segment_of(&self, number: u64) -> Option<&Segment>
        ensures none { IfNone result (segment_of number self.now.segments ≡ None) }
        ensures some { IfSome result (λ s. segment_of number self.now.segments ≡ Some s.now) }
    {
        self.chain.find(number)
    }

    /// Whether no segment has an owner or a remainder.
    pub(crate) fn are_closed(&self) -> bool
        ensures { result ≡ list_all is_closed self.now.segments }
    {
        self.chain.are_closed()
    }

    /// How many candidates were tried in all.
    pub(crate) fn tried(&self) -> u64
        ensures { result ≡ capped (self.now.past + sum_by (λ s. s.tried) self.now.segments) }
    {
        self.past.saturating_add(self.chain.tried())
    }

    /// Where the last segment ends.
    pub(crate) fn end(&self) -> &Bound
        ensures { result.now ≡ self.now.end }
    {
        &self.end
    }

    /// Whether a candidate was spent there.
    pub(crate) fn is_spent(&self) -> bool
        ensures { result ≡ self.now.spent }
    {
        self.spent
    }
}
