// Rows taken out, and the end.
ghost use Rattle.std.specs.Prelude.{◌≡◌, [], true, false, length, IfOk, IfErr, IfSome, IfNone, OnOk, OnErr};
ghost use Rattle.std.specs.List.{list_all};
ghost use Rattle.kr_base.specs.Bounds.{is_cut};
ghost use Rattle.kr_core.specs.States.{is_closed};
ghost use Rattle.kr_core.specs.Steps.{Step, fits};
ghost use Rattle.kr_board.specs.Boards.{Adds, Stays, AreNext};
ghost use Rattle.kr_board.specs.Closing.{all_closed, front_rows, first_mark, mark_in, is_listing, IsListing, Lists, GivesListing, GivesBack, spent_key};

use super::{Board, make_log_room};
use crate::edits::take_front;
use kr_base::{Bound, Cut, NoMemory};
use kr_core::{Core, Event, Reply, Segment};
use kr_survey::{Listing, Rows};

/// A board that was closed: its listing, or the board again where something is left to do.
#[derive(Drop)]
pub enum Closed<R> {
    Listing(Listing<R>),
    Unfinished(Board<R>),
}

/// A listing, and the log of the board that it is of.
#[derive(Drop)]
pub struct Logged<R> {
    pub listing: Listing<R>,
    pub log: Vec<Event>,
}

fn all_closed(segments: &[Segment]) -> bool
    ensures { result ≡ list_all is_closed segments.now }
{
    for segment in segments {
        if !segment.is_closed() {
            return false;
        }
    }
    true
}

// The first segment's mark.
fn first_mark(segments: &[Segment]) -> Option<&Bound>
    ensures none { IfNone result (mark_in segments.now ≡ Bound.End) }
    ensures some { IfSome result (λ mark. mark.now ≡ mark_in segments.now) }
{
    match segments.first() {
        None => None,
        Some(segment) => Some(&segment.mark),
    }
}

// A copy of it, where it is a cut.
fn first_cut(segments: &[Segment]) -> Result<Cut, NoMemory>
    requires { is_cut (mark_in segments.now) ≡ true }
    ensures { IfOk result (λ cut. Bound.At cut ≡ mark_in segments.now) }
{
    match first_mark(segments) {
        None => unreachable!(),
        Some(Bound::End) => unreachable!(),
        Some(Bound::At(mark)) => mark.try_clone(),
    }
}

// The key of the spent entry that ended the listing, if one did.
fn spent_key(core: Core) -> Option<Cut>
    ensures { result ≡ spent_key core }
{
    if !core.is_spent() {
        return None;
    }
    match core.into_end() {
        Bound::At(cut) => Some(cut),
        Bound::End => None,
    }
}

// The step of the machine, which takes no memory.
fn drain_in(core: &mut Core, rows: u64)
    requires { fits core.old (Event.Drain rows) ≡ true }
    ensures { Step core.old (Event.Drain rows) Reply.Noted core.new }
{
    match core.apply(Event::Drain { rows }) {
        Ok(_) => {}
        Err(_) => unreachable!(),
    }
}

impl<R: Drop> Board<R> {
    /// Whether no segment has an owner or something left to scan.
    pub fn is_finished(&self) -> bool
        ensures { result ≡ list_all is_closed self.now.core.segments }
    {
        all_closed(self.core.segments())
    }

    /// Takes out the rows of the segments up to and with the first that isn't closed. The closed ones among these go, but
    /// the last of all stays.
    pub fn drain(&mut self) -> Result<Rows<R>, NoMemory>
        ensures rows { IfOk result (λ rows. rows ≡ front_rows self.old) }
        ensures event { IfOk result (λ rows. Adds self.old (Event.Drain (length rows)) Reply.Noted [] self.new) }
        ensures next { IfOk result (AreNext self.old) }
        ensures stays { OnOk result (Stays self.old self.new) }
        ensures unchanged { OnErr result (self.new ≡ self.old) }
    {
        let gone = self.core.gone_count();
        let rows = self.core.front_rows();
        let count = self.core.segments().len();
        let front = Vec::with_capacity(self.alloc, count)?;
        make_log_room(&mut self.log, self.core.segments())?;
        drain_in(&mut self.core, rows);
        let front = take_front(self.alloc, &mut self.kept, gone, front);
        let _ = self.log.push(Event::Drain { rows });
        Ok(Rows::new(front))
    }

    /// Whether the first segment's mark is a cut.
    pub fn can_stop(&self) -> bool
        ensures { result ≡ is_cut (first_mark self.now.core) }
    {
        match first_mark(self.core.segments()) {
            None => false,
            Some(Bound::At(_)) => true,
            Some(Bound::End) => false,
        }
    }

    /// Ends the board at the first segment's mark, which is answered.
    pub fn stop(&mut self) -> Result<Cut, NoMemory>
        requires { is_cut (first_mark self.old.core) ≡ true }
        ensures mark { IfOk result (λ mark. Bound.At mark ≡ first_mark self.old.core) }
        ensures event { IfOk result (λ mark. Adds self.old (Event.StopAt mark) Reply.Noted [] self.new) }
        ensures stays { OnOk result (Stays self.old self.new) }
        ensures unchanged { OnErr result (self.new ≡ self.old) }
    {
        let answer = first_cut(self.core.segments())?;
        let mark = answer.try_clone()?;
        let again = answer.try_clone()?;
        match self.add(
            Event::StopAt { mark },
            Event::StopAt { mark: again },
            Vec::new(self.alloc),
        ) {
            Ok(_) => Ok(answer),
            Err(untaken) => Err(untaken.why),
        }
    }

    /// The listing, where no segment has an owner or something left to scan, else the board again. It takes no memory.
    pub fn close(self) -> Closed<R>
        ensures finished { is_listing result ≡ all_closed self.core }
        ensures listing { GivesListing self result }
        ensures unfinished { GivesBack self result }
    {
        match self.close_with_log() {
            Err(board) => Closed::Unfinished(board),
            Ok(Logged { listing, log: _ }) => Closed::Listing(listing),
        }
    }

    /// The listing with the log, which is moved out. It takes no memory.
    pub fn close_with_log(self) -> Result<Logged<R>, Board<R>>
        ensures finished { OnOk result (all_closed self.core ≡ true) }
        ensures listing { IfOk result (λ closed. IsListing self closed.listing × Lists self closed.listing) }
        ensures log { IfOk result (λ closed. closed.log.items ≡ self.log) }
        ensures unfinished { OnErr result (all_closed self.core ≡ false) }
        ensures back { IfErr result (λ board. board ≡ self) }
    {
        if !self.is_finished() {
            return Err(self);
        }
        let Board {
            alloc: _,
            core,
            kept,
            log,
            window: _,
        } = self;
        let tried = core.tried();
        let listing = Listing {
            rows: Rows::new(kept),
            tried,
            spent: spent_key(core),
        };
        Ok(Logged { listing, log })
    }
}
