// Leases for seats that want work.
ghost use Rattle.std.specs.Prelude.{◌≡◌, ◌↔◌, [], None, IfOk, IfSome, IfNone, OnOk, OnErr, true, is_some, if◌then◌else◌};
ghost use Rattle.std.specs.List.{find, list_any};
ghost use Rattle.kr_core.specs.Steps.{fits};
ghost use Rattle.kr_core.specs.States.{is_owned};
ghost use Rattle.kr_core.specs.Counts.{AllClosed};
ghost use Rattle.kr_board.specs.Boards.{Adds, Stays};
ghost use Rattle.kr_board.specs.Taking.{is_free, theft_of, first_free, take_event, reply_of, IsLater, any_owned};

use super::Board;
use kr_base::{Bound, Cut, NoMemory};
use kr_core::{Event, Lease, Reply, Segment};

/// The answer to a seat that wants work: a lease; nothing now, while others are at work; or nothing any more.
#[derive(Drop)]
pub enum Taken {
    Lease(Lease),
    Later,
    Finished,
}

fn is_free(segment: &Segment) -> bool
    ensures { result ≡ is_free segment.now }
{
    segment.has_remainder() && !segment.is_owned()
}

// The first free segment.
fn first_free(segments: &[Segment]) -> Option<&Segment>
    ensures none { IfNone result (find is_free segments.now ≡ None) }
    ensures some { IfSome result (λ g. find is_free segments.now ≡ Some g.now) }
{
    for segment in segments {
        if is_free(segment) {
            return Some(segment);
        }
    }
    None
}

// Where an owned segment may be stolen from.
fn theft_of(segment: &Segment) -> Result<Option<Cut>, NoMemory>
    ensures { IfOk result (λ cut. cut ≡ theft_of segment.now) }
{
    if !segment.is_owned() {
        return Ok(None);
    }
    match &segment.mark {
        Bound::End => Ok(None),
        Bound::At(mark) => mark.inside(&segment.upto),
    }
}

// The first segment that may be stolen from: its number, and where.
fn first_victim(segments: &[Segment]) -> Result<Option<(&Segment, Cut)>, NoMemory>
    ensures none { IfOk result (λ found. IfNone found (find (λ g. is_some (theft_of g)) segments.now ≡ None)) }
    ensures some { IfOk result (λ found. IfSome found (λ p. (find (λ g. is_some (theft_of g)) segments.now ≡ Some p.0.now) × (theft_of p.0.now ≡ Some p.1))) }
{
    for segment in segments {
        if let Some(cut) = theft_of(segment)? {
            return Ok(Some((segment, cut)));
        }
    }
    Ok(None)
}

fn any_owned(segments: &[Segment]) -> bool
    ensures { result ≡ list_any (λ g. is_owned g.owner) segments.now }
{
    for segment in segments {
        if segment.is_owned() {
            return true;
        }
    }
    false
}

impl<R: Drop> Board<R> {
    /// Gives a seat the first segment without owner that has something left to scan; where there is none, the rest of the
    /// first owned segment that has a cut. It also takes the log's place for the lease to be given up.
    pub fn take(&mut self, seat: u32) -> Result<Taken, NoMemory>
        ensures event { IfOk result (λ taken. Adds self.old (take_event seat self.old.core) (reply_of taken) [] self.new) }
        ensures later { IfOk result (λ taken. (taken ≡ Taken.Later) ↔ IsLater self.old.core) }
        ensures finished { IfOk result (λ taken. (taken ≡ Taken.Finished) ↔ AllClosed self.old.core) }
        ensures stays { OnOk result (Stays self.old self.new) }
        ensures unchanged { OnErr result (self.new ≡ self.old) }
    {
        match first_free(self.core.segments()) {
            Some(segment) => {
                let number = segment.number;
                self.grant(seat, number)
            }
            None => self.take_rest(seat),
        }
    }

    // Takes where no segment is free.
    fn take_rest(&mut self, seat: u32) -> Result<Taken, NoMemory>
        requires { first_free self.old.core ≡ None }
        ensures event { IfOk result (λ taken. Adds self.old (take_event seat self.old.core) (reply_of taken) [] self.new) }
        ensures later { IfOk result (λ taken. (taken ≡ Taken.Later) ↔ IsLater self.old.core) }
        ensures finished { IfOk result (λ taken. (taken ≡ Taken.Finished) ↔ AllClosed self.old.core) }
        ensures stays { OnOk result (Stays self.old self.new) }
        ensures unchanged { OnErr result (self.new ≡ self.old) }
    {
        if self.core.next() == u64::MAX {
            return self.wait(seat);
        }
        match first_victim(self.core.segments())? {
            None => self.wait(seat),
            Some((victim, cut)) => {
                let number = victim.number;
                self.steal(seat, number, cut)
            }
        }
    }

    // The lease of a segment that may be taken.
    fn grant(&mut self, seat: u32, segment: u64) -> Result<Taken, NoMemory>
        requires { fits self.old.core (Event.Take seat segment) ≡ true }
        ensures added { IfOk result (λ taken. Adds self.old (Event.Take seat segment) (reply_of taken) [] self.new) }
        ensures unchanged { OnErr result (self.new ≡ self.old) }
    {
        match self.add(
            Event::Take { seat, segment },
            Event::Take { seat, segment },
            Vec::new(self.alloc),
        ) {
            Ok(Reply::Lease(lease)) => Ok(Taken::Lease(lease)),
            Ok(Reply::Go(_)) => unreachable!(),
            Ok(Reply::Done) => unreachable!(),
            Ok(Reply::Noted) => unreachable!(),
            Err(untaken) => Err(untaken.why),
        }
    }

    // The lease of the rest after a cut, in a segment that may be stolen from.
    pub(super) fn steal(&mut self, seat: u32, victim: u64, cut: Cut) -> Result<Taken, NoMemory>
        requires { fits self.old.core (Event.Steal seat victim cut self.old.core.next) ≡ true }
        ensures added { IfOk result (λ taken. Adds self.old (Event.Steal seat victim cut self.old.core.next) (reply_of taken) [] self.new) }
        ensures unchanged { OnErr result (self.new ≡ self.old) }
    {
        let segment = self.core.next();
        let again = cut.try_clone()?;
        let event = Event::Steal {
            seat,
            victim,
            cut,
            segment,
        };
        let logged = Event::Steal {
            seat,
            victim,
            cut: again,
            segment,
        };
        match self.add(event, logged, Vec::new(self.alloc)) {
            Ok(Reply::Lease(lease)) => Ok(Taken::Lease(lease)),
            Ok(Reply::Go(_)) => unreachable!(),
            Ok(Reply::Done) => unreachable!(),
            Ok(Reply::Noted) => unreachable!(),
            Err(untaken) => Err(untaken.why),
        }
    }

    // Nothing for the seat: not now, while others are at work, or not any more.
    fn wait(&mut self, seat: u32) -> Result<Taken, NoMemory>
        ensures added { OnOk result (Adds self.old (Event.Look seat) Reply.Noted [] self.new) }
        ensures later { IfOk result (λ taken. taken ≡ (if any_owned self.old.core then Taken.Later else Taken.Finished)) }
        ensures unchanged { OnErr result (self.new ≡ self.old) }
    {
        let at_work = any_owned(self.core.segments());
        self.look(seat)?;
        if at_work {
            Ok(Taken::Later)
        } else {
            Ok(Taken::Finished)
        }
    }
}
