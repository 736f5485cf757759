// Leases that are given back.
ghost use Rattle.std.specs.Prelude.{◌≡◌, ◌↔◌, ◌<◌, [], true, false, length};
ghost use Rattle.kr_core.specs.States.{segment_of};
ghost use Rattle.kr_core.specs.Steps.{Step, fits, may_give_up};
ghost use Rattle.kr_board.specs.Boards.{Adds, Stays};
ghost use Rattle.kr_board.specs.Releasing.{IsReleased, IsReleasedAt};

use super::Board;
use kr_core::{Core, Event, Lease, Reply};

/// Whether a seat gave its segment back: or it doesn't own one of that number.
#[derive(Clone, Copy, PartialEq, Eq)]
pub enum GivenUp {
    Released,
    Gone,
}

// The step of the machine, which takes no memory.
fn give_up_in(core: &mut Core, seat: u32, segment: u64)
    requires { fits core.old (Event.GiveUp seat segment) ≡ true }
    ensures { Step core.old (Event.GiveUp seat segment) Reply.Noted core.new }
{
    match core.apply(Event::GiveUp { seat, segment }) {
        Ok(_) => {}
        Err(_) => unreachable!(),
    }
}

impl<R: Drop> Board<R> {
    /// Gives a lease's segment back. It takes no memory.
    pub fn give_up(&mut self, lease: &Lease) -> GivenUp
        ensures gone { (result ≡ GivenUp.Gone) ↔ (may_give_up lease.now.seat (segment_of lease.now.segment self.old.core.segments) ≡ false) }
        ensures unchanged { result ≡ GivenUp.Gone → self.new ≡ self.old }
        ensures event { result ≡ GivenUp.Released → Adds self.old (Event.GiveUp lease.now.seat lease.now.segment) Reply.Noted [] self.new }
        ensures stays { Stays self.old self.new }
    {
        let event = Event::GiveUp {
            seat: lease.seat,
            segment: lease.segment,
        };
        if !self.core.fits(&event) {
            return GivenUp::Gone;
        }
        self.release(lease.seat, lease.segment);
        GivenUp::Released
    }

    /// Gives every owned segment back, one event for each. It takes no memory.
    pub fn release_all(&mut self)
        ensures released { IsReleased self.old self.new }
        ensures stays { Stays self.old self.new }
    {
        let count = self.core.segments().len();
        for i in 0..count {
            self.release_at(i);
        }
    }

    // A segment that the seat owns has no owner then. Its place in the log was made when it was taken.
    fn release(&mut self, seat: u32, segment: u64)
        requires { fits self.old.core (Event.GiveUp seat segment) ≡ true }
        ensures { Adds self.old (Event.GiveUp seat segment) Reply.Noted [] self.new }
    {
        give_up_in(&mut self.core, seat, segment);
        let _ = self.log.push(Event::GiveUp { seat, segment });
    }

    // Gives up the segment at a place, if it has an owner.
    fn release_at(&mut self, i: usize)
        requires { i < length self.old.core.segments }
        ensures { IsReleasedAt i self.old self.new }
    {
        let segment = &self.core.segments()[i];
        let number = segment.number;
        match segment.owner {
            None => {}
            Some(seat) => self.release(seat, number),
        }
    }
}
