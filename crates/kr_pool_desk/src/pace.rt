// Who is in a round and who waits, and when a rest is laid out. No contract names any of it.

use crate::beginning::Beginning;

/// How often the caller waits in vain, one time after another, before it ends a round in which nobody works; and before it ends
/// one that some seat hasn't begun: it may be that no thread was started for it.
const VAIN: u32 = 8;

const UNBEGUN: u32 = 400;

/// How many entries a part has at least, for its seat to count as one that had work.
const WORK: u64 = 32;

/// How many seats there are, how many of them began a round, how many are in it, how many of these wait for work, and how many for
/// room; how often the caller waited in vain; how many reports came since a rest was laid out, and how many have to before the
/// next; which seat had work since then, and whether more than one had; whether there is news for those that wait; and in which
/// order segments are begun.
#[derive(Drop)]
pub struct Pace {
    pub beginning: Beginning,
    seats: u32,
    begun: u32,
    present: u32,
    waiting: u32,
    held: u32,
    vain: u32,
    since: u32,
    patience: u32,
    worker: Option<u32>,
    shared: bool,
    news: bool,
}

// Twice as long, up to a most.
fn longer(patience: u32) -> u32 {
    if patience == 0 {
        1
    } else if patience >= 8 {
        16
    } else {
        patience * 2
    }
}

impl Pace {
    pub fn start(seats: u32) -> Pace {
        Pace {
            beginning: Beginning::start(seats),
            seats,
            begun: 0,
            present: 0,
            waiting: 0,
            held: 0,
            vain: 0,
            since: 0,
            patience: 0,
            worker: None,
            shared: false,
            news: false,
        }
    }

    /// The caller begins a round, with its own seat.
    pub fn lead(&mut self) {
        self.beginning.forget();
        self.begun = 0;
        self.vain = 0;
        self.enter();
    }

    /// A seat begins the round.
    pub fn enter(&mut self) {
        self.begun = self.begun.saturating_add(1);
        self.present = self.present.saturating_add(1);
    }

    /// A seat leaves the round.
    pub fn leave(&mut self) {
        self.present = self.present.saturating_sub(1);
        self.news = true;
    }

    /// A seat waits for work.
    pub fn begin_wait(&mut self) {
        self.waiting = self.waiting.saturating_add(1);
    }

    pub fn end_wait(&mut self) {
        self.waiting = self.waiting.saturating_sub(1);
    }

    /// A seat waits for room for its part.
    pub fn begin_hold(&mut self) {
        self.held = self.held.saturating_add(1);
    }

    pub fn end_hold(&mut self) {
        self.held = self.held.saturating_sub(1);
    }

    /// Whether a seat waits for room.
    pub fn is_held(&self) -> bool {
        self.held > 0
    }

    // Whether the caller is alone in a round that all seats began.
    fn is_alone(&self) -> bool {
        self.present <= 1 && self.begun >= self.seats
    }

    // Whether all seats in the round but the caller's wait.
    fn is_idle(&self) -> bool {
        self.waiting.saturating_add(self.held).saturating_add(1) >= self.present
    }

    /// The caller finds nothing to do. Whether it waits, since another seat works, or may do so soon.
    pub fn is_worth_waiting(&mut self) -> bool {
        if self.is_alone() {
            return false;
        }
        if !self.is_idle() {
            self.vain = 0;
            return true;
        }
        self.vain = self.vain.saturating_add(1);
        self.vain
            <= if self.begun < self.seats {
                UNBEGUN
            } else {
                VAIN
            }
    }

    pub fn tell(&mut self) {
        self.news = true;
    }

    /// A seat is done with its segment.
    pub fn done(&mut self, seat: u32) {
        if self.beginning.end(seat) {
            self.news = true;
        }
    }

    /// Whether there was news, which is over with it.
    pub fn take_news(&mut self) -> bool {
        let news = self.news;
        self.news = false;
        news
    }

    /// A part came, of so many entries. The caller should drain where a seat waits for room, and seats may begin that couldn't.
    pub fn reported(&mut self, seat: u32, tried: u64) {
        self.vain = 0;
        let may_begin = self.beginning.add(tried);
        if self.held > 0 || may_begin {
            self.news = true;
        }
        self.since = self.since.saturating_add(1);
        if tried < WORK {
            return;
        }
        match self.worker {
            None => self.worker = Some(seat),
            Some(one) => {
                if one != seat {
                    self.shared = true;
                }
            }
        }
    }

    /// Whether a seat that goes on should lay out a rest, for one that waits or will: more than one had work since the last time,
    /// or enough reports came. Not where a seat is alone in the round.
    pub fn wants_rest(&self) -> bool {
        self.present > 1 && (self.shared || self.since >= self.patience)
    }

    /// A rest was laid out. Where one seat alone had work since the last time, the next one waits longer.
    pub fn laid_out(&mut self) {
        self.patience = if self.shared {
            0
        } else {
            longer(self.patience)
        };
        self.since = 0;
        self.worker = None;
        self.shared = false;
        self.news = true;
    }
}
