// In which order seats begin the segments that a board has from the start. No contract names any of it but who comes.
ghost use Rattle.std.specs.Prelude.{◌≡◌, None, is_some};
ghost use Rattle.kr_pool_desk.specs.Tables.{CanCome};

use kr_board::Taken;

/// So many seats begin at once.
const AT_ONCE: u32 = 4;

/// Where there are more, so many entries are tried for each segment that is begun out of turn: a search that begins anew runs
/// candidates again, and a segment may be empty.
const ENTRIES: u64 = 16;

/// How many seats there are, how many segments were begun out of turn, and how many entries were tried; which seat began one last,
/// and its number; and the seat that is done with one and comes for the next.
#[derive(Drop)]
pub struct Beginning {
    seats: u32,
    begun: u64,
    tried: u64,
    last: Option<(u32, u64)>,
    coming: Option<u32>,
}

impl Beginning {
    pub fn start(seats: u32) -> Beginning {
        Beginning {
            seats,
            begun: 0,
            tried: 0,
            last: None,
            coming: None,
        }
    }

    /// Whether every seat may begin a segment now.
    pub fn is_over(&self) -> bool {
        self.seats <= AT_ONCE || self.tried / ENTRIES >= u64::from(self.seats)
    }

    // Whether a segment follows the one that this seat began last, so that its search goes on.
    fn is_in_turn(&self, seat: u32, segment: u64) -> bool {
        match self.last {
            None => false,
            Some((one, number)) => one == seat && number.saturating_add(1) == segment,
        }
    }

    /// Whether a seat may begin a segment: one that was laid out later, the next in turn, or one for which enough entries were
    /// tried; or any, where nobody works and nobody comes.
    pub fn may_begin(&self, seat: u32, segment: u64, is_any_owned: bool) -> bool {
        self.is_over()
            || segment >= u64::from(self.seats)
            || self.is_in_turn(seat, segment)
            || self.tried / ENTRIES >= self.begun
            || (!is_any_owned && self.coming.is_none())
    }

    /// A seat was answered. If it was given a segment, it begins that.
    pub fn note(&mut self, seat: u32, taken: &Taken) {
        match taken {
            Taken::Later => {}
            Taken::Finished => {}
            Taken::Lease(lease) => {
                if !self.is_in_turn(seat, lease.segment) {
                    self.begun = self.begun.saturating_add(1);
                }
                self.last = Some((seat, lease.segment));
            }
        }
    }

    /// So many entries were tried. Whether that is news for seats that may not begin.
    pub fn add(&mut self, tried: u64) -> bool {
        if self.is_over() {
            return false;
        }
        self.tried = self.tried.saturating_add(tried);
        self.is_over() || self.tried / ENTRIES >= self.begun
    }

    /// A seat is done with its segment, and comes for the next. Whether that is news for others.
    pub fn end(&mut self, seat: u32) -> bool {
        self.coming = Some(seat);
        self.is_over()
    }

    /// A seat comes.
    pub fn arrive(&mut self, seat: u32)
        ensures { CanCome seat self.old.coming → self.new.coming ≡ None }
    {
        if self.coming == Some(seat) {
            self.coming = None;
        }
    }

    /// Whether a seat is done with its segment, and has yet to come for the next.
    pub fn is_awaited(&self) -> bool
        ensures { result ≡ is_some self.now.coming }
    {
        self.coming.is_some()
    }

    /// Nobody comes, at the beginning of a round.
    pub fn forget(&mut self) {
        self.coming = None;
    }
}
