// Who should take what, and what there is room for. No contract names any of it but the free front.
ghost use Rattle.std.specs.Prelude.{◌≡◌};
ghost use Rattle.kr_pool_desk.specs.Tables.{has_free_front};

use crate::crew::Run;
use crate::desk::Desk;
use kr_board::Lease;
use std::sync::ledger::Ledger;

/// A segment after the first that holds more than this part of the window is left for one nearer to the front.
const SHARES: u64 = 12;

/// For each open segment before it, up to a most, this part of the window is left to those nearer to the front.
const LEFT: u64 = 16;

const MOST_LEFT: u64 = 4;

/// So many rows are reckoned for a part that isn't scanned yet, or the part of a small window that is left for one segment.
const PART: u64 = 256;

/// This part of the window is much for one segment; and so many rows are, where there is no window.
const MUCH: u64 = 8;

const MANY: u64 = 512;

impl<R: Drop, N: Run<R>, D: Ledger> Desk<R, N, D> {
    /// Whether some seat holds a segment.
    pub fn has_owned(&self) -> bool {
        for segment in self.board.segments() {
            if segment.is_owned() {
                return true;
            }
        }
        false
    }

    // How many segments before this one are open.
    fn position(&self, number: u64) -> u64 {
        let mut before: u64 = 0;
        for segment in self.board.segments() {
            if segment.number == number {
                return before;
            }
            if !segment.is_closed() {
                before = before.saturating_add(1);
            }
        }
        before
    }

    // Whether so many rows more, after so many open segments, leave too little of the window to these.
    fn is_crowded(&self, position: u64, rows: u64) -> bool {
        match self.board.window() {
            None => false,
            Some(window) => {
                let shares = if position < MOST_LEFT {
                    position
                } else {
                    MOST_LEFT
                };
                let left = (window / LEFT).saturating_mul(shares);
                self.board.rows_kept().saturating_add(rows) > window.saturating_sub(left)
            }
        }
    }

    // Whether a part that isn't scanned yet may have no room, after so many open segments.
    fn has_no_room_for_more(&self, position: u64) -> bool {
        match self.board.window() {
            None => false,
            Some(window) => {
                let share = window / LEFT;
                self.is_crowded(position, if share < PART { share } else { PART })
            }
        }
    }

    // Whether a segment after the first holds so many rows that its seat looks for one nearer to the front.
    fn is_over_share(&self, rows: u64) -> bool {
        match self.board.window() {
            None => false,
            Some(window) => rows > window / SHARES,
        }
    }

    // Whether a segment that holds so many rows, after so many open ones, is too far from the front to go on with.
    fn is_too_far(&self, position: u64, rows: u64) -> bool {
        position > 0 && (self.is_over_share(rows) || self.has_no_room_for_more(position))
    }

    /// The number of the first free segment, if there is one.
    pub fn first_free(&self) -> Option<u64> {
        for segment in self.board.segments() {
            if segment.has_remainder() && !segment.is_owned() {
                return Some(segment.number);
            }
        }
        None
    }

    // Whether the first free segment, if there is one, is near enough to the front.
    fn has_takeable(&self) -> bool {
        let mut position: u64 = 0;
        for segment in self.board.segments() {
            if segment.has_remainder() && !segment.is_owned() {
                return !self.is_too_far(position, segment.rows);
            }
            if !segment.is_closed() {
                position = position.saturating_add(1);
            }
        }
        false
    }

    /// Whether a take leads to a lease that was nobody's and is near enough to the front, or to the end.
    pub fn may_take(&self) -> bool {
        self.has_takeable() || !self.has_owned()
    }

    /// Whether a seat that goes on under this lease gives it up, for one nearer to the front.
    pub fn is_far(&self, lease: &Lease) -> bool {
        let mut position: u64 = 0;
        for segment in self.board.segments() {
            if segment.number == lease.segment {
                return self.is_too_far(position, segment.rows);
            }
            if !segment.is_closed() {
                position = position.saturating_add(1);
            }
        }
        false
    }

    /// Whether the rows kept fill the window.
    pub fn is_at_window(&self) -> bool {
        match self.board.window() {
            None => false,
            Some(window) => self.board.rows_kept() >= window,
        }
    }

    /// Whether the first segment is free and has no rows.
    pub fn has_free_front(&self) -> bool
        ensures { result ≡ has_free_front self.now.0.core.segments }
    {
        match self.board.segments().first() {
            None => false,
            Some(first) => first.rows == 0 && first.has_remainder() && !first.is_owned(),
        }
    }

    // Whether the rest of this lease is wanted now: nothing else can be taken, and there is room for its rows.
    pub(crate) fn is_rest_wanted(&self, lease: &Lease) -> bool {
        !self.has_takeable()
            && !self.is_at_window()
            && !self.has_no_room_for_more(self.position(lease.segment).saturating_add(1))
    }

    // Whether this is the first segment, and it has no rows.
    fn is_open_front(&self, number: u64) -> bool {
        match self.board.segments().first() {
            None => false,
            Some(first) => first.number == number && first.rows == 0,
        }
    }

    /// Whether a part of so many rows of this segment has room at the board, and leaves room to those nearer to the front.
    pub fn has_room(&self, segment: u64, rows: u64) -> bool {
        self.is_open_front(segment) || !self.is_crowded(self.position(segment), rows)
    }

    /// Whether a drain gives rows, or makes a segment the first one, or says that nothing is left.
    pub fn is_drainable(&self) -> bool {
        match self.board.segments().first() {
            None => true,
            Some(first) => first.rows > 0 || first.is_closed(),
        }
    }

    /// Whether the first segment has many rows, or nothing is left.
    pub fn has_much(&self) -> bool {
        let many = match self.board.window() {
            None => MANY,
            Some(window) => window / MUCH,
        };
        match self.board.segments().first() {
            None => true,
            Some(first) => first.rows > many || self.is_finished(),
        }
    }
}
