// How many rows are kept, and whether more may be.
ghost use Rattle.std.specs.Prelude.{◌≡◌, ◌+◌, ◌↔◌, IsTrue, length};
ghost use Rattle.std.specs.List.{sum_by};
ghost use Rattle.kr_survey.specs.Joins.{joined};
ghost use Rattle.kr_base.specs.Causes.{capped};
ghost use Rattle.kr_board.specs.Windows.{CountsFew, IsFew, IsInWindow, is_open_front, is_over, passes};

use super::Board;
use kr_core::Segment;
use kr_survey::Part;

// The rows that are kept, by the segments' counts.
fn counted_rows(segments: &[Segment]) -> u64
    ensures { result ≡ capped (sum_by (λ s. s.rows) segments.now) }
{
    let mut rows: u64 = 0;
    for segment in segments {
        rows = rows.saturating_add(segment.rows);
    }
    rows
}

// Whether so many rows kept and so many more pass the window.
fn passes(window: Option<u64>, kept: u64, more: u64) -> bool
    ensures { result ≡ passes window (kept + more) }
{
    match window {
        None => false,
        Some(most) => most < kept || most - kept < more,
    }
}

// Whether the first segment has that number and holds no rows.
fn is_open_front(segments: &[Segment], number: u64) -> bool
    ensures { result ≡ is_open_front number segments.now }
{
    match segments.first() {
        None => false,
        Some(first) => first.number == number && first.rows == 0,
    }
}

fn is_few(window: Option<u64>, count: usize) -> bool
    ensures { IsTrue result ↔ IsFew window count }
{
    match window {
        None => true,
        Some(_) => count <= 256,
    }
}

impl<R: Drop> Board<R> {
    /// How many rows are kept: where there is a window, at most 256 more than that.
    pub fn rows_kept(&self) -> u64
        ensures rows { result ≡ length (joined self.now.kept) }
        ensures few { IsInWindow self.now.window self.now.kept }
    {
        let _ = &self.alloc;
        counted_rows(self.segments())
    }

    /// The segments count no more rows than the window and 256. It does nothing.
    pub fn counts_few(&self)
        ensures { CountsFew self.now.window self.now.core }
    {
        let _ = &self.alloc;
    }

    /// How many rows may be kept, if there is a bound.
    pub fn window(&self) -> Option<u64>
        ensures { result ≡ self.now.window }
    {
        self.window
    }

    /// Whether a part is short enough to be reported: where there is a window, it has at most 256 rows.
    pub fn is_few(&self, part: &Part<R>) -> bool
        ensures { IsTrue result ↔ IsFew self.now.window (length part.now.rows) }
    {
        is_few(self.window, part.rows.len())
    }

    // Whether so many rows more in a segment are more than may be kept.
    pub(super) fn is_over(&self, segment: u64, more: u64) -> bool
        ensures { result ≡ is_over self.now segment more }
    {
        passes(self.window, self.rows_kept(), more) && !is_open_front(self.segments(), segment)
    }
}
