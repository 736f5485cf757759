// Whether what was scanned may be reported.
ghost use Rattle.std.specs.Prelude.{◌≡◌, ◌↔◌, IsTrue};
ghost use Rattle.kr_board.specs.Parts.{IsPossible};

use kr_base::Cut;
use kr_survey::Part;

/// Whether the part may be one of a survey from the cut on, as far as its own numbers tell.
pub fn is_possible<R>(after: &Cut, part: &Part<R>) -> bool
    ensures { IsTrue result ↔ IsPossible after.now part.now }
{
    let rows = part.rows.len() as u64;
    let counted = if part.spent {
        part.reach.is_cut() && rows < part.tried
    } else {
        rows <= part.tried
    };
    part.reach.is_above_cut(after) && counted
}
