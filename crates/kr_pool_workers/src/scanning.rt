// Scans for a board.
ghost use Rattle.std.specs.Prelude.{◌≡◌, ◌+◌, ◌<◌, ◌≤◌, true, length, IfOk};
ghost use Rattle.kr_base.specs.declared.span.Bound.TheVariants.{At};
ghost use Rattle.kr_base.specs.Bounds.{less};
ghost use Rattle.kr_board.specs.Parts.{IsPart};
ghost use Rattle.kr_pool_desk.specs.Costs.{cost};
ghost use Rattle.kr_pool_desk.specs.Short.{AreShortKeys, IsShortBound};

use kr_base::{NoMemory, Steps};
use kr_board::{Lease, part_law};
use kr_survey::{Part, Survey};
use std::marker::Brand;
use std::sync::ledger::{Blank, Ledger};

/// A part of a survey from a lease's mark on, which may be reported. It accounts for the runs that the scan counts.
pub fn scan_part<S: Survey, L: Ledger>(
    survey: &S,
    scratch: &mut S::Scratch,
    lease: &Lease,
    most: u32,
    runs: &mut Steps<L>,
) -> Result<Part<S::Row>, NoMemory>
    requires most { 0 < most }
    requires made { S.made survey.now scratch.old }
    requires ahead { less (At lease.now.mark) lease.now.upto ≡ true }
    ensures part { IfOk result (IsPart (S.all survey.now) lease.now.mark) }
    ensures short { IfOk result (λ part. AreShortKeys (S.all survey.now) → IsShortBound lease.now.upto → IsShortBound part.reach) }
    ensures few { IfOk result (λ part. length part.rows ≤ most) }
    ensures runs { IfOk result (λ part. runs.new ≤ runs.old + cost lease.now part) }
    ensures made { S.made survey.now scratch.new }
{
    survey.ascends();
    part_law::<S::Row>();
    survey.scan_with(scratch, &lease.mark, &lease.upto, most, runs)
}

fn scan_counted<S: Survey, L: Ledger>(
    survey: &S,
    scratch: &mut S::Scratch,
    lease: &Lease,
    most: u32,
    blank: Blank,
) -> Result<Part<S::Row>, NoMemory>
    requires ledger { blank.name ≡ L.name }
    requires parts { blank.parts ≡ L.parts }
    requires some { 0 < L.parts }
    requires most { 0 < most }
    requires made { S.made survey.now scratch.old }
    requires ahead { less (At lease.now.mark) lease.now.upto ≡ true }
    ensures part { IfOk result (IsPart (S.all survey.now) lease.now.mark) }
    ensures short { IfOk result (λ part. AreShortKeys (S.all survey.now) → IsShortBound lease.now.upto → IsShortBound part.reach) }
    ensures few { IfOk result (λ part. length part.rows ≤ most) }
    ensures made { S.made survey.now scratch.new }
{
    let mut runs = Steps::<L>::start(blank);
    scan_part(survey, scratch, lease, most, &mut runs)
}

/// The same, by a scan whose runs nobody counts.
pub fn scan_uncounted<S: Survey>(
    survey: &S,
    scratch: &mut S::Scratch,
    lease: &Lease,
    most: u32,
) -> Result<Part<S::Row>, NoMemory>
    requires most { 0 < most }
    requires made { S.made survey.now scratch.old }
    requires ahead { less (At lease.now.mark) lease.now.upto ≡ true }
    ensures part { IfOk result (IsPart (S.all survey.now) lease.now.mark) }
    ensures short { IfOk result (λ part. AreShortKeys (S.all survey.now) → IsShortBound lease.now.upto → IsShortBound part.reach) }
    ensures few { IfOk result (λ part. length part.rows ≤ most) }
    ensures made { S.made survey.now scratch.new }
{
    scan_counted::<S, Brand>(survey, scratch, lease, most, Blank::new(1))
}
