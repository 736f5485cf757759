// Verdicts on the cells of a field from 0 to 3, worked by hand.
ghost use Rattle.std.specs.Prelude.{◌≡◌, IsSome, true};
ghost use Rattle.kr_mean.specs.Runs.{tested_method};
ghost use Rattle.kr_space_problem.specs.Posed.{posed};

use kr_base::NoMemory;
use kr_contract::{Tester, verdict};
use kr_judge_prepared::Prepared;
use kr_mean::{Kind, Verdict};
use kr_samples::{Unread, is_vector, read_test};
use kr_vector::{Slot, Vector};
use std::alloc::Global;
use std::process::Abort;

const FIN: &str =
    "root = \"Cell\"\nfuel = 1000\n[objects]\nCell = 1\n[fields]\n\"Cell.v\" = [{ from = 0, to = 3 }]\n";

const INC: &str = "class Cell { int v; boolean repOk() { return true; }
//@ ensures v == \\old(v) + 1;
void inc() { if (v < 2) v = v + 1; } }";

/// No class has the name of a trap, so nothing fits one.
const TAKE: &str = "class Throwable { } class Full extends Throwable { int at = 4; }
class Cell { int v; boolean repOk() { return v < 9; }
//@ ensures v == \\old(v) - 1;
//@ signals (Full e) e.at == 3;
//@ signals (Throwable e) v == \\old(v);
void take() { if (v == 0) throw new Throwable(); if (v == 3) throw new Full(); if (v == 2) v = 1 / 0; v = v - 1; } }";

/// A candidate's field, the fuel, and the verdict.
type Row = (u32, u64, Verdict);

const INC_ROWS: [Row; 6] = [
    (0, 1000, Verdict::Pass),
    (1, 1000, Verdict::Pass),
    (2, 1000, Verdict::Ensures(1)),
    (3, 1000, Verdict::Ensures(1)),
    (0, 1000, Verdict::Pass),
    (0, 0, Verdict::Spent),
];

const TAKE_ROWS: [Row; 6] = [
    (0, 1000, Verdict::Pass),
    (1, 1000, Verdict::Pass),
    (2, 1000, Verdict::Trap(Kind::ArithmeticException)),
    (3, 1000, Verdict::Signals(1)),
    (0, 1000, Verdict::Pass),
    (0, 0, Verdict::Spent),
];

/// Whether a method is tested.
fn is_tested(prepared: &Prepared) -> bool
    ensures { result ≡ true → IsSome (tested_method (posed prepared.now.problem) (posed prepared.now.problem).mode) }
{
    match prepared.contract() {
        None => false,
        Some(_) => true,
    }
}

/// Whether both calls give this verdict.
fn says(
    alloc: Global,
    prepared: &Prepared,
    tester: &mut Tester,
    vector: &Vector,
    fuel: u64,
    expected: Verdict,
) -> Result<bool, NoMemory>
    requires { tester.old ≡ prepared.now }
    ensures { tester.new ≡ prepared.now }
{
    if !is_vector(prepared, vector) {
        return Ok(false);
    }
    if !is_tested(prepared) {
        return Ok(false);
    }
    let kept = tester.verdict(vector, fuel)?;
    let alone = verdict(alloc, prepared, vector, fuel)?;
    Ok(kept == Some(expected) && alone == expected)
}

/// Gives the cell's field a value of its domain, if it has the slot.
fn set(vector: &mut Vector, index: u32) {
    if 1 < vector.len() {
        vector.set(Slot(1), index);
    }
}

/// Cells of each value, with their verdicts.
fn judge_rows(
    rt: &impl Abort,
    alloc: Global,
    prepared: &Prepared,
    tester: &mut Tester,
    vector: &mut Vector,
    rows: &[Row],
) -> Result<(), NoMemory>
    requires { tester.old ≡ prepared.now }
{
    'rows: for row in rows {
        let (index, fuel, expected) = *row;
        set(vector, index);
        assert!(rt;
            says(alloc, prepared, tester, vector, fuel, expected)?,
            "{index}"
        );
    }
    Ok(())
}

fn judge_all(
    rt: &impl Abort,
    alloc: Global,
    prepared: &Prepared,
    rows: &[Row],
) -> Result<(), NoMemory> {
    let mut vector = Vector::zero(alloc, prepared.layout().slots() as usize)?;
    let mut tester = Tester::new(alloc, prepared)?;
    judge_rows(rt, alloc, prepared, &mut tester, &mut vector, rows)
}

/// Likewise of a problem, which is dropped here.
fn judge_once(
    rt: &impl Abort,
    alloc: Global,
    prepared: Prepared,
    rows: &[Row],
) -> Result<(), NoMemory> {
    judge_all(rt, alloc, &prepared, rows)
}

#[test]
fn old_values(rt: HostRuntime) -> Result<(), Unread> {
    let prepared = read_test(rt.alloc(), INC, FIN, "inc")?;
    judge_once(&rt, rt.alloc(), prepared, &INC_ROWS)?;
    Ok(())
}

#[test]
fn thrown_objects(rt: HostRuntime) -> Result<(), Unread> {
    let prepared = read_test(rt.alloc(), TAKE, FIN, "take")?;
    judge_once(&rt, rt.alloc(), prepared, &TAKE_ROWS)?;
    Ok(())
}
