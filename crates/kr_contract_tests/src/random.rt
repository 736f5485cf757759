// Problems that were made at random, each with a method `m`: on every candidate, with little fuel and with much, the verdict is
// that of the test that is composed of calls.
ghost use Rattle.std.specs.Prelude.{◌≡◌};
ghost use Rattle.kr_mean.specs.WellFormed.{IsWellFormed};
ghost use Rattle.kr_space_layout.specs.Bounds.{bare};

use crate::composed::composed;
use crate::problems::PROBLEMS;
use kr_base::NoMemory;
use kr_contract::Tester;
use kr_judge_prepared::{Contract, Prepared};
use kr_mean::Verdict;
use kr_samples::{Unread, count_of, fits, indices_of, is_vector, layout_of, read_test, vector_of};
use kr_space_layout::Layout;
use kr_vector::Vector;
use std::alloc::Global;
use std::process::Abort;

/// How often each verdict came.
#[derive(Drop)]
struct Tally {
    problems: u32,
    pass: u32,
    failed: u32,
    rep_ok: u32,
    trap: u32,
    check_trap: u32,
    spent: u32,
}

fn add_one(count: &mut u32) {
    *count = count.saturating_add(1);
}

fn count(tally: &mut Tally, verdict: Verdict) {
    match verdict {
        Verdict::Pass => add_one(&mut tally.pass),
        Verdict::Ensures(_) => add_one(&mut tally.failed),
        // no problem here has a `signals` clause
        Verdict::Signals(_) => {}
        Verdict::RepOk => add_one(&mut tally.rep_ok),
        Verdict::Trap(_) => add_one(&mut tally.trap),
        Verdict::CheckTrap(_) => add_one(&mut tally.check_trap),
        Verdict::Spent => add_one(&mut tally.spent),
    }
}

/// The verdict of a composed test.
fn expected(
    alloc: Global,
    prepared: &Prepared,
    contract: &Contract,
    vector: &Vector,
    fuel: u64,
) -> Result<Verdict, NoMemory> {
    let layout = layout_of(prepared);
    if fits(layout, vector) {
        return composed(alloc, prepared.predicate(), contract, layout, vector, fuel);
    }
    Ok(Verdict::Spent)
}

/// The verdict of the tester; none where it isn't run.
fn said(
    prepared: &Prepared,
    tester: &mut Tester,
    vector: &Vector,
    fuel: u64,
) -> Result<Option<Verdict>, NoMemory>
    requires { tester.old ≡ prepared.now }
    ensures { tester.new ≡ prepared.now }
{
    if is_vector(prepared, vector) {
        return tester.verdict(vector, fuel);
    }
    Ok(None)
}

/// Whether both agree on a candidate.
fn agree(
    alloc: Global,
    prepared: &Prepared,
    contract: &Contract,
    tester: &mut Tester,
    vector: &Vector,
    fuel: u64,
    tally: &mut Tally,
) -> Result<bool, NoMemory>
    requires { tester.old ≡ prepared.now }
    ensures { tester.new ≡ prepared.now }
{
    let wanted = expected(alloc, prepared, contract, vector, fuel)?;
    count(tally, wanted);
    let found = said(prepared, tester, vector, fuel)?;
    Ok(found == Some(wanted))
}

/// The candidate of a number.
fn candidate(alloc: Global, layout: &Layout, number: u32) -> Result<Vector, NoMemory>
    requires { IsWellFormed (bare layout.now) }
{
    let indices = indices_of(alloc, layout, number)?;
    vector_of(alloc, layout, indices.as_slice())
}

/// Likewise of every candidate, with little fuel, and with all that the problem gives, or at least much of it.
fn agree_on_all(
    alloc: Global,
    prepared: &Prepared,
    contract: &Contract,
    tester: &mut Tester,
    tally: &mut Tally,
) -> Result<bool, NoMemory>
    requires { tester.old ≡ prepared.now }
{
    let layout = layout_of(prepared);
    let much = layout.fuel().min(2000);
    'candidates: for number in 0..count_of(layout) {
        let vector = candidate(alloc, layout, number)?;
        let little = u64::from(number % 64);
        if !agree(alloc, prepared, contract, tester, &vector, much, tally)? {
            return Ok(false);
        }
        if !agree(alloc, prepared, contract, tester, &vector, little, tally)? {
            return Ok(false);
        }
    }
    Ok(true)
}

/// Likewise of a prepared problem, by one tester.
fn agree_on(alloc: Global, prepared: &Prepared, tally: &mut Tally) -> Result<bool, NoMemory> {
    let Some(contract) = prepared.contract() else {
        return Ok(false);
    };
    let mut tester = Tester::new(alloc, prepared)?;
    agree_on_all(alloc, prepared, contract, &mut tester, tally)
}

/// Likewise of a prepared problem, which is dropped here.
fn agree_once(alloc: Global, prepared: Prepared, tally: &mut Tally) -> Result<bool, NoMemory> {
    agree_on(alloc, &prepared, tally)
}

/// Likewise of a problem's text, its source and its finitization.
fn agree_read(alloc: Global, text: &str, tally: &mut Tally) -> Result<bool, Unread> {
    let Some((source, fin)) = text.split_once('$') else {
        return Ok(false);
    };
    let prepared = read_test(alloc, source, fin, "m")?;
    add_one(&mut tally.problems);
    let same = agree_once(alloc, prepared, tally)?;
    Ok(same)
}

fn try_all(rt: &impl Abort, alloc: Global, tally: &mut Tally) -> Result<(), Unread> {
    for text in PROBLEMS.split('`') {
        let same = agree_read(alloc, text, tally)?;
        assert!(rt; same, "{text}");
    }
    Ok(())
}

/// Whether each verdict came often enough.
fn tells_enough(tally: &Tally) -> bool {
    tally.pass >= 50
        && tally.failed >= 50
        && tally.rep_ok >= 5
        && tally.trap >= 50
        && tally.check_trap >= 20
        && tally.spent >= 50
}

#[test]
fn random_problems(rt: HostRuntime) -> Result<(), Unread> {
    let mut tally = Tally {
        problems: 0,
        pass: 0,
        failed: 0,
        rep_ok: 0,
        trap: 0,
        check_trap: 0,
        spent: 0,
    };
    try_all(&rt, rt.alloc(), &mut tally)?;
    assert!(rt; tally.problems == 15);
    assert!(rt;
        tells_enough(&tally),
        "{} {} {} {} {} {}",
        tally.pass,
        tally.failed,
        tally.rep_ok,
        tally.trap,
        tally.check_trap,
        tally.spent
    );
    Ok(())
}
