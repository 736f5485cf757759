// The `signals` clauses of a method that throws.
ghost use Rattle.std.specs.Prelude.{◌≡◌, IfOk, map};
ghost use Rattle.kr_contract.specs.Vocabulary.{Doing, is_caught_by, IsMeaning, old_of, state_of};
ghost use Rattle.kr_contract.specs.Tests.{Holds, IsPlain, fitting_at, no_clause, signal_judged, signalled_at, signals_at};

use crate::parts::{check, check_rep_ok};
use kr_base::NoMemory;
use kr_classes_table::ClassId;
use kr_code::Code;
use kr_heap::refill;
use kr_judge_prepared::{Contract, SignalCode};
use kr_mean::{Kind, Verdict};
use kr_run_frames::Stack;
use kr_run_state::{Old, World};
use kr_value::Value;
use std::alloc::Global;

/// Whether the class of no clause fits.
pub(crate) fn none_fits(code: &Code, signals: &[SignalCode], kind: Kind) -> bool
    ensures { result ≡ no_clause (fitting_at code.now kind 1 signals.now) }
{
    let class = code.class_in_kind(kind);
    'signals: for signal in signals {
        if code.is_caught_by(signal.caught, class) {
            return false;
        }
    }
    true
}

/// Nothing where a clause doesn't fit, or holds; else the verdict.
fn check_signal(
    alloc: Global,
    code: &Code,
    world: &mut World,
    stack: &mut Stack,
    signal: SignalCode,
    class: Option<ClassId>,
    object: Value,
    number: u32,
) -> Result<Option<Verdict>, NoMemory>
    requires { IsPlain world.old }
    ensures { IfOk result (λ said. Holds code.now said world.new (λ d next. signal_judged d object number signal (is_caught_by code.now signal.caught class) (state_of world.old) next)) }
{
    if !code.is_caught_by(signal.caught, class) {
        return Ok(None);
    }
    check(
        alloc,
        code,
        world,
        stack,
        signal.condition,
        signal.is_named,
        object,
        Verdict::Signals(number),
    )
}

/// The verdict of the clauses whose class fits: by the first that is false.
fn check_signals(
    alloc: Global,
    code: &Code,
    world: &mut World,
    stack: &mut Stack,
    signals: &[SignalCode],
    kind: Kind,
    object: Value,
) -> Result<Verdict, NoMemory>
    requires { IsPlain world.old }
    ensures { IfOk result (λ verdict. (d : Doing) → IsMeaning code.now d → verdict ≡ signalled_at d object (fitting_at code.now kind 1 signals.now) (state_of world.old)) }
{
    let class = code.class_in_kind(kind);
    let mut number: u32 = 0;
    'signals: for signal in signals {
        if number == u32::MAX {
            return Err(NoMemory::at_limit(signals));
        }
        number += 1;
        match check_signal(alloc, code, world, stack, *signal, class, object, number)? {
            Some(verdict) => return Ok(verdict),
            None => {}
        }
    }
    Ok(Verdict::Pass)
}

/// The verdict where an object is thrown that some clause fits: `this.repOk()`, and then those clauses.
pub(crate) fn check_object(
    alloc: Global,
    code: &Code,
    rep_ok: u32,
    contract: &Contract,
    world: &mut World,
    stack: &mut Stack,
    olds: &[Old],
    kind: Kind,
    object: Value,
) -> Result<Verdict, NoMemory>
    requires { IsPlain world.old }
    ensures { IfOk result (λ verdict. (d : Doing) → IsMeaning code.now d → verdict ≡ signals_at d rep_ok (map old_of olds.now) object (fitting_at code.now kind 1 contract.now.signals.items) (state_of world.old)) }
{
    match check_rep_ok(alloc, code, world, stack, rep_ok)? {
        Some(verdict) => Ok(verdict),
        None => {
            refill(&mut world.olds, olds)?;
            let signals = contract.signals.as_slice();
            check_signals(alloc, code, world, stack, signals, kind, object)
        }
    }
}
