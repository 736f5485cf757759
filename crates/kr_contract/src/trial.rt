// One test, from its start to its verdict.
ghost use Rattle.std.specs.Prelude.{◌≡◌, IfOk, OnOk, map};
ghost use Rattle.kr_contract.specs.Vocabulary.{Doing, IsMeaning, old_of, state_of};
ghost use Rattle.kr_contract.specs.Tests.{IsPlain, after_body_at, body_at, checked_at, fitting_at, shown_to, thrown_at, verdict_at};

use crate::parts::{check_all, check_rep_ok, run_body, take_object, value_olds};
use crate::signals::{check_object, none_fits};
use kr_base::NoMemory;
use kr_code::Code;
use kr_heap::refill;
use kr_judge_prepared::Contract;
use kr_mean::{Kind, Stop, Verdict};
use kr_run_frames::Stack;
use kr_run_state::{Old, World};
use kr_value::Value;
use std::alloc::Global;

/// The environment of the postconditions beside the world: the result, and the values of `\old`s.
fn show(world: &mut World, olds: &[Old], given: Value) -> Result<(), NoMemory>
    requires { IsPlain world.old }
    ensures plain { IsPlain world.new }
    ensures state { OnOk result (state_of world.new ≡ shown_to (map old_of olds.now) given (state_of world.old)) }
{
    world.result = Some(given);
    refill(&mut world.olds, olds)?;
    Ok(())
}

/// The verdict where the body gives a value: `this.repOk()`, and then the postconditions.
fn check_result(
    alloc: Global,
    code: &Code,
    rep_ok: u32,
    contract: &Contract,
    world: &mut World,
    stack: &mut Stack,
    olds: &[Old],
    given: Value,
) -> Result<Verdict, NoMemory>
    requires { IsPlain world.old }
    ensures { IfOk result (λ verdict. (d : Doing) → IsMeaning code.now d → verdict ≡ checked_at d rep_ok contract.now.postconditions.items (map old_of olds.now) given (state_of world.old)) }
{
    match check_rep_ok(alloc, code, world, stack, rep_ok)? {
        Some(verdict) => Ok(verdict),
        None => {
            show(world, olds, given)?;
            let nodes = contract.postconditions.as_slice();
            check_all(alloc, code, world, stack, nodes)
        }
    }
}

/// The verdict where the body traps: of this kind, if no clause fits.
fn check_thrown(
    alloc: Global,
    code: &Code,
    rep_ok: u32,
    contract: &Contract,
    world: &mut World,
    stack: &mut Stack,
    olds: &[Old],
    kind: Kind,
) -> Result<Verdict, NoMemory>
    requires { IsPlain world.old }
    ensures { IfOk result (λ verdict. (d : Doing) → IsMeaning code.now d → verdict ≡ thrown_at code.now d rep_ok (map old_of olds.now) kind (fitting_at code.now kind 1 contract.now.signals.items) (state_of world.old)) }
{
    if none_fits(code, contract.signals.as_slice(), kind) {
        return Ok(Verdict::Trap(kind));
    }
    match take_object(alloc, code, world, kind)? {
        Err(verdict) => Ok(verdict),
        Ok(object) => check_object(
            alloc, code, rep_ok, contract, world, stack, olds, kind, object,
        ),
    }
}

/// The verdict of the body and of what is asked after it.
fn check_body(
    alloc: Global,
    code: &Code,
    rep_ok: u32,
    contract: &Contract,
    world: &mut World,
    stack: &mut Stack,
    olds: &[Old],
    arguments: &mut Vec<Value>,
) -> Result<Verdict, NoMemory>
    requires { IsPlain world.old }
    ensures { IfOk result (λ verdict. (d : Doing) → IsMeaning code.now d → verdict ≡ after_body_at code.now d rep_ok contract.now (map old_of olds.now) (body_at code.now d contract.now.method (state_of world.old))) }
{
    match run_body(alloc, code, world, stack, contract.method, arguments)? {
        Ok(given) => check_result(alloc, code, rep_ok, contract, world, stack, olds, given),
        Err(end) => match end {
            Stop::Trapped(kind) => check_thrown(
                alloc, code, rep_ok, contract, world, stack, olds, kind,
            ),
            Stop::OutOfFuel => Ok(Verdict::Spent),
            Stop::Stuck => Ok(Verdict::Spent),
        },
    }
}

/// The verdict of a test, in the world in which it begins: the values of `\old`s, the body, and what is asked after it, with
/// one fuel for all. The lists are rooms that are used again.
pub(crate) fn test(
    alloc: Global,
    code: &Code,
    rep_ok: u32,
    contract: &Contract,
    world: &mut World,
    stack: &mut Stack,
    olds: &mut Vec<Old>,
    arguments: &mut Vec<Value>,
) -> Result<Verdict, NoMemory>
    requires { IsPlain world.old }
    ensures { IfOk result (λ verdict. (d : Doing) → IsMeaning code.now d → verdict ≡ verdict_at code.now d rep_ok contract.now (state_of world.old)) }
{
    match value_olds(alloc, code, world, stack, contract.olds.as_slice(), olds)? {
        Err(verdict) => Ok(verdict),
        Ok(()) => check_body(
            alloc,
            code,
            rep_ok,
            contract,
            world,
            stack,
            olds.as_slice(),
            arguments,
        ),
    }
}
