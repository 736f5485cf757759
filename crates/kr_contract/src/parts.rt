// The parts of a test: an expression, a condition, the values of `\old`s, the body, what it throws, the postconditions.
ghost use Rattle.std.specs.Prelude.{◌≡◌, IfOk, OnOk, map};
ghost use Rattle.kr_contract.specs.Vocabulary.{CheckTrap, Doing, IsMeaning, naming, old_of, RepOk, state_of, taken, then_judged, where_holds};
ghost use Rattle.kr_contract.specs.Tests.{Decides, Ends, Holds, IsPlain, body_at, ended_as, ensured_at, given_as, olds_at};

use kr_base::NoMemory;
use kr_classes_table::MethodId;
use kr_code::Code;
use kr_judge_prepared::OldCode;
use kr_mean::{Kind, Stop, Verdict};
use kr_run_frames::Stack;
use kr_run_method::{call, value_of};
use kr_run_state::{Halt, Local, Old, World, ended, take};
use kr_value::Value;
use std::alloc::Global;

/// The verdict where an `\old`, `repOk`, a postcondition or a `signals` clause ends so.
fn check_ended(end: Stop) -> Verdict
    ensures { result ≡ ended_as CheckTrap end }
{
    match end {
        Stop::Trapped(kind) => Verdict::CheckTrap(kind),
        Stop::OutOfFuel => Verdict::Spent,
        Stop::Stuck => Verdict::Spent,
    }
}

/// The value of an expression of the contract, or the verdict.
fn evaluate(
    alloc: Global,
    code: &Code,
    world: &mut World,
    stack: &mut Stack,
    node: u32,
) -> Result<Result<Value, Verdict>, NoMemory>
    requires { IsPlain world.old }
    ensures { IfOk result (λ said. Decides code.now said world.new (λ d. then_judged CheckTrap (d.value node (state_of world.old)))) }
{
    match value_of(alloc, code, world, stack, node) {
        Ok(value) => Ok(Ok(value)),
        Err(Halt::Ended(end)) => Ok(Err(check_ended(end))),
        Err(Halt::Memory(why)) => Err(why),
    }
}

/// The value of an expression in which an object may have a name, as the next local; or the verdict.
fn evaluate_naming(
    alloc: Global,
    code: &Code,
    world: &mut World,
    stack: &mut Stack,
    node: u32,
    is_named: bool,
    object: Value,
) -> Result<Result<Value, Verdict>, NoMemory>
    requires { IsPlain world.old }
    ensures { IfOk result (λ said. Decides code.now said world.new (λ d. then_judged CheckTrap (naming is_named object (d.value node) (state_of world.old)))) }
{
    if !is_named {
        return evaluate(alloc, code, world, stack, node);
    }
    let count = world.locals.len();
    world.locals.push(Local {
        value: object,
        parameter: None,
    })?;
    let said = evaluate(alloc, code, world, stack, node)?;
    world.locals.truncate(count);
    Ok(said)
}

/// Nothing where a condition holds, in which an object may have a name; else the verdict.
pub(crate) fn check(
    alloc: Global,
    code: &Code,
    world: &mut World,
    stack: &mut Stack,
    node: u32,
    is_named: bool,
    object: Value,
    fails: Verdict,
) -> Result<Option<Verdict>, NoMemory>
    requires { IsPlain world.old }
    ensures { IfOk result (λ said. Holds code.now said world.new (λ d next. then_judged CheckTrap (naming is_named object (d.value node) (state_of world.old)) (λ v t. where_holds v fails (next t)))) }
{
    match evaluate_naming(alloc, code, world, stack, node, is_named, object)? {
        Err(verdict) => return Ok(Some(verdict)),
        Ok(value) => match value {
            Value::Bool(truth) => {
                if truth {
                    return Ok(None);
                }
                return Ok(Some(fails));
            }
            Value::Int(_) => return Ok(Some(Verdict::Spent)),
            Value::Null => return Ok(Some(Verdict::Spent)),
            Value::Ref(_) => return Ok(Some(Verdict::Spent)),
        },
    }
}

/// Nothing where `this.repOk()` holds; else the verdict.
pub(crate) fn check_rep_ok(
    alloc: Global,
    code: &Code,
    world: &mut World,
    stack: &mut Stack,
    rep_ok: u32,
) -> Result<Option<Verdict>, NoMemory>
    requires { IsPlain world.old }
    ensures { IfOk result (λ said. Holds code.now said world.new (λ d next. then_judged CheckTrap (d.value rep_ok (state_of world.old)) (λ v t. where_holds v RepOk (next t)))) }
{
    check(
        alloc,
        code,
        world,
        stack,
        rep_ok,
        false,
        Value::Null,
        Verdict::RepOk,
    )
}

/// The values of `\old`s come in place of others, each with its place. Nothing is thrown yet, so its name is null.
pub(crate) fn value_olds(
    alloc: Global,
    code: &Code,
    world: &mut World,
    stack: &mut Stack,
    olds: &[OldCode],
    values: &mut Vec<Old>,
) -> Result<Result<(), Verdict>, NoMemory>
    requires { IsPlain world.old }
    ensures { IfOk result (λ said. Decides code.now (given_as (map old_of values.new.items) said) world.new (λ d. then_judged CheckTrap (olds_at d olds.now (state_of world.old)))) }
{
    values.clear();
    'olds: for old in olds {
        match evaluate_naming(
            alloc,
            code,
            world,
            stack,
            old.operand,
            old.is_named,
            Value::Null,
        )? {
            Err(verdict) => return Ok(Err(verdict)),
            Ok(value) => values.push(Old {
                place: old.place,
                value,
            })?,
        }
    }
    Ok(Ok(()))
}

/// The values of locals come in place of others.
fn take_values(values: &mut Vec<Value>, locals: &[Local]) -> Result<(), NoMemory>
    ensures { OnOk result (values.new.items ≡ map (λ l. l.value) locals.now) }
{
    values.clear();
    for local in locals {
        values.push(local.value)?;
    }
    Ok(())
}

/// The result of the method on `this`, with the locals as its arguments, or how it ends.
pub(crate) fn run_body(
    alloc: Global,
    code: &Code,
    world: &mut World,
    stack: &mut Stack,
    method: MethodId,
    arguments: &mut Vec<Value>,
) -> Result<Result<Value, Stop>, NoMemory>
    requires { IsPlain world.old }
    ensures { IfOk result (λ said. Ends code.now said world.new (λ d. body_at code.now d method (state_of world.old))) }
{
    take_values(arguments, world.locals.as_slice())?;
    let this = world.this;
    ended(call(
        alloc,
        code,
        world,
        stack,
        method,
        this,
        arguments.as_slice(),
    ))
}

/// The object that was thrown, of a trap a new one; or the verdict.
pub(crate) fn take_object(
    alloc: Global,
    code: &Code,
    world: &mut World,
    kind: Kind,
) -> Result<Result<Value, Verdict>, NoMemory>
    requires { IsPlain world.old }
    ensures { IfOk result (λ said. Decides code.now said world.new (λ d. then_judged CheckTrap (taken code.now kind (state_of world.old)))) }
{
    match take(alloc, code, world, kind) {
        Ok(object) => Ok(Ok(object)),
        Err(Halt::Ended(end)) => Ok(Err(check_ended(end))),
        Err(Halt::Memory(why)) => Err(why),
    }
}

/// The verdict of the postconditions: by the first that doesn't hold.
pub(crate) fn check_all(
    alloc: Global,
    code: &Code,
    world: &mut World,
    stack: &mut Stack,
    nodes: &[u32],
) -> Result<Verdict, NoMemory>
    requires { IsPlain world.old }
    ensures { IfOk result (λ verdict. (d : Doing) → IsMeaning code.now d → verdict ≡ ensured_at d 1 nodes.now (state_of world.old)) }
{
    let mut number: u32 = 0;
    'nodes: for node in nodes {
        if number == u32::MAX {
            return Err(NoMemory::at_limit(nodes));
        }
        number += 1;
        match check(
            alloc,
            code,
            world,
            stack,
            *node,
            false,
            Value::Null,
            Verdict::Ensures(number),
        )? {
            Some(verdict) => return Ok(verdict),
            None => {}
        }
    }
    Ok(Verdict::Pass)
}
