// Values of nodes that are known at once.
ghost use Rattle.std.specs.Prelude.{◌≡◌, IfSome, MatchOption};
ghost use Rattle.kr_run_known.specs.Knowing.{HasGiven, Knows};

use crate::levels::{Above, Below, Look, called, expression_at};
use kr_code::{Code, CollectionCall, Expression};
use kr_run_state::World;
use kr_value::Value;

/// An expression's value, and the fuel that is left after it.
#[derive(Clone, Copy)]
pub struct Known {
    pub value: Value,
    pub fuel: u64,
}

/// A node's value as an expression from so much fuel, where that is known at once.
#[inline(always)]
pub fn look_at(code: &Code, world: &World, node: u32, fuel: u64) -> Option<Known>
    ensures { IfSome result (λ k. Knows code.now world.now fuel k (λ d. d.value node)) }
{
    <Above<Above<Above<Above<Below>>>>>::look(code, world, node, fuel)
}

/// Likewise of a node that mostly is a call on a collection: what else it could be is looked at last.
#[inline(always)]
pub fn look_at_call(code: &Code, world: &World, node: u32, fuel: u64) -> Option<Known>
    ensures { IfSome result (λ k. Knows code.now world.now fuel k (λ d. d.value node)) }
{
    if fuel == 0 {
        return None;
    }
    match expression_at(code, node) {
        None => None,
        Some(expression) => match expression {
            Expression::CallCollection {
                object,
                call,
                arguments,
            } => called::<Above<Above<Above<Above<Below>>>>>(
                code,
                world,
                *object,
                *call,
                *arguments,
                fuel - 1,
            ),
            _ => look_at(code, world, node, fuel),
        },
    }
}

/// Whether a call mostly changes its collection.
#[inline(always)]
fn may_change(call: CollectionCall) -> bool {
    match call {
        CollectionCall::Add => true,
        CollectionCall::Remove => true,
        CollectionCall::RemoveFirst => true,
        _ => false,
    }
}

/// Whether a node is such a call, so that it mostly isn't known, and looking at its parts would be in vain: correctness
/// doesn't depend on it.
#[inline(always)]
fn calls_to_change(code: &Code, node: u32) -> bool {
    match expression_at(code, node) {
        Some(Expression::CallCollection { call, .. }) => may_change(*call),
        _ => false,
    }
}

/// Likewise of the operand of an operator, too.
#[inline(always)]
fn is_change(code: &Code, node: u32) -> bool {
    match expression_at(code, node) {
        Some(Expression::CallCollection { call, .. }) => may_change(*call),
        Some(Expression::Unary { operand, .. }) => calls_to_change(code, *operand),
        _ => false,
    }
}

/// A node's value as an expression, where that is known at once; its fuel is spent. None of what mostly changes a
/// collection.
#[inline(always)]
pub fn at_once(code: &Code, world: &mut World, node: u32) -> Option<Value>
    ensures { MatchOption result (world.new ≡ world.old) (λ v. HasGiven code.now v world.new world.old (λ d. d.value node)) }
{
    if is_change(code, node) {
        return None;
    }
    match look_at(code, &*world, node, world.fuel) {
        None => None,
        Some(known) => {
            world.fuel = known.fuel;
            Some(known.value)
        }
    }
}
