// Statements whose flows are known at once, one level above another: what is deeper isn't known.
ghost use Rattle.std.specs.Prelude.{IfSome};
ghost use Rattle.kr_mean.specs.Operators.{operated_alone as alone_step};
ghost use Rattle.kr_mean.specs.Steps.{bind, give, say};
ghost use Rattle.kr_mean.specs.Meaning.{choose};
ghost use Rattle.kr_code.specs.declared.code.Code.{Code};
ghost use Rattle.kr_code.specs.Doing.{all_at, flow_of};
ghost use Rattle.kr_code.specs.Tables.{listed};
ghost use Rattle.kr_run_state.specs.declared.world.World.{World};
ghost use Rattle.kr_run_known.specs.Knowing.{Knows};
ghost use Rattle.kr_run_lookahead.specs.Flows.{KnowsFlow, otherwise as otherwise_flow};

use crate::leaving::literal_returned;
use crate::passing::operated_alone;
use kr_code::{Code, Expression, Nodes, Statement};
use kr_mean::{Flow, UnaryOperation};
use kr_run_known::{Known, expression_at, look_at, look_at_call, statement_at};
use kr_run_state::World;
use kr_value::Value;

/// A statement's end, and the fuel that is left after it.
#[derive(Clone, Copy)]
pub struct Led {
    pub flow: Flow,
    pub fuel: u64,
}

/// Where statements are looked at, so many levels deep at most.
pub trait Follow {
    /// Where a node leads as a statement from so much fuel, where that is known.
    fn follow(code: &Code, world: &World, node: u32, fuel: u64) -> Option<Led>
        ensures { IfSome result (λ l. KnowsFlow code.now world.now fuel l (λ d. d.exec node)) };
}

/// Below all levels: nothing is known.
pub struct Nothing;

/// One level above another.
pub(crate) struct Over<L> {
    below: L,
}

impl Follow for Nothing {
    #[inline(always)]
    fn follow(_code: &Code, _world: &World, _node: u32, _fuel: u64) -> Option<Led> {
        None
    }
}

impl<L: Follow> Follow for Over<L> {
    #[inline(never)]
    fn follow(code: &Code, world: &World, node: u32, fuel: u64) -> Option<Led> {
        if fuel == 0 {
            return None;
        }
        match statement_at(code, node) {
            None => None,
            Some(statement) => flow_in::<L>(code, world, statement, fuel - 1),
        }
    }
}

/// A statement leads there, with so much fuel left.
#[inline(always)]
fn leads(flow: Flow, fuel: u64) -> Option<Led>
    ensures { (code : Code) (w : World) → IfSome result (λ l. KnowsFlow code w fuel l (λ d. give flow)) }
{
    Some(Led { flow, fuel })
}

/// Statements, one after another.
#[inline(always)]
fn all<L: Follow>(code: &Code, world: &World, nodes: Nodes, fuel: u64) -> Option<Led>
    ensures { IfSome result (λ l. KnowsFlow code.now world.now fuel l (λ d. all_at d (listed code.now nodes))) }
{
    let mut left = nodes;
    let mut fuel_left = fuel;
    'statements: for _ in 0..u64::MAX {
        match code.split(left) {
            None => return leads(Flow::Next, fuel_left),
            Some((node, others)) => match L::follow(code, world, node, fuel_left) {
                None => return None,
                Some(led) => match led.flow {
                    Flow::Next => {
                        left = others;
                        fuel_left = led.fuel;
                    }
                    flow => return leads(flow, led.fuel),
                },
            },
        }
    }
    None
}

/// An operator with its operand, after its unit: mostly a call on a set is negated.
#[inline(always)]
fn unary(
    code: &Code,
    world: &World,
    operation: UnaryOperation,
    operand: u32,
    fuel: u64,
) -> Option<Known>
    ensures { IfSome result (λ k. Knows code.now world.now fuel k (λ d. bind (d.value operand) (λ v. say (alone_step operation v)))) }
{
    match look_at_call(code, world, operand, fuel) {
        None => None,
        Some(found) => operated_alone(code, world, operation, found.value, found.fuel),
    }
}

/// The value of a condition: of a negation the operand is looked at, so that the negation itself costs little.
#[inline(always)]
fn condition_of(code: &Code, world: &World, node: u32, fuel: u64) -> Option<Known>
    ensures { IfSome result (λ k. Knows code.now world.now fuel k (λ d. d.value node)) }
{
    if fuel == 0 {
        return None;
    }
    match expression_at(code, node) {
        None => None,
        Some(expression) => match expression {
            Expression::Unary { operation, operand } => {
                unary(code, world, *operation, *operand, fuel - 1)
            }
            _ => look_at(code, world, node, fuel),
        },
    }
}

/// A statement that a condition chooses: a literal that it returns is found at once.
#[inline(always)]
fn taken<L: Follow>(code: &Code, world: &World, node: u32, fuel: u64) -> Option<Led>
    ensures { IfSome result (λ l. KnowsFlow code.now world.now fuel l (λ d. d.exec node)) }
{
    match literal_returned(code, node, fuel) {
        Some(known) => Some(Led {
            flow: Flow::Gave(known.value),
            fuel: known.fuel,
        }),
        None => L::follow(code, world, node, fuel),
    }
}

/// One of two statements.
#[inline(always)]
fn branch<L: Follow>(
    code: &Code,
    world: &World,
    condition: u32,
    then: u32,
    otherwise: Option<u32>,
    fuel: u64,
) -> Option<Led>
    ensures { IfSome result (λ l. KnowsFlow code.now world.now fuel l (λ d. bind (d.value condition) (λ v. choose v (d.exec then) (otherwise_flow d otherwise)))) }
{
    match condition_of(code, world, condition, fuel) {
        None => None,
        Some(found) => match found.value {
            Value::Bool(true) => taken::<L>(code, world, then, found.fuel),
            Value::Bool(false) => match otherwise {
                None => leads(Flow::Next, found.fuel),
                Some(node) => L::follow(code, world, node, found.fuel),
            },
            _ => None,
        },
    }
}

/// A statement, after its unit.
#[inline(always)]
fn flow_in<L: Follow>(code: &Code, world: &World, statement: &Statement, fuel: u64) -> Option<Led>
    ensures { IfSome result (λ l. KnowsFlow code.now world.now fuel l (λ d. flow_of code.now d statement.now)) }
{
    match statement {
        Statement::Empty => leads(Flow::Next, fuel),
        Statement::Block(nodes) => all::<L>(code, world, *nodes, fuel),
        Statement::Evaluate(node) => match look_at(code, world, *node, fuel) {
            None => None,
            Some(found) => leads(Flow::Next, found.fuel),
        },
        Statement::IfThen { condition, then } => branch::<L>(
            code, world, *condition, *then, None, fuel,
        ),
        Statement::IfElse {
            condition,
            then,
            otherwise,
        } => branch::<L>(code, world, *condition, *then, Some(*otherwise), fuel),
        Statement::Break => leads(Flow::Broke, fuel),
        Statement::Continue => leads(Flow::Continued, fuel),
        Statement::Leave => leads(Flow::Left, fuel),
        Statement::Return(node) => match look_at(code, world, *node, fuel) {
            None => None,
            Some(found) => leads(Flow::Gave(found.value), found.fuel),
        },
        _ => None,
    }
}

/// Where statements lead, one after another, from so much fuel, where that is known at once.
#[inline(always)]
pub(crate) fn known_flow_of(code: &Code, world: &World, nodes: Nodes, fuel: u64) -> Option<Led>
    ensures { IfSome result (λ l. KnowsFlow code.now world.now fuel l (λ d. all_at d (listed code.now nodes))) }
{
    all::<Over<Over<Over<Nothing>>>>(code, world, nodes, fuel)
}

/// Likewise of a node as a statement. It is mostly a block, whose statements are followed without a call for the block.
#[inline(always)]
pub(crate) fn known_flow(code: &Code, world: &World, node: u32, fuel: u64) -> Option<Led>
    ensures { IfSome result (λ l. KnowsFlow code.now world.now fuel l (λ d. d.exec node)) }
{
    if fuel == 0 {
        return None;
    }
    match statement_at(code, node) {
        None => None,
        Some(statement) => match statement {
            Statement::Block(nodes) => known_flow_of(code, world, *nodes, fuel - 1),
            _ => <Over<Over<Over<Over<Nothing>>>>>::follow(code, world, node, fuel),
        },
    }
}
