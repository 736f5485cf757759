// Expressions, one level above another: no code is nested too deep, since what is deeper isn't known.
ghost use Rattle.std.specs.Prelude.{◌≡◌, [], ◌∷◌, IfSome, MatchOption, false, true};
ghost use Rattle.kr_code.specs.declared.expression.Expression.TheVariants.{Stuck as NoExpression};
ghost use Rattle.kr_code.specs.declared.statement.Statement.TheVariants.{Stuck as NoStatement};
ghost use Rattle.kr_value.specs.declared.value.Value.TheVariants.{Bool as Truth};
ghost use Rattle.kr_mean.specs.Steps.{Run, bind, collect as collect_step, element as element_step, get_this, give, read_local, say};
ghost use Rattle.kr_mean.specs.Meaning.{choose};
ghost use Rattle.kr_mean.specs.Operators.{operated, operated_alone};
ghost use Rattle.kr_code.specs.declared.code.Code.{Code};
ghost use Rattle.kr_code.specs.Collections.{name_of};
ghost use Rattle.kr_code.specs.Doing.{value_done, values_at};
ghost use Rattle.kr_code.specs.Steps.{load_named};
ghost use Rattle.kr_code.specs.Tables.{expression_of, listed, node_at, statement_of};
ghost use Rattle.kr_run_state.specs.declared.world.World.{World};
ghost use Rattle.kr_run_known.specs.Knowing.{Knows, Shows};

use crate::Known;
use crate::places::{asked, asked_with, element, field, local};
use kr_code::{Code, CollectionCall, Expression, Node, Nodes, Statement};
use kr_mean::{BinaryOperation, UnaryOperation};
use kr_run_state::{World, alone, binary};
use kr_value::Value;

/// Where nodes are looked at, so many levels deep at most.
pub trait Look {
    /// The value of a node as an expression with so much fuel, where that is known.
    fn look(code: &Code, world: &World, node: u32, fuel: u64) -> Option<Known>
        ensures { IfSome result (λ k. Knows code.now world.now fuel k (λ d. d.value node)) };
}

/// Below all levels: nothing is known.
pub(crate) struct Below;

/// One level above another.
pub(crate) struct Above<L> {
    below: L,
}

impl Look for Below {
    #[inline(always)]
    fn look(_code: &Code, _world: &World, _node: u32, _fuel: u64) -> Option<Known> {
        None
    }
}

/// The expression that is a node, if it is one.
#[inline(always)]
pub fn expression_at(code: &Code, node: u32) -> Option<&Expression>
    ensures { MatchOption result (expression_of (node_at code.now node) ≡ NoExpression) (λ e. e.now ≡ expression_of (node_at code.now node)) }
{
    match code.nodes.get(node as usize) {
        Some(Node::Expression(expression)) => Some(expression),
        _ => None,
    }
}

/// The statement that is a node, if it is one.
#[inline(always)]
pub fn statement_at(code: &Code, node: u32) -> Option<&Statement>
    ensures { MatchOption result (statement_of (node_at code.now node) ≡ NoStatement) (λ t. t.now ≡ statement_of (node_at code.now node)) }
{
    match code.nodes.get(node as usize) {
        Some(Node::Statement(statement)) => Some(statement),
        _ => None,
    }
}

impl<L: Look> Look for Above<L> {
    #[inline(always)]
    fn look(code: &Code, world: &World, node: u32, fuel: u64) -> Option<Known> {
        if fuel == 0 {
            return None;
        }
        match expression_at(code, node) {
            None => None,
            Some(expression) => value_in::<L>(code, world, expression, fuel - 1),
        }
    }
}

#[inline(always)]
fn known_with(value: Option<Value>, fuel: u64) -> Option<Known>
    ensures { (code : Code) (w : World) (m : Run Value) → IfSome value (λ v. Shows w v m) → IfSome result (λ k. Knows code w fuel k (λ d. m)) }
{
    match value {
        Some(value) => Some(Known { value, fuel }),
        None => None,
    }
}

/// A local.
#[inline(always)]
fn local_of(code: &Code, world: &World, number: u32, fuel: u64) -> Option<Known>
    ensures { IfSome result (λ k. Knows code.now world.now fuel k (λ d. read_local number)) }
{
    known_with(local(world, number), fuel)
}

/// The field of a name, of `this`.
#[inline(never)]
fn own_field(code: &Code, world: &World, name: u32, fuel: u64) -> Option<Known>
    ensures { IfSome result (λ k. Knows code.now world.now fuel k (λ d. bind get_this (load_named code.now name))) }
{
    known_with(field(code, world, name, world.this), fuel)
}

/// The field of a name, of an object.
#[inline(always)]
fn field_of<L: Look>(code: &Code, world: &World, object: u32, name: u32, fuel: u64) -> Option<Known>
    ensures { IfSome result (λ k. Knows code.now world.now fuel k (λ d. bind (d.value object) (load_named code.now name))) }
{
    match L::look(code, world, object, fuel) {
        None => None,
        Some(found) => known_with(field(code, world, name, found.value), found.fuel),
    }
}

/// A local that is a node.
#[inline(always)]
fn near(code: &Code, world: &World, node: u32, fuel: u64) -> Option<Known>
    ensures { IfSome result (λ k. Knows code.now world.now fuel k (λ d. d.value node)) }
{
    if fuel == 0 {
        return None;
    }
    match expression_at(code, node) {
        None => None,
        Some(expression) => match expression {
            Expression::Local(number) => local_of(code, world, *number, fuel - 1),
            _ => None,
        },
    }
}

/// Likewise, where the object is no local.
#[inline(never)]
fn far_field<L: Look>(
    code: &Code,
    world: &World,
    object: u32,
    name: u32,
    fuel: u64,
) -> Option<Known>
    ensures { IfSome result (λ k. Knows code.now world.now fuel k (λ d. bind (d.value object) (load_named code.now name))) }
{
    field_of::<L>(code, world, object, name, fuel)
}

/// The field of a name, of an object: that of a local is looked up here, so that it costs little.
#[inline(always)]
fn near_field<L: Look>(
    code: &Code,
    world: &World,
    object: u32,
    name: u32,
    fuel: u64,
) -> Option<Known>
    ensures { IfSome result (λ k. Knows code.now world.now fuel k (λ d. bind (d.value object) (load_named code.now name))) }
{
    match near(code, world, object, fuel) {
        Some(found) => known_with(field(code, world, name, found.value), found.fuel),
        None => again(far_field::<L>(code, world, object, name, fuel)),
    }
}

/// The answer of a call, in parts.
#[inline(always)]
fn again(known: Option<Known>) -> Option<Known>
    ensures { result ≡ known }
{
    match known {
        None => None,
        Some(known) => Some(Known {
            value: known.value,
            fuel: known.fuel,
        }),
    }
}

/// An element of an array.
#[inline(never)]
fn element_of<L: Look>(
    code: &Code,
    world: &World,
    array: u32,
    index: u32,
    fuel: u64,
) -> Option<Known>
    ensures { IfSome result (λ k. Knows code.now world.now fuel k (λ d. bind (d.value array) (λ o. bind (d.value index) (element_step o)))) }
{
    match L::look(code, world, array, fuel) {
        None => None,
        Some(object) => match L::look(code, world, index, object.fuel) {
            None => None,
            Some(at) => known_with(element(world, object.value, at.value), at.fuel),
        },
    }
}

/// An operator with one operand.
#[inline(always)]
fn unary_of<L: Look>(
    code: &Code,
    world: &World,
    operation: UnaryOperation,
    operand: u32,
    fuel: u64,
) -> Option<Known>
    ensures { IfSome result (λ k. Knows code.now world.now fuel k (λ d. bind (d.value operand) (λ v. say (operated_alone operation v)))) }
{
    match L::look(code, world, operand, fuel) {
        None => None,
        Some(found) => match alone(operation, found.value) {
            Ok(value) => Some(Known {
                value,
                fuel: found.fuel,
            }),
            Err(_) => None,
        },
    }
}

/// An operator with two operands.
#[inline(never)]
fn binary_of<L: Look>(
    code: &Code,
    world: &World,
    operation: BinaryOperation,
    left: u32,
    right: u32,
    fuel: u64,
) -> Option<Known>
    ensures { IfSome result (λ k. Knows code.now world.now fuel k (λ d. bind (d.value left) (λ v. bind (d.value right) (λ w. say (operated operation v w))))) }
{
    match L::look(code, world, left, fuel) {
        None => None,
        Some(first) => match L::look(code, world, right, first.fuel) {
            None => None,
            Some(second) => match binary(operation, first.value, second.value) {
                Ok(value) => Some(Known {
                    value,
                    fuel: second.fuel,
                }),
                Err(_) => None,
            },
        },
    }
}

/// A conjunction: the right operand is looked at only where the left one holds.
#[inline(never)]
fn and_of<L: Look>(code: &Code, world: &World, left: u32, right: u32, fuel: u64) -> Option<Known>
    ensures { IfSome result (λ k. Knows code.now world.now fuel k (λ d. bind (d.value left) (λ v. choose v (d.value right) (give (Truth false))))) }
{
    match L::look(code, world, left, fuel) {
        None => None,
        Some(first) => match first.value {
            Value::Bool(true) => L::look(code, world, right, first.fuel),
            Value::Bool(false) => Some(Known {
                value: Value::Bool(false),
                fuel: first.fuel,
            }),
            _ => None,
        },
    }
}

/// A disjunction: the right operand is looked at only where the left one doesn't hold.
#[inline(never)]
fn or_of<L: Look>(code: &Code, world: &World, left: u32, right: u32, fuel: u64) -> Option<Known>
    ensures { IfSome result (λ k. Knows code.now world.now fuel k (λ d. bind (d.value left) (λ v. choose v (give (Truth true)) (d.value right)))) }
{
    match L::look(code, world, left, fuel) {
        None => None,
        Some(first) => match first.value {
            Value::Bool(true) => Some(Known {
                value: Value::Bool(true),
                fuel: first.fuel,
            }),
            Value::Bool(false) => L::look(code, world, right, first.fuel),
            _ => None,
        },
    }
}

/// A call without arguments on a collection.
#[inline(never)]
fn call_of<L: Look>(
    code: &Code,
    world: &World,
    object: u32,
    call: CollectionCall,
    arguments: Nodes,
    fuel: u64,
) -> Option<Known>
    requires { arguments.count ≡ 0 }
    ensures { IfSome result (λ k. Knows code.now world.now fuel k (λ d. bind (d.value object) (λ o. bind (values_at d (listed code.now arguments)) (collect_step (name_of call) o)))) }
{
    match L::look(code, world, object, fuel) {
        None => None,
        Some(found) => known_with(asked(world, call, found.value), found.fuel),
    }
}

/// The only one of some nodes.
#[inline(always)]
fn only(code: &Code, nodes: Nodes) -> Option<u32>
    ensures { IfSome result (λ i. listed code.now nodes ≡ i ∷ []) }
{
    if nodes.count != 1 {
        return None;
    }
    code.links.get(nodes.first as usize).copied()
}

/// Whether a call with an argument may change nothing.
#[inline(always)]
fn may_ask(call: CollectionCall) -> bool {
    match call {
        CollectionCall::Contains => true,
        CollectionCall::Add => true,
        _ => false,
    }
}

/// An argument: a field of what a node gives is looked up here, so that it costs little.
#[inline(always)]
fn argument_of<L: Look>(code: &Code, world: &World, node: u32, fuel: u64) -> Option<Known>
    ensures { IfSome result (λ k. Knows code.now world.now fuel k (λ d. d.value node)) }
{
    if fuel == 0 {
        return None;
    }
    match expression_at(code, node) {
        None => None,
        Some(expression) => match expression {
            Expression::FieldOf { object, name } => {
                field_of::<L>(code, world, *object, *name, fuel - 1)
            }
            _ => L::look(code, world, node, fuel),
        },
    }
}

/// A call with an argument on a collection. Calls that change the collection aren't known; most of these are recognised by
/// their names.
#[inline(never)]
fn call_with<L: Look>(
    code: &Code,
    world: &World,
    object: u32,
    call: CollectionCall,
    argument: u32,
    fuel: u64,
) -> Option<Known>
    ensures { IfSome result (λ k. Knows code.now world.now fuel k (λ d. bind (d.value object) (λ o. bind (d.value argument) (λ v. collect_step (name_of call) o (v ∷ []))))) }
{
    if !may_ask(call) {
        return None;
    }
    match L::look(code, world, object, fuel) {
        None => None,
        Some(found) => match argument_of::<L>(code, world, argument, found.fuel) {
            None => None,
            Some(given) => known_with(
                asked_with(world, call, found.value, given.value),
                given.fuel,
            ),
        },
    }
}

/// A call on a collection, with an argument or none.
#[inline(always)]
pub(crate) fn called<L: Look>(
    code: &Code,
    world: &World,
    object: u32,
    call: CollectionCall,
    arguments: Nodes,
    fuel: u64,
) -> Option<Known>
    ensures { IfSome result (λ k. Knows code.now world.now fuel k (λ d. bind (d.value object) (λ o. bind (values_at d (listed code.now arguments)) (collect_step (name_of call) o)))) }
{
    if arguments.count == 0 {
        return call_of::<L>(code, world, object, call, arguments, fuel);
    }
    match only(code, arguments) {
        None => None,
        Some(argument) => call_with::<L>(code, world, object, call, argument, fuel),
    }
}

/// An expression that isn't the simplest, after its unit.
#[inline(never)]
fn parts_in<L: Look>(
    code: &Code,
    world: &World,
    expression: &Expression,
    fuel: u64,
) -> Option<Known>
    ensures { IfSome result (λ k. Knows code.now world.now fuel k (λ d. value_done code.now d expression.now)) }
{
    match expression {
        Expression::Element { array, index } => element_of::<L>(code, world, *array, *index, fuel),
        Expression::Unary { operation, operand } => {
            unary_of::<L>(code, world, *operation, *operand, fuel)
        }
        Expression::Or { left, right } => or_of::<L>(code, world, *left, *right, fuel),
        Expression::CallCollection {
            object,
            call,
            arguments,
        } => called::<L>(code, world, *object, *call, *arguments, fuel),
        Expression::Convert { operand, .. } => L::look(code, world, *operand, fuel),
        _ => None,
    }
}

/// An expression, after its unit: what is simplest, and what is never known, is found here, so that it costs little.
#[inline(always)]
fn value_in<L: Look>(
    code: &Code,
    world: &World,
    expression: &Expression,
    fuel: u64,
) -> Option<Known>
    ensures { IfSome result (λ k. Knows code.now world.now fuel k (λ d. value_done code.now d expression.now)) }
{
    match expression {
        Expression::Literal(value) => Some(Known {
            value: *value,
            fuel,
        }),
        Expression::This => Some(Known {
            value: world.this,
            fuel,
        }),
        Expression::Local(number) => local_of(code, world, *number, fuel),
        Expression::OwnField(name) => again(own_field(code, world, *name, fuel)),
        Expression::FieldOf { object, name } => {
            near_field::<L>(code, world, *object, *name, fuel)
        }
        Expression::Binary {
            operation,
            left,
            right,
        } => again(binary_of::<L>(code, world, *operation, *left, *right, fuel)),
        Expression::And { left, right } => { again(and_of::<L>(code, world, *left, *right, fuel)) }
        _ => again(parts_in::<L>(code, world, expression, fuel)),
    }
}
