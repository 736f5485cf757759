// Steps that need no other code, each of which gives a value.
ghost use Rattle.kr_run_state.specs.Worlds.{state_at, Agrees};
ghost use Rattle.kr_run_state.specs.Actions.{acted, written};
ghost use Rattle.kr_mean.specs.Steps.{bind, give};

use crate::memory::{
    cast, element, instance, load_named, new_array, new_collection, store, store_item,
};
use crate::names::{assign, declare, old, read_local, result, tick};
use crate::operators::{operated, operated_alone};
use crate::{Halt, World};
use kr_base::Place;
use kr_classes_table::{FieldId, NameId, TypeId};
use kr_code::Code;
use kr_mean::{BinaryOperation, Stop, UnaryOperation};
use kr_value::{Class, Value};
use std::alloc::Global;

/// A variable, with the values that select it.
#[derive(Clone, Copy)]
pub enum Cell {
    Local(u32),
    /// Field and object.
    Field(FieldId, Value),
    /// Array type, array and index.
    Item(TypeId, Value, Value),
}

/// A step, with the values that it works on.
#[derive(Clone, Copy)]
pub enum Action {
    Give(Value),
    This,
    ReadLocal(u32),
    Result,
    Old(Place),
    /// The field of a name, of an object.
    Load(NameId, Value),
    /// Array and index.
    Element(Value, Value),
    Unary(UnaryOperation, Value),
    Binary(BinaryOperation, Value, Value),
    Instance(TypeId, Value),
    Cast(TypeId, Value),
    /// The array type's number, what an element begins with, and the length.
    NewArray(Option<u32>, Value, Value),
    /// Without members.
    NewCollection(Class),
    /// Gives a variable a value, and then what is given.
    Write(Cell, Value, Value),
    /// A unit of fuel.
    Tick,
    /// A unit, and a new local.
    Declare(Value),
    /// The run ends.
    End(Stop),
}

/// Gives a variable a value.
#[tactic(auto, unfolding(kr_mean::specs::Steps::bind))]
fn write(
    code: &Code,
    world: &mut World,
    cell: Cell,
    value: Value,
    given: Value,
) -> Result<Value, Halt>
    ensures { Agrees result world.new world.old (λ x. bind (written code.now cell value) (λ u. give given) (state_at world.old x)) }
{
    match cell {
        Cell::Local(local) => assign(world, local, value, given),
        Cell::Field(field, object) => store(code, world, field, object, value, given),
        Cell::Item(class, array, index) => {
            store_item(code, world, class, array, index, value, given)
        }
    }
}

/// Does a step.
#[tactic(auto, unfolding(kr_mean::specs::Steps::bind))]
pub fn act(alloc: Global, code: &Code, action: Action, world: &mut World) -> Result<Value, Halt>
    ensures { Agrees result world.new world.old (λ x. acted code.now action (state_at world.old x)) }
{
    match action {
        Action::Give(value) => Ok(value),
        Action::This => Ok(world.this),
        Action::ReadLocal(local) => read_local(world, local),
        Action::Result => result(world),
        Action::Old(place) => old(world, place),
        Action::Load(name, object) => load_named(code, world, name, object),
        Action::Element(array, index) => element(world, array, index),
        Action::Unary(operation, value) => operated_alone(world, operation, value),
        Action::Binary(operation, left, right) => operated(world, operation, left, right),
        Action::Instance(class, value) => instance(code, world, class, value),
        Action::Cast(class, value) => cast(code, world, class, value),
        Action::NewArray(class, default, length) => new_array(alloc, world, class, default, length),
        Action::NewCollection(class) => new_collection(alloc, world, class),
        Action::Write(cell, value, given) => write(code, world, cell, value, given),
        Action::Tick => tick(world),
        Action::Declare(value) => declare(world, value),
        Action::End(end) => Err(Halt::Ended(end)),
    }
}
