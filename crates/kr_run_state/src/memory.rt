// Objects: what is read and written, and their classes.
ghost use Rattle.std.specs.Prelude.{◌≡◌, [], ◌++◌, ◌+◌, ◌≤◌, ◌<◌, Ok, length, replicate, true, false, IfOk, MatchOption};
ghost use Rattle.kr_value.specs.declared.value.Value.TheVariants.{Ref as Reference, Int};
ghost use Rattle.kr_value.specs.declared.object.Class.TheVariants.{Object};
ghost use Rattle.kr_value.specs.Heaps.{object_in};
ghost use Rattle.kr_mean.specs.Steps.{bind, give, element as element_step, index_within, load as load_step, class_or_null, make, put as put_step, store_index};
ghost use Rattle.kr_code.specs.Tables.{values_in};
ghost use Rattle.kr_code.specs.Steps.{load_named as load_named_step, store_field as store_step, store_initial as store_initial_step, store_item as store_item_step, cast_to, instance_of};
ghost use Rattle.kr_code.specs.Doing.{array_of, new_array as new_array_step};
ghost use Rattle.kr_run_state.specs.Reading.{OnlyReads};
ghost use Rattle.kr_run_state.specs.Worlds.{state_at, Agrees, Allows, is_fixed, candidates_of, Others, IsArray};

use crate::{Halt, World};
use kr_base::NoMemory;
use kr_classes_table::{ClassId, FieldId, NameId, TypeId};
use kr_code::{Code, Nodes};
use kr_heap::too_many;
use kr_mean::{Kind, Stop};
use kr_value::{Class, Obj, SlotPlace, Spot, Value};
use std::alloc::Global;

/// An object's number among those that the run has made; none where it is a candidate.
#[inline(always)]
pub fn made_number(world: &World, object: Obj) -> Option<u32>
    ensures { MatchOption result (object < length world.now.candidates) (λ k. object ≡ length world.now.candidates + k) }
{
    let count = world.candidates.len();
    if (object as usize) < count {
        None
    } else {
        Some((object as usize - count) as u32)
    }
}

/// The class of an object.
#[inline(always)]
pub fn class_of(world: &World, object: Obj) -> Class
    ensures own { result ≡ (object_in (world.now.candidates ++ world.now.made) object).class }
    ensures all { (x : Others) → Allows world.now x → result ≡ (object_in (candidates_of world.now.candidates x ++ world.now.made) object).class }
{
    match made_number(world, object) {
        None => world.candidates.class_of(object),
        Some(number) => world.made.class_of(number),
    }
}

/// A field or the length of what the run has made.
#[inline(always)]
fn load_made(world: &World, object: Obj, number: u32, spot: Spot) -> Result<Value, Halt>
    requires { object ≡ length world.now.candidates + number }
    ensures { Agrees result world.now world.now (λ x. load_step (Reference object) spot (state_at world.now x)) }
{
    match world.made.read(number, spot) {
        None => Err(Halt::Ended(Stop::Stuck)),
        Some(value) => Ok(value),
    }
}

/// A field or the length of a candidate, which is read.
#[inline(always)]
fn load_candidate(world: &mut World, object: Obj, spot: Spot) -> Result<Value, Halt>
    requires candidate { object < length world.old.candidates }
    requires fixed { is_fixed spot ≡ true }
    ensures agrees { Agrees result world.new world.old (λ x. load_step (Reference object) spot (state_at world.old x)) }
    ensures only { OnlyReads world.old world.new }
{
    let Some(value) = world.candidates.read(object, spot) else {
        return Err(Halt::Ended(Stop::Stuck));
    };
    world.reads.note(SlotPlace::At(object, spot))?;
    Ok(value)
}

/// A field of an object, or an array's length.
#[inline(always)]
fn load(world: &mut World, object: Obj, spot: Spot) -> Result<Value, Halt>
    requires { is_fixed spot ≡ true }
    ensures agrees { Agrees result world.new world.old (λ x. load_step (Reference object) spot (state_at world.old x)) }
    ensures only { OnlyReads world.old world.new }
{
    match made_number(world, object) {
        None => load_candidate(world, object, spot),
        Some(number) => load_made(world, object, number, spot),
    }
}

/// The field of a name, or an array's length.
#[tactic(auto, unfolding(kr_mean::specs::Steps::bind))]
pub fn load_named(
    code: &Code,
    world: &mut World,
    name: NameId,
    object: Value,
) -> Result<Value, Halt>
    ensures agrees { Agrees result world.new world.old (λ x. load_named_step code.now name object (state_at world.old x)) }
    ensures only { OnlyReads world.old world.new }
{
    match object {
        Value::Ref(number) => match class_of(world, number) {
            Class::Object(class) => match code.position(name, class) {
                Some(at) => load(world, number, Spot::Field(at)),
                None => Err(Halt::Ended(Stop::Stuck)),
            },
            Class::Array(_) => {
                if name == 0 {
                    load(world, number, Spot::Length)
                } else {
                    Err(Halt::Ended(Stop::Stuck))
                }
            }
            _ => Err(Halt::Ended(Stop::Stuck)),
        },
        Value::Null => Err(Halt::Ended(Stop::Trapped(Kind::NullPointerException))),
        _ => Err(Halt::Ended(Stop::Stuck)),
    }
}

/// An index below a length.
#[inline(always)]
pub fn index_below(index: i64, length: usize) -> Option<u32>
    requires { length ≤ 2147483647 }
    ensures { result ≡ index_within index length }
{
    match u64::try_from(index) {
        Err(_) => None,
        Ok(at) => {
            if at < length as u64 {
                Some(at as u32)
            } else {
                None
            }
        }
    }
}

/// An element of an array that the run has made.
fn element_made(world: &World, object: Obj, number: u32, index: i64) -> Result<Value, Halt>
    requires made { object ≡ length world.now.candidates + number }
    requires array { IsArray (object_in world.now.made number).class }
    ensures { Agrees result world.now world.now (λ x. element_step (Reference object) (Int index) (state_at world.now x)) }
{
    match index_below(index, world.made.size_of(number)) {
        None => Err(Halt::Ended(Stop::Trapped(Kind::ArrayIndexOutOfBoundsException))),
        Some(at) => match world.made.read(number, Spot::Element(at)) {
            None => Err(Halt::Ended(Stop::Stuck)),
            Some(value) => Ok(value),
        },
    }
}

/// An element of a candidate: the length is read, and then the element.
fn element_candidate(world: &mut World, object: Obj, index: i64) -> Result<Value, Halt>
    requires candidate { object < length world.old.candidates }
    requires array { IsArray (object_in world.old.candidates object).class }
    ensures agrees { Agrees result world.new world.old (λ x. element_step (Reference object) (Int index) (state_at world.old x)) }
    ensures only { OnlyReads world.old world.new }
{
    world.reads.note(SlotPlace::At(object, Spot::Length))?;
    match index_below(index, world.candidates.size_of(object)) {
        None => Err(Halt::Ended(Stop::Trapped(Kind::ArrayIndexOutOfBoundsException))),
        Some(at) => match world.candidates.read(object, Spot::Element(at)) {
            None => Err(Halt::Ended(Stop::Stuck)),
            Some(value) => {
                world.reads.note(SlotPlace::At(object, Spot::Element(at)))?;
                Ok(value)
            }
        },
    }
}

/// An element of an array.
pub fn element(world: &mut World, array: Value, index: Value) -> Result<Value, Halt>
    ensures agrees { Agrees result world.new world.old (λ x. element_step array index (state_at world.old x)) }
    ensures only { OnlyReads world.old world.new }
{
    match (array, index) {
        (Value::Ref(object), Value::Int(at)) => match class_of(world, object) {
            Class::Array(_) => match made_number(world, object) {
                None => element_candidate(world, object, at),
                Some(number) => element_made(world, object, number, at),
            },
            _ => Err(Halt::Ended(Stop::Stuck)),
        },
        (Value::Null, Value::Int(_)) => {
            Err(Halt::Ended(Stop::Trapped(Kind::NullPointerException)))
        }
        _ => Err(Halt::Ended(Stop::Stuck)),
    }
}

/// Gives an object another value in one of its fields or elements.
fn put(world: &mut World, object: Obj, at: u32, value: Value) -> Result<(), Halt>
    ensures { Agrees result world.new world.old (λ x. record { said = Ok tt; after = record (state_at world.old x) { heap = put_step (candidates_of world.old.candidates x ++ world.old.made) object at value }; reads = [] }) }
{
    match made_number(world, object) {
        Some(number) => {
            world.made.write(number, at as usize, value);
            Ok(())
        }
        None => {
            world.is_frozen = false;
            world.candidates.write(object, at as usize, value);
            Ok(())
        }
    }
}

/// Such a step, which gives what is to be given.
fn put_and_give(
    world: &mut World,
    object: Obj,
    at: u32,
    value: Value,
    given: Value,
) -> Result<Value, Halt>
    ensures { Agrees result world.new world.old (λ x. record { said = Ok given; after = record (state_at world.old x) { heap = put_step (candidates_of world.old.candidates x ++ world.old.made) object at value }; reads = [] }) }
{
    match put(world, object, at, value) {
        Ok(()) => Ok(given),
        Err(halt) => Err(halt),
    }
}

/// Writes a field of an object, and gives what is to be given.
#[tactic(auto, unfolding(kr_mean::specs::Steps::bind))]
pub fn store(
    code: &Code,
    world: &mut World,
    field: FieldId,
    object: Value,
    value: Value,
    given: Value,
) -> Result<Value, Halt>
    ensures { Agrees result world.new world.old (λ x. bind (store_step code.now field object value) (λ u. give given) (state_at world.old x)) }
{
    match object {
        Value::Ref(number) => match code.spot(field, class_of(world, number)) {
            Some(at) => put_and_give(world, number, at, value, given),
            None => Err(Halt::Ended(Stop::Stuck)),
        },
        Value::Null => Err(Halt::Ended(Stop::Trapped(Kind::NullPointerException))),
        _ => Err(Halt::Ended(Stop::Stuck)),
    }
}

/// Writes a field of an object that is no candidate.
pub fn store_initial(
    code: &Code,
    world: &mut World,
    field: FieldId,
    object: Value,
    value: Value,
) -> Result<(), Halt>
    ensures { Agrees result world.new world.old (λ x. store_initial_step code.now field object value (state_at world.old x)) }
{
    match object {
        Value::Ref(number) => match made_number(world, number) {
            None => Err(Halt::Ended(Stop::Stuck)),
            Some(_) => match code.spot(field, class_of(world, number)) {
                Some(at) => put(world, number, at, value),
                None => Err(Halt::Ended(Stop::Stuck)),
            },
        },
        _ => Err(Halt::Ended(Stop::Stuck)),
    }
}

/// How many values an object has.
#[inline(always)]
fn size_of(world: &World, object: Obj) -> usize
    ensures is { result ≡ length (object_in (world.now.candidates ++ world.now.made) object).values }
    ensures few { result ≤ 2147483647 }
{
    match made_number(world, object) {
        None => world.candidates.size_of(object),
        Some(number) => world.made.size_of(number),
    }
}

/// Whether candidates are frozen still where an object is written.
#[inline(always)]
fn stays_frozen(world: &World, object: Obj) -> bool
    ensures frozen { result ≡ true → world.now.is_frozen ≡ true }
    ensures candidate { object < length world.now.candidates → result ≡ false }
{
    world.is_frozen && (object as usize) >= world.candidates.len()
}

/// Writes an element of an array, which thaws the candidates where it is one of them, also where there is no such element.
fn put_element(
    world: &mut World,
    object: Obj,
    index: i64,
    value: Value,
    given: Value,
) -> Result<Value, Halt>
    ensures { Agrees result world.new world.old (λ x. bind (store_index object (index_within index (length (object_in (candidates_of world.old.candidates x ++ world.old.made) object).values)) value) (λ u. give given) (state_at world.old x)) }
{
    world.is_frozen = stays_frozen(world, object);
    match index_below(index, size_of(world, object)) {
        None => Err(Halt::Ended(Stop::Trapped(Kind::ArrayIndexOutOfBoundsException))),
        Some(at) => put_and_give(world, object, at, value, given),
    }
}

/// Writes an element of an array of a type.
#[tactic(auto, unfolding(kr_mean::specs::Steps::bind))]
pub(crate) fn store_item(
    code: &Code,
    world: &mut World,
    class: TypeId,
    array: Value,
    index: Value,
    value: Value,
    given: Value,
) -> Result<Value, Halt>
    ensures { Agrees result world.new world.old (λ x. bind (store_item_step code.now class array index value) (λ u. give given) (state_at world.old x)) }
{
    match (array, index) {
        (Value::Ref(object), Value::Int(at)) => {
            if code.is_instance(class, class_of(world, object)) {
                put_element(world, object, at, value, given)
            } else {
                Err(Halt::Ended(Stop::Stuck))
            }
        }
        (Value::Null, Value::Int(_)) => {
            Err(Halt::Ended(Stop::Trapped(Kind::NullPointerException)))
        }
        _ => Err(Halt::Ended(Stop::Stuck)),
    }
}

/// Whether a value is an instance of a type.
#[tactic(auto, unfolding(kr_mean::specs::Steps::bind))]
pub(crate) fn instance(
    code: &Code,
    world: &World,
    class: TypeId,
    value: Value,
) -> Result<Value, Halt>
    ensures { Agrees result world.now world.now (λ x. bind (class_or_null value) (λ c. give (instance_of code.now class c)) (state_at world.now x)) }
{
    match value {
        Value::Ref(object) => Ok(Value::Bool(code.is_instance(class, class_of(world, object)))),
        Value::Null => Ok(Value::Bool(false)),
        _ => Err(Halt::Ended(Stop::Stuck)),
    }
}

/// A value that has to be of a type.
#[tactic(auto, unfolding(kr_mean::specs::Steps::bind))]
pub(crate) fn cast(code: &Code, world: &World, class: TypeId, value: Value) -> Result<Value, Halt>
    ensures { Agrees result world.now world.now (λ x. bind (class_or_null value) (cast_to code.now class value) (state_at world.now x)) }
{
    match value {
        Value::Ref(object) => {
            if code.is_instance(class, class_of(world, object)) {
                Ok(value)
            } else {
                Err(Halt::Ended(Stop::Trapped(Kind::ClassCastException)))
            }
        }
        Value::Null => Ok(value),
        _ => Err(Halt::Ended(Stop::Stuck)),
    }
}

/// A new object, array or collection, after all others.
fn allocate(world: &mut World, class: Class, values: Vec<Value>) -> Result<Value, Halt>
    requires { length values.items ≤ 2147483647 }
    ensures { Agrees result world.new world.old (λ x. make class values.items (state_at world.old x)) }
{
    let candidates = world.candidates.len();
    let Ok(count) = u32::try_from(candidates) else {
        return Err(Halt::Memory(world.candidates.at_limit()));
    };
    match world.made.allocate(class, values) {
        Err(why) => Err(Halt::Memory(why)),
        Ok(number) => match count.checked_add(number) {
            None => Err(Halt::Memory(world.made.at_limit_after(&world.candidates))),
            Some(object) => Ok(Value::Ref(object)),
        },
    }
}

/// The elements of a new array.
fn elements(alloc: Global, default: Value, length: usize) -> Result<Vec<Value>, NoMemory>
    ensures { IfOk result (λ values. values.items ≡ replicate length default) }
{
    Ok(vec![in alloc; default; length]?)
}

fn fresh_array(
    alloc: Global,
    world: &mut World,
    class: Option<u32>,
    default: Value,
    length: usize,
) -> Result<Value, Halt>
    requires { length ≤ 64 }
    ensures { Agrees result world.new world.old (λ x. new_array_step length class default (state_at world.old x)) }
{
    let Some(number) = class else {
        return Err(Halt::Ended(Stop::Stuck));
    };
    let values = elements(alloc, default, length)?;
    allocate(world, Class::Array(number), values)
}

/// A new array.
pub(crate) fn new_array(
    alloc: Global,
    world: &mut World,
    class: Option<u32>,
    default: Value,
    length: Value,
) -> Result<Value, Halt>
    ensures { Agrees result world.new world.old (λ x. array_of class default length (state_at world.old x)) }
{
    match length {
        Value::Int(number) => match u64::try_from(number) {
            Err(_) => Err(Halt::Ended(Stop::Trapped(Kind::NegativeArraySizeException))),
            Ok(count) => {
                if count > 64 {
                    return Err(Halt::Ended(Stop::Trapped(Kind::ArrayTooLong)));
                }
                fresh_array(alloc, world, class, default, count as usize)
            }
        },
        _ => Err(Halt::Ended(Stop::Stuck)),
    }
}

/// A new object of a class, whose fields are at their defaults.
pub fn new_object(
    alloc: Global,
    code: &Code,
    world: &mut World,
    class: ClassId,
    defaults: Nodes,
) -> Result<Value, Halt>
    ensures { Agrees result world.new world.old (λ x. make (Object class) (values_in code.now defaults) (state_at world.old x)) }
{
    let values = code.copy_values(alloc, defaults)?;
    if values.len() > 2147483647 {
        return Err(Halt::Memory(too_many(values.as_slice())));
    }
    allocate(world, Class::Object(class), values)
}

/// A new collection, or what else has no values.
pub fn new_collection(alloc: Global, world: &mut World, class: Class) -> Result<Value, Halt>
    ensures { Agrees result world.new world.old (λ x. make class [] (state_at world.old x)) }
{
    allocate(world, class, Vec::new(alloc))
}
