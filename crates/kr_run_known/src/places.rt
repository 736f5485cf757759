// Locals, fields and elements whose values are known.
ghost use Rattle.std.specs.Prelude.{◌≡◌, ◌+◌, ◌<◌, [], true, IfSome, Some, length, option_map, slice_get, ◌∷◌};
ghost use Rattle.kr_value.specs.declared.value.Value.TheVariants.{Int, Ref as Reference};
ghost use Rattle.kr_value.specs.declared.object.Spot.TheVariants.{Length};
ghost use Rattle.kr_value.specs.Heaps.{object_in};
ghost use Rattle.kr_code.specs.Steps.{load_named};
ghost use Rattle.kr_mean.specs.Steps.{bind, collect as collect_step, element as element_step, load as load_step, place_reads, read_local};
ghost use Rattle.kr_mean.specs.Places.{Parameter};
ghost use Rattle.kr_mean.specs.Collections.{called_with, gives, is_collection};
ghost use Rattle.kr_value.specs.declared.object.Class.TheVariants.{List as ListClass, Set as SetClass};
ghost use Rattle.kr_run_state.specs.Noting.{noted_once};
ghost use Rattle.kr_code.specs.Collections.{name_of};
ghost use Rattle.kr_run_state.specs.Worlds.{IsArray, is_fixed};
ghost use Rattle.kr_run_known.specs.Knowing.{Shows};

use kr_code::{Code, CollectionCall};
use kr_coll::has_member;
use kr_run_state::{Local, World, class_of, index_below, made_number, size_value};
use kr_value::{Class, Obj, SlotPlace, Spot, Value};

#[inline(always)]
fn found_in(locals: &Vec<Local>, local: u32) -> Option<Local>
    ensures { result ≡ slice_get locals.now.items local }
{
    locals.get(local as usize).copied()
}

/// Whether a parameter that a candidate gives was read.
#[inline(never)]
fn was_asked(world: &World, number: u32) -> bool
    ensures { result ≡ true → noted_once world.now.reads (place_reads (Some (Parameter number))) ≡ world.now.reads }
{
    world.reads.contains(SlotPlace::Parameter(number))
}

/// Whether a local is no parameter that a candidate gives, or one that was read.
#[inline(always)]
fn is_free(world: &World, parameter: Option<u32>) -> bool
    ensures { result ≡ true → noted_once world.now.reads (place_reads (option_map Parameter parameter)) ≡ world.now.reads }
{
    match parameter {
        None => true,
        Some(number) => was_asked(world, number),
    }
}

/// A local that no candidate gives, or that was read.
#[inline(always)]
pub(crate) fn local(world: &World, local: u32) -> Option<Value>
    ensures { IfSome result (λ v. Shows world.now v (read_local local)) }
{
    match found_in(&world.locals, local) {
        None => None,
        Some(found) => {
            if is_free(world, found.parameter) {
                Some(found.value)
            } else {
                None
            }
        }
    }
}

/// A field or the length of a candidate, that was read.
#[inline(always)]
fn told(world: &World, object: Obj, spot: Spot) -> Option<Value>
    requires candidate { object < length world.now.candidates }
    requires fixed { is_fixed spot ≡ true }
    ensures { IfSome result (λ v. Shows world.now v (load_step (Reference object) spot)) }
{
    if !world.reads.contains(SlotPlace::At(object, spot)) {
        return None;
    }
    world.candidates.read(object, spot)
}

/// A field or the length of what the run has made.
#[inline(always)]
fn made(world: &World, object: Obj, number: u32, spot: Spot) -> Option<Value>
    requires { object ≡ length world.now.candidates + number }
    ensures { IfSome result (λ v. Shows world.now v (load_step (Reference object) spot)) }
{
    world.made.read(number, spot)
}

/// A field, or an array's length.
#[inline(always)]
fn loaded(world: &World, object: Obj, spot: Spot) -> Option<Value>
    requires { is_fixed spot ≡ true }
    ensures { IfSome result (λ v. Shows world.now v (load_step (Reference object) spot)) }
{
    match made_number(world, object) {
        None => told(world, object, spot),
        Some(number) => made(world, object, number, spot),
    }
}

/// An array's length. It is no part of the code of fields, which stands in each place that looks for a value.
#[inline(never)]
fn array_length(world: &World, object: Obj) -> Option<Value>
    ensures { IfSome result (λ v. Shows world.now v (load_step (Reference object) Length)) }
{
    loaded(world, object, Spot::Length)
}

/// The field of a name, or an array's length.
#[inline(always)]
#[tactic(auto, unfolding(kr_mean::specs::Steps::bind))]
pub fn field(code: &Code, world: &World, name: u32, object: Value) -> Option<Value>
    ensures { IfSome result (λ v. Shows world.now v (load_named code.now name object)) }
{
    match object {
        Value::Ref(number) => match class_of(world, number) {
            Class::Object(class) => match code.position(name, class) {
                Some(at) => loaded(world, number, Spot::Field(at)),
                None => None,
            },
            Class::Array(_) => {
                if name == 0 {
                    array_length(world, number)
                } else {
                    None
                }
            }
            _ => None,
        },
        _ => None,
    }
}

/// An element of a candidate, whose length and which itself was read.
fn element_told(world: &World, object: Obj, index: i64) -> Option<Value>
    requires candidate { object < length world.now.candidates }
    requires array { IsArray (object_in world.now.candidates object).class }
    ensures { IfSome result (λ v. Shows world.now v (element_step (Reference object) (Int index))) }
{
    match index_below(index, world.candidates.size_of(object)) {
        None => None,
        Some(at) => {
            if !world
                .reads
                .contains(SlotPlace::At(object, Spot::Element(at)))
            {
                return None;
            }
            if !world.reads.contains(SlotPlace::At(object, Spot::Length)) {
                return None;
            }
            world.candidates.read(object, Spot::Element(at))
        }
    }
}

/// An element of an array that the run has made.
fn element_made(world: &World, object: Obj, number: u32, index: i64) -> Option<Value>
    requires made { object ≡ length world.now.candidates + number }
    requires array { IsArray (object_in world.now.made number).class }
    ensures { IfSome result (λ v. Shows world.now v (element_step (Reference object) (Int index))) }
{
    match index_below(index, world.made.size_of(number)) {
        None => None,
        Some(at) => world.made.read(number, Spot::Element(at)),
    }
}

/// An element of an array.
pub(crate) fn element(world: &World, array: Value, index: Value) -> Option<Value>
    ensures { IfSome result (λ v. Shows world.now v (element_step array index)) }
{
    match (array, index) {
        (Value::Ref(object), Value::Int(at)) => match class_of(world, object) {
            Class::Array(_) => match made_number(world, object) {
                None => element_told(world, object, at),
                Some(number) => element_made(world, object, number, at),
            },
            _ => None,
        },
        _ => None,
    }
}

/// How many members a collection has, or whether it has none.
#[inline(always)]
fn asked_of(world: &World, call: CollectionCall, object: Obj, number: u32) -> Option<Value>
    requires made { object ≡ length world.now.candidates + number }
    requires collection { is_collection (object_in world.now.made number).class ≡ true }
    ensures { IfSome result (λ v. Shows world.now v (collect_step (name_of call) (Reference object) [])) }
{
    match call {
        CollectionCall::IsEmpty => Some(Value::Bool(world.made.size_of(number) == 0)),
        CollectionCall::Size => Some(size_value(world.made.size_of(number))),
        _ => None,
    }
}

/// A question about what the run has made.
#[inline(always)]
fn asked_made(world: &World, call: CollectionCall, object: Obj, number: u32) -> Option<Value>
    requires { object ≡ length world.now.candidates + number }
    ensures { IfSome result (λ v. Shows world.now v (collect_step (name_of call) (Reference object) [])) }
{
    match world.made.class_of(number) {
        Class::Set => asked_of(world, call, object, number),
        Class::List => asked_of(world, call, object, number),
        Class::Object(_) => None,
        Class::Array(_) => None,
    }
}

/// Such a question about a collection.
#[inline(always)]
pub(crate) fn asked(world: &World, call: CollectionCall, object: Value) -> Option<Value>
    ensures { IfSome result (λ v. Shows world.now v (collect_step (name_of call) object [])) }
{
    match object {
        Value::Ref(number) => match made_number(world, number) {
            None => None,
            Some(made) => asked_made(world, call, number, made),
        },
        _ => None,
    }
}

/// Whether a set has a member, or what adding again a member that it has gives.
#[inline(always)]
fn set_asked(members: &[Value], call: CollectionCall, member: Value) -> Option<Value>
    ensures { IfSome result (λ v. called_with SetClass (name_of call) member members.now ≡ gives v members.now) }
{
    match call {
        CollectionCall::Contains => Some(Value::Bool(has_member(members, member))),
        CollectionCall::Add => {
            if has_member(members, member) {
                Some(Value::Bool(false))
            } else {
                None
            }
        }
        _ => None,
    }
}

/// Whether a list has a member.
#[inline(always)]
fn list_asked(members: &[Value], call: CollectionCall, argument: Value) -> Option<Value>
    ensures { IfSome result (λ v. called_with ListClass (name_of call) argument members.now ≡ gives v members.now) }
{
    match call {
        CollectionCall::Contains => Some(Value::Bool(has_member(members, argument))),
        _ => None,
    }
}

/// A call with an argument on what the run has made, where it changes nothing.
#[inline(always)]
fn asked_made_with(
    world: &World,
    call: CollectionCall,
    object: Obj,
    number: u32,
    argument: Value,
) -> Option<Value>
    requires { object ≡ length world.now.candidates + number }
    ensures { IfSome result (λ v. Shows world.now v (collect_step (name_of call) (Reference object) (argument ∷ []))) }
{
    if (number as usize) >= world.made.len() {
        return None;
    }
    match world.made.class_of(number) {
        Class::Set => set_asked(world.made.members(number), call, argument),
        Class::List => list_asked(world.made.members(number), call, argument),
        Class::Object(_) => None,
        Class::Array(_) => None,
    }
}

/// Such a call on a collection.
#[inline(always)]
pub(crate) fn asked_with(
    world: &World,
    call: CollectionCall,
    object: Value,
    argument: Value,
) -> Option<Value>
    ensures { IfSome result (λ v. Shows world.now v (collect_step (name_of call) object (argument ∷ []))) }
{
    match object {
        Value::Ref(number) => match made_number(world, number) {
            None => None,
            Some(made) => asked_made_with(world, call, number, made, argument),
        },
        _ => None,
    }
}
