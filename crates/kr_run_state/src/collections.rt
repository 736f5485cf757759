// Calls on collections.
ghost use Rattle.std.specs.Prelude.{◌≡◌, ◌<◌, ◌+◌, pos, min, length};
ghost use Rattle.kr_value.specs.declared.value.Value.TheVariants.{Int, Ref as Reference};
ghost use Rattle.kr_value.specs.declared.object.Class.TheVariants.{Set, List as ListClass};
ghost use Rattle.kr_mean.specs.Collections.{called_with, called_alone, collected};
ghost use Rattle.kr_mean.specs.Steps.{collect as collect_step};
ghost use Rattle.kr_code.specs.Collections.{name_of};
ghost use Rattle.kr_run_state.specs.Collecting.{Collects};
ghost use Rattle.kr_run_state.specs.Worlds.{state_at, Agrees};

use crate::memory::made_number;
use crate::{Halt, World};
use kr_code::CollectionCall;
use kr_coll::{ListObj, SetObj};
use kr_heap::Members;
use kr_mean::{Kind, Stop};
use kr_value::{Class, Obj, Value};

/// A size, which is at most the greatest int.
#[inline(always)]
pub fn size_value(size: usize) -> Value
    ensures { result ≡ Int (pos (min size 2147483647)) }
{
    Value::Int(size.min(2147483647) as i64)
}

/// A call on a set, with an argument.
#[inline(always)]
#[tactic(auto, using(crate::proofs::Members::set_adds))]
fn set_with(members: &mut Members, call: CollectionCall, member: Value) -> Result<Value, Halt>
    ensures { Collects result members.old members.new (called_with Set (name_of call) member members.old) }
{
    let mut set = SetObj::of(members);
    match call {
        CollectionCall::Add => match set.add(member) {
            Ok(added) => Ok(Value::Bool(added)),
            Err(why) => Err(Halt::Memory(why)),
        },
        CollectionCall::Contains => Ok(Value::Bool(set.contains(member))),
        CollectionCall::Remove => Ok(Value::Bool(set.remove(member))),
        _ => Err(Halt::Ended(Stop::Stuck)),
    }
}

/// A call on a list, with an argument.
#[inline(always)]
fn list_with(members: &mut Members, call: CollectionCall, member: Value) -> Result<Value, Halt>
    ensures { Collects result members.old members.new (called_with ListClass (name_of call) member members.old) }
{
    let mut list = ListObj::of(members);
    match call {
        CollectionCall::Add => match list.add(member) {
            Ok(added) => Ok(Value::Bool(added)),
            Err(why) => Err(Halt::Memory(why)),
        },
        CollectionCall::Contains => Ok(Value::Bool(list.contains(member))),
        CollectionCall::Remove => Ok(Value::Bool(list.remove(member))),
        _ => Err(Halt::Ended(Stop::Stuck)),
    }
}

/// A call on a set, without arguments.
#[inline(always)]
#[tactic(auto, using(crate::proofs::Members::empty_is))]
fn set_alone(members: &mut Members, call: CollectionCall) -> Result<Value, Halt>
    ensures { Collects result members.old members.new (called_alone Set (name_of call) members.old) }
{
    let set = SetObj::of(members);
    match call {
        CollectionCall::Size => Ok(size_value(set.size())),
        CollectionCall::IsEmpty => Ok(Value::Bool(set.is_empty())),
        _ => Err(Halt::Ended(Stop::Stuck)),
    }
}

/// A call on a list, without arguments.
#[inline(always)]
#[tactic(auto, using(crate::proofs::Members::empty_is))]
fn list_alone(members: &mut Members, call: CollectionCall) -> Result<Value, Halt>
    ensures { Collects result members.old members.new (called_alone ListClass (name_of call) members.old) }
{
    let mut list = ListObj::of(members);
    match call {
        CollectionCall::Size => Ok(size_value(list.size())),
        CollectionCall::IsEmpty => Ok(Value::Bool(list.is_empty())),
        CollectionCall::RemoveFirst => match list.remove_first() {
            Some(first) => Ok(first),
            None => Err(Halt::Ended(Stop::Trapped(Kind::NoSuchElementException))),
        },
        _ => Err(Halt::Ended(Stop::Stuck)),
    }
}

/// A call on a set.
#[inline(always)]
fn set_call(members: &mut Members, call: CollectionCall, arguments: &[Value]) -> Result<Value, Halt>
    ensures { Collects result members.old members.new (collected Set (name_of call) arguments.now members.old) }
{
    match arguments.split_first() {
        None => set_alone(members, call),
        Some((argument, others)) => match others.split_first() {
            None => set_with(members, call, *argument),
            Some(_) => Err(Halt::Ended(Stop::Stuck)),
        },
    }
}

/// A call on a list.
#[inline(always)]
fn list_call(
    members: &mut Members,
    call: CollectionCall,
    arguments: &[Value],
) -> Result<Value, Halt>
    ensures { Collects result members.old members.new (collected ListClass (name_of call) arguments.now members.old) }
{
    match arguments.split_first() {
        None => list_alone(members, call),
        Some((argument, others)) => match others.split_first() {
            None => list_with(members, call, *argument),
            Some(_) => Err(Halt::Ended(Stop::Stuck)),
        },
    }
}

/// A call on what has members, where it is a collection.
#[inline(always)]
fn call_on(
    members: &mut Members,
    class: Class,
    call: CollectionCall,
    arguments: &[Value],
) -> Result<Value, Halt>
    ensures { Collects result members.old members.new (collected class (name_of call) arguments.now members.old) }
{
    match class {
        Class::Set => set_call(members, call, arguments),
        Class::List => list_call(members, call, arguments),
        _ => Err(Halt::Ended(Stop::Stuck)),
    }
}

/// A call on a collection that the run has made.
#[inline(always)]
fn collect_made(
    world: &mut World,
    call: CollectionCall,
    object: Obj,
    number: Obj,
    arguments: &[Value],
) -> Result<Value, Halt>
    requires { object ≡ length world.old.candidates + number }
    ensures { Agrees result world.new world.old (λ x. collect_step (name_of call) (Reference object) arguments.now (state_at world.old x)) }
{
    if (number as usize) >= world.made.len() {
        return Err(Halt::Ended(Stop::Stuck));
    }
    let class = world.made.class_of(number);
    let members = world.made.members_mut(number);
    return call_on(members, class, call, arguments);
}

/// A call on a candidate, where it is a collection.
fn collect_candidate(
    world: &mut World,
    call: CollectionCall,
    object: Obj,
    arguments: &[Value],
) -> Result<Value, Halt>
    requires { object < length world.old.candidates }
    ensures { Agrees result world.new world.old (λ x. collect_step (name_of call) (Reference object) arguments.now (state_at world.old x)) }
{
    world.is_frozen = false;
    let class = world.candidates.class_of(object);
    let members = world.candidates.members_mut(object);
    return call_on(members, class, call, arguments);
}

/// A call on a collection.
pub fn collect(
    world: &mut World,
    call: CollectionCall,
    object: Value,
    arguments: &[Value],
) -> Result<Value, Halt>
    ensures { Agrees result world.new world.old (λ x. collect_step (name_of call) object arguments.now (state_at world.old x)) }
{
    match object {
        Value::Ref(number) => match made_number(world, number) {
            None => collect_candidate(world, call, number, arguments),
            Some(made) => collect_made(world, call, number, made, arguments),
        },
        Value::Null => Err(Halt::Ended(Stop::Trapped(Kind::NullPointerException))),
        _ => Err(Halt::Ended(Stop::Stuck)),
    }
}
