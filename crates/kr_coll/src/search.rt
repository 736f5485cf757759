// Members that are the same as a value.
ghost use Rattle.std.specs.Prelude.{◌≡◌, MatchOption};
ghost use Rattle.std.specs.List.{position};
ghost use Rattle.kr_mean.specs.Collections.{has_member as is_member, is_same_value, without};
ghost use Rattle.kr_value.specs.declared.value.Value.TheVariants.{Ref as Reference};
ghost use Rattle.kr_coll.specs.Positions.{IsAbsent, IsFirstAt};

use kr_heap::Members;
use kr_value::{Obj, Value};

/// Whether two values are the same.
fn is_same(a: Value, b: Value) -> bool
    ensures { result ≡ is_same_value a b }
{
    match (a, b) {
        (Value::Ref(object), Value::Ref(other)) => object == other,
        (Value::Int(number), Value::Int(other)) => number == other,
        (Value::Bool(true), Value::Bool(truth)) => truth,
        (Value::Bool(false), Value::Bool(truth)) => !truth,
        (Value::Null, Value::Null) => true,
        _ => false,
    }
}

/// Whether a value is this object.
#[inline(always)]
fn is_object(value: &Value, object: Obj) -> bool
    ensures { result ≡ is_same_value value.now (Reference object) }
{
    match value {
        Value::Ref(other) => *other == object,
        _ => false,
    }
}

/// The position of the first member that is this object.
#[inline(always)]
fn object_position(members: &[Value], object: Obj) -> Option<usize>
    ensures { result ≡ position (λ x. is_same_value x (Reference object)) members.now }
{
    members.iter().position(|other| is_object(other, object))
}

/// The position of the first member that is the same value.
fn value_position(members: &[Value], member: Value) -> Option<usize>
    ensures { result ≡ position (λ x. is_same_value x member) members.now }
{
    members.iter().position(|other| is_same(*other, member))
}

/// The position of the first equal member; most members are objects, and their numbers alone distinguish them.
#[inline(always)]
fn first_position(members: &[Value], member: Value) -> Option<usize>
    ensures { result ≡ position (λ x. is_same_value x member) members.now }
{
    match member {
        Value::Ref(object) => object_position(members, object),
        _ => value_position(members, member),
    }
}

/// The position of the first equal member.
pub(crate) fn position_of(members: &[Value], member: Value) -> Option<usize>
    ensures { MatchOption result (IsAbsent members.now member) (λ at. IsFirstAt members.now member at) }
{
    first_position(members, member)
}

/// Whether a value is a member.
#[inline(always)]
pub fn has_member(members: &[Value], member: Value) -> bool
    ensures { result ≡ is_member member members.now }
{
    position_of(members, member).is_some()
}

/// Removes the first member that is the same, and reports whether there was one.
#[inline(always)]
pub(crate) fn remove_member(members: &mut Members, member: Value) -> bool
    ensures answer { result ≡ is_member member members.old }
    ensures removed { members.new ≡ without member members.old }
{
    match position_of(members.as_slice(), member) {
        None => false,
        Some(at) => {
            members.remove(at);
            true
        }
    }
}
