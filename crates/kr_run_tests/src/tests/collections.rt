// Sets and lists, worked by hand.
ghost use Rattle.std.specs.Prelude.{◌≡◌, OnOk};
ghost use Rattle.kr_coll.specs.Identities.{with_member};

use kr_base::NoMemory;
use kr_coll::{ListObj, SetObj, has_member};
use kr_heap::Members;
use kr_value::Value;
use std::test::Fail;

// The world that was lent is returned, changed.
fn add_to(members: &mut Members, member: Value) -> Result<bool, NoMemory>
    ensures { OnOk result (members.new ≡ with_member member members.old) }
{
    SetObj::of(members).add(member)
}

/// Whether an object is the one member of what was empty.
fn is_alone(members: &mut Members) -> Result<bool, NoMemory> {
    let empty = SetObj::of(members).is_empty();
    let added = add_to(members, Value::Ref(3))?;
    let all = members.as_slice();
    Ok(
        empty
            && added
            && all.len() == 1
            && has_member(all, Value::Ref(3))
            && !has_member(all, Value::Ref(4))
            && !has_member(all, Value::Null),
    )
}

/// Whether null is the one member at last.
fn is_null_left(members: &mut Members) -> Result<bool, NoMemory> {
    let mut set = SetObj::of(members);
    let added = set.add(Value::Null)?;
    let again = set.add(Value::Ref(3))?;
    let contained = set.contains(Value::Null);
    let removed = set.remove(Value::Ref(3));
    let gone = set.remove(Value::Ref(3));
    Ok(added && !again && contained && removed && !gone && set.size() == 1)
}

#[test]
fn sets(rt: HostRuntime) -> Result<(), Fail> {
    let mut members = Members::new(rt.alloc());
    assert!(rt; matches!(&is_alone(&mut members), Ok(true)));
    assert!(rt; matches!(&is_null_left(&mut members), Ok(true)));
    Ok(())
}

/// Adds members to a list, one of them twice.
fn push_all(members: &mut Members) -> Result<bool, NoMemory> {
    let mut list = ListObj::of(members);
    let mut added = true;
    for member in [Value::Ref(1), Value::Null, Value::Ref(1), Value::Ref(2)] {
        added = list.add(member)? && added;
    }
    Ok(added && list.contains(Value::Null))
}

/// Whether the first of two members that are the same goes, and then the others in their order.
fn goes_in_order(members: &mut Members) -> bool {
    let mut list = ListObj::of(members);
    let removed = list.remove(Value::Ref(1));
    let first = list.remove_first() == Some(Value::Null);
    let second = list.remove_first() == Some(Value::Ref(1));
    let left = list.size() == 1;
    let absent = list.remove(Value::Ref(7));
    let third = list.remove_first() == Some(Value::Ref(2));
    let none = list.remove_first() == None;
    removed && first && second && left && !absent && third && none && list.is_empty()
}

#[test]
fn lists(rt: HostRuntime) -> Result<(), Fail> {
    let mut members = Members::new(rt.alloc());
    assert!(rt; matches!(&push_all(&mut members), Ok(true)));
    assert!(rt; goes_in_order(&mut members));
    Ok(())
}
