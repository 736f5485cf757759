// A heap, worked by hand.
ghost use Rattle.std.specs.Prelude.{◌≡◌, []};

use kr_base::NoMemory;
use kr_heap::{Heap, Members};
use kr_value::{Class, Spot, Value};
use std::alloc::Global;
use std::test::Fail;

/// Adds an object of two fields and an array of two elements.
fn push_two(alloc: Global, heap: &mut Heap) -> Result<bool, NoMemory> {
    let node = vec![in alloc; Value::Null, Value::Int(7)]?;
    let first = heap.allocate(Class::Object(2), node)?;
    let array = vec![in alloc; Value::Int(1), Value::Int(2)]?;
    let second = heap.allocate(Class::Array(0), array)?;
    Ok(first == 0 && second == 1)
}

/// Writes to both, and adds an element.
fn write_both(heap: &mut Heap) -> Result<(), NoMemory> {
    heap.write(0, 0, Value::Ref(1));
    heap.write(1, 1, Value::Int(5));
    heap.push_value(1, Value::Int(6))?;
    Ok(())
}

/// Whether both have what was written.
fn has_both(heap: &Heap) -> bool {
    heap.len() == 2
        && heap.class_of(1) == Class::Array(0)
        && heap.size_of(1) == 3
        && heap.read(0, Spot::Field(0)) == Some(Value::Ref(1))
        && heap.read(0, Spot::Field(2)) == None
        && heap.read(1, Spot::Length) == Some(Value::Int(3))
        && heap.read(1, Spot::Element(1)) == Some(Value::Int(5))
        && heap.read(1, Spot::Element(2)) == Some(Value::Int(6))
}

/// Whether the array is cut to one element, and then away.
fn is_cut(heap: &mut Heap) -> bool {
    heap.truncate_values(1, 1);
    let shorter = heap.read(1, Spot::Length) == Some(Value::Int(1));
    heap.truncate(1);
    shorter && heap.len() == 1 && heap.class_of(1) == Class::Object(0)
}

fn holds_objects(alloc: Global, heap: &mut Heap) -> Result<bool, NoMemory> {
    let numbered = push_two(alloc, heap)?;
    write_both(heap)?;
    Ok(numbered && has_both(heap) && is_cut(heap))
}

#[test]
fn objects(rt: HostRuntime) -> Result<(), Fail> {
    let mut heap = Heap::new(rt.alloc());
    assert!(rt; matches!(&holds_objects(rt.alloc(), &mut heap), Ok(true)));
    Ok(())
}

/// Adds members, takes them away and changes them: one is left.
fn changes(members: &mut Members) -> Result<bool, NoMemory>
    requires { members.old ≡ [] }
{
    members.push(Value::Ref(0))?;
    members.push(Value::Ref(1))?;
    members.push(Value::Ref(2))?;
    members.push(Value::Ref(3))?;
    members.push(Value::Ref(4))?;
    let first = members.pop_first() == Some(Value::Ref(0));
    members.set(0, Value::Null);
    members.remove(1);
    let second = members.get(1) == Some(Value::Ref(3));
    members.truncate(1);
    Ok(first && second && members.get(1) == None)
}

fn holds_members(alloc: Global, heap: &mut Heap) -> Result<bool, NoMemory>
    requires { heap.old ≡ [] }
{
    let list = heap.allocate(Class::List, Vec::new(alloc))?;
    let changed = changes(heap.members_mut(list))?;
    Ok(changed && heap.members(list).len() == 1 && heap.read(list, Spot::Length) == None)
}

#[test]
fn members(rt: HostRuntime) -> Result<(), Fail> {
    let mut heap = Heap::new(rt.alloc());
    assert!(rt; matches!(&holds_members(rt.alloc(), &mut heap), Ok(true)));
    Ok(())
}
