// The objects of a structure, and their locals.
ghost use Rattle.std.specs.Prelude.{◌≡◌, ◌==◌, ◌++◌, IfOk, OnOk};
ghost use Rattle.std.specs.List.{position_or_len};
ghost use Rattle.kr_emit.specs.Vocabulary.{contains_number, line_bytes, local_text, objects_in};
ghost use Rattle.kr_emit.specs.Makings.{HasReferred, IsAdded};

use crate::line::add_all;
use itoa::Buffer;
use kr_base::NoMemory;
use kr_text::Line;
use kr_value::{Obj, Value};
use std::alloc::Global;

/// The position of an object, or the number of objects.
fn position(objects: &[Obj], object: Obj) -> usize
    ensures { result ≡ position_or_len (λ m. m == object) objects.now }
{
    for at in 0..objects.len() {
        if objects[at] == object {
            return at;
        }
    }
    objects.len()
}

/// Whether an object is one of these.
fn is_among(objects: &[Obj], object: Obj) -> bool
    ensures { result ≡ contains_number objects.now object }
{
    for other in objects {
        if *other == object {
            return true;
        }
    }
    false
}

/// Adds an object, unless it is there.
fn add_object(objects: &mut Vec<Obj>, object: Obj) -> Result<(), NoMemory>
    ensures { OnOk result (IsAdded objects.old.items object objects.new.items) }
{
    if is_among(objects.as_slice(), object) {
        return Ok(());
    }
    objects.push(object)?;
    Ok(())
}

/// Adds the object that a value refers to, unless it is there.
fn add_referred(objects: &mut Vec<Obj>, value: Value) -> Result<(), NoMemory>
    ensures { OnOk result (HasReferred objects.old.items value objects.new.items) }
{
    match value {
        Value::Ref(object) => add_object(objects, object),
        Value::Int(_) => Ok(()),
        Value::Bool(_) => Ok(()),
        Value::Null => Ok(()),
    }
}

/// The objects of a structure, in the order in which it names them.
pub fn objects_in(alloc: Global, structure: &[(u32, Value)]) -> Result<Vec<Obj>, NoMemory>
    ensures { IfOk result (λ objects. objects.items ≡ objects_in structure.now) }
{
    let mut objects = Vec::new(alloc);
    for entry in structure {
        add_referred(&mut objects, entry.1)?;
    }
    Ok(objects)
}

/// Adds the local of an object.
pub(crate) fn add_local(line: &mut Line, objects: &[Obj], object: Obj) -> Result<(), NoMemory>
    ensures { OnOk result (line_bytes line.new ≡ line_bytes line.old ++ local_text objects.now object) }
{
    let mut buffer = Buffer::new();
    let number = buffer.format(position(objects, object)).as_bytes();
    add_all(line, &[b"o", number])
}
