// The creation of a structure's objects.
ghost use Rattle.std.specs.Prelude.{◌≡◌, ◌++◌, [], OnOk, codes, flat_map};
ghost use Rattle.kr_emit.specs.Vocabulary.{array_elements, bare, class_of_object, class_text, created_text, creation_text, declared_text, element_text, IsPosed, length_at, length_text, line_bytes, local_text, place_of, posed, slot_at};
ghost use Rattle.kr_emit.specs.Makings.{head_text};
ghost use Rattle.kr_emit.specs.TypeNames.{type_name};

use crate::line::{add_all, add_number};
use crate::objects::add_local;
use crate::types::{TypeName, class_name, element_name};
use kr_base::NoMemory;
use kr_classes_table::ClassId;
use kr_report_rows::{class_of, numbered, place_of};
use kr_space_layout::Layout;
use kr_space_problem::Problem;
use kr_text::Line;
use kr_value::{Class, Obj, SlotPlace, Spot, Value};

/// The class of an object.
pub(crate) fn class_of_object(layout: &Layout, object: Obj) -> Class
    ensures { result ≡ class_of_object (bare layout.now) object }
{
    class_of(layout, numbered(layout, object).domain)
}

/// Adds the value at a place, if that is an array's length.
fn add_length_at(
    line: &mut Line,
    object: Obj,
    value: Value,
    place: SlotPlace,
) -> Result<(), NoMemory>
    ensures { OnOk result (line_bytes line.new ≡ line_bytes line.old ++ length_at object value (place_of place)) }
{
    match (value, place) {
        (Value::Int(number), SlotPlace::At(owner, Spot::Length)) => {
            if owner == object {
                add_number(line, number)
            } else {
                Ok(())
            }
        }
        _ => Ok(()),
    }
}

/// Adds an array's length.
fn add_length(
    line: &mut Line,
    layout: &Layout,
    structure: &[(u32, Value)],
    object: Obj,
) -> Result<(), NoMemory>
    ensures { OnOk result (line_bytes line.new ≡ line_bytes line.old ++ length_text (bare layout.now) structure.now object) }
{
    for entry in structure {
        add_length_at(line, object, entry.1, place_of(layout, entry.0))?;
    }
    Ok(())
}

/// Adds `T name = new T`, where brackets come after the first T.
fn add_head<'t>(
    line: &mut Line,
    kind: TypeName<'t>,
    brackets: &'t [u8],
    objects: &[Obj],
    object: Obj,
) -> Result<(), NoMemory>
    ensures { OnOk result (line_bytes line.new ≡ line_bytes line.old ++ head_text (type_name kind.entry) brackets.now (local_text objects.now object)) }
{
    let TypeName { outer, dot, name } = kind;
    add_all(line, &[b"    ", outer, dot, name, brackets, b" "])?;
    add_local(line, objects, object)?;
    add_all(line, &[b" = new ", outer, dot, name])
}

/// Adds the creation of an object of a class.
fn add_new_object(
    line: &mut Line,
    problem: &Problem,
    objects: &[Obj],
    object: Obj,
    class: ClassId,
) -> Result<(), NoMemory>
    requires { IsPosed problem.now }
    ensures { OnOk result (line_bytes line.new ≡ line_bytes line.old ++ declared_text (class_text (posed problem.now).program.table.headings class) [] (local_text objects.now object) (codes "()")) }
{
    add_head(line, class_name(problem, class), b"", objects, object)?;
    line.add(b"();\n")
}

/// Adds the creation of an array with its length.
fn add_new_array(
    line: &mut Line,
    problem: &Problem,
    structure: &[(u32, Value)],
    objects: &[Obj],
    object: Obj,
    number: u32,
) -> Result<(), NoMemory>
    requires { IsPosed problem.now }
    ensures { OnOk result (line_bytes line.new ≡ line_bytes line.old ++ declared_text (element_text (posed problem.now).program.table.headings (array_elements (posed problem.now).program number)) (codes "[]") (local_text objects.now object) (codes "[" ++ length_text (bare problem.now.layout) structure.now object ++ codes "]")) }
{
    add_head(line, element_name(problem, number), b"[]", objects, object)?;
    line.add(b"[")?;
    add_length(line, &problem.layout, structure, object)?;
    line.add(b"];\n")
}

/// Adds the creation of an object, or of an array with its length.
fn add_created(
    line: &mut Line,
    problem: &Problem,
    structure: &[(u32, Value)],
    objects: &[Obj],
    object: Obj,
    class: Class,
) -> Result<(), NoMemory>
    requires { IsPosed problem.now }
    ensures { OnOk result (line_bytes line.new ≡ line_bytes line.old ++ created_text (posed problem.now).program (local_text objects.now object) (length_text (bare problem.now.layout) structure.now object) class) }
{
    match class {
        Class::Object(number) => add_new_object(line, problem, objects, object, number),
        Class::Array(number) => add_new_array(line, problem, structure, objects, object, number),
        Class::Set => Ok(()),
        Class::List => Ok(()),
    }
}

/// Adds the creation of each object.
pub(crate) fn add_creations(
    line: &mut Line,
    problem: &Problem,
    structure: &[(u32, Value)],
    objects: &[Obj],
) -> Result<(), NoMemory>
    requires { IsPosed problem.now }
    ensures { OnOk result (line_bytes line.new ≡ line_bytes line.old ++ flat_map (creation_text (posed problem.now) structure.now objects.now) objects.now) }
{
    for object in objects {
        let class = class_of_object(&problem.layout, *object);
        add_created(line, problem, structure, objects, *object, class)?;
    }
    Ok(())
}
