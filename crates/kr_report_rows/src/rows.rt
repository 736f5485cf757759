// Structures and rows, put into a sink.
ghost use Rattle.std.specs.Prelude.{◌≡◌, ◌||◌, ◌∷◌, [], IfOk, codes, map, option_to_list};
ghost use Rattle.kr_report_rows.specs.Parts.{class_in, object_named};
ghost use Rattle.kr_report_rows.specs.Vocabulary.{are_any, bare, joined_by, object_of, object_text, objects_named, posed, problem_with, row_text, separated, structure_text, Writes};

use crate::front::row_front;
use crate::names::method_under_test;
use crate::objects::named_by;
use crate::parameters::put_parameters;
use crate::parts::put_object;
use crate::places::class_of;
use crate::values::put_between;
use kr_base::{Failed, Sink, put_all};
use kr_classes_table::ClassId;
use kr_iso::Object;
use kr_judge_prepared::Prepared;
use kr_mean::{Row, Structure};
use kr_space_layout::Layout;
use kr_value::{Class, Value};

/// The number of a class, if it is one's.
fn class_in(class: Class) -> Option<ClassId>
    ensures { result ≡ class_in class }
{
    match class {
        Class::Object(number) => Some(number),
        Class::Array(_) => None,
        Class::Set => None,
        Class::List => None,
    }
}

/// Writes an object that has no fields, with what a structure has of it.
fn put_unnamed<K: Sink>(
    layout: &Layout,
    structure: &[(u32, Value)],
    object: Object,
    out: &mut K,
) -> Result<(), Failed>
    ensures { Writes K.taken K.faults out.old out.new (object_named (bare layout.now) [] structure.now (object_of object)) result }
{
    put_object(&[], &[], layout, structure, object, out)
}

/// Writes an object, with what a structure has of it.
fn put_structured<K: Sink>(
    prepared: &Prepared,
    layout: &Layout,
    structure: &[(u32, Value)],
    object: Object,
    out: &mut K,
) -> Result<(), Failed>
    requires laid { posed prepared.now.problem ≡ problem_with (posed prepared.now.problem).program layout.now }
    ensures { Writes K.taken K.faults out.old out.new (object_text (posed prepared.now.problem) structure.now (object_of object)) result }
{
    let trees = prepared.problem().program.trees.as_slice();
    match class_in(class_of(layout, object.domain)) {
        None => put_unnamed(layout, structure, object, out),
        Some(class) => {
            let fields = prepared.fields(class);
            put_object(trees, fields, layout, structure, object, out)
        }
    }
}

/// Writes an object, where others may be before it.
fn put_next<K: Sink>(
    prepared: &Prepared,
    layout: &Layout,
    structure: &[(u32, Value)],
    object: Object,
    any: bool,
    out: &mut K,
) -> Result<(), Failed>
    requires laid { posed prepared.now.problem ≡ problem_with (posed prepared.now.problem).program layout.now }
    ensures { Writes K.taken K.faults out.old out.new (separated (codes " ") any (object_text (posed prepared.now.problem) structure.now (object_of object) ∷ [])) result }
{
    put_between(b" ", any, out)?;
    put_structured(prepared, layout, structure, object, out)
}

/// Writes an object that a structure names, where others may be before it. Returns whether something is written by now.
fn put_named<K: Sink>(
    prepared: &Prepared,
    layout: &Layout,
    structure: &[(u32, Value)],
    named: Option<Object>,
    any: bool,
    out: &mut K,
) -> Result<bool, Failed>
    requires laid { posed prepared.now.problem ≡ problem_with (posed prepared.now.problem).program layout.now }
    ensures text { Writes K.taken K.faults out.old out.new (separated (codes " ") any (map (object_text (posed prepared.now.problem) structure.now) (map object_of (option_to_list named)))) result }
    ensures any { IfOk result (λ now. now ≡ (any || are_any (map (object_text (posed prepared.now.problem) structure.now) (map object_of (option_to_list named))))) }
{
    match named {
        None => Ok(any),
        Some(object) => {
            put_next(prepared, layout, structure, object, any, out)?;
            Ok(true)
        }
    }
}

/// Writes the objects that a structure names, parted by spaces.
fn put_objects<K: Sink>(
    prepared: &Prepared,
    layout: &Layout,
    structure: &[(u32, Value)],
    out: &mut K,
) -> Result<(), Failed>
    requires laid { posed prepared.now.problem ≡ problem_with (posed prepared.now.problem).program layout.now }
    ensures { Writes K.taken K.faults out.old out.new (joined_by (codes " ") (map (object_text (posed prepared.now.problem) structure.now) (objects_named (posed prepared.now.problem) structure.now))) result }
{
    let mut any = false;
    for (at, entry) in structure.iter().enumerate() {
        let named = named_by(layout, structure, at, entry.1);
        any = put_named(prepared, layout, structure, named, any, out)?;
    }
    Ok(())
}

/// Writes a structure: the parameters of the method under test, where there are any, and the objects that it names. It takes no
/// memory.
pub fn structure_text<K: Sink>(
    prepared: &Prepared,
    structure: &Structure,
    out: &mut K,
) -> Result<(), Failed>
    ensures { Writes K.taken K.faults out.old out.new (structure_text (posed prepared.now.problem) structure.now) result }
{
    let layout = prepared.layout();
    let trees = prepared.problem().program.trees.as_slice();
    let slots = structure.as_slice();
    put_parameters(trees, method_under_test(prepared), layout, slots, out)?;
    put_objects(prepared, layout, slots, out)
}

/// Writes a row's line: its key, its verdict where it has one, its structure. It takes no memory.
pub fn row_text<K: Sink>(prepared: &Prepared, row: &Row, out: &mut K) -> Result<(), Failed>
    ensures { Writes K.taken K.faults out.old out.new (row_text (posed prepared.now.problem) row.now) result }
{
    row_front(prepared, row, out)?;
    structure_text(prepared, &row.structure, out)?;
    put_all(out, b"\n")
}
