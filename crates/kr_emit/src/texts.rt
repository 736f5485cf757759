// A row's builder, before and after its number.
ghost use Rattle.std.specs.Prelude.{◌≡◌, ◌++◌, OnOk};
ghost use Rattle.kr_emit.specs.Vocabulary.{bare, body_text, front_text, line_bytes, posed, rest_text, root_class};

use crate::assignment::add_assignments;
use crate::creation::add_creations;
use crate::line::{add_all, add_key};
use crate::objects::objects_in;
use crate::types::{TypeName, class_name};
use kr_base::NoMemory;
use kr_classes_table::ClassId;
use kr_judge_prepared::Prepared;
use kr_mean::Row;
use kr_report_rows::class_of;
use kr_space_layout::Layout;
use kr_text::Line;
use kr_value::{Class, Obj, Value};
use std::alloc::Global;

/// The class of the roots.
fn root_class(layout: &Layout) -> ClassId
    ensures { result ≡ root_class (bare layout.now) }
{
    match class_of(layout, layout.root()) {
        Class::Object(class) => class,
        Class::Array(_) => 0,
        Class::Set => 0,
        Class::List => 0,
    }
}

/// Adds what comes before a builder's number.
pub fn builder_front(line: &mut Line, prepared: &Prepared, row: &Row) -> Result<(), NoMemory>
    ensures { OnOk result (line_bytes line.new ≡ line_bytes line.old ++ front_text (posed prepared.now.problem) row.now) }
{
    prepared.laws();
    let class = root_class(prepared.layout());
    let TypeName { outer, dot, name } = class_name(prepared.problem(), class);
    line.add(b"  // ")?;
    add_key(line, &row.key)?;
    add_all(line, &[b"\n  static ", outer, dot, name, b" b"])
}

/// Adds the creations of a structure's objects, and then what its slots are set to.
fn add_body(
    line: &mut Line,
    prepared: &Prepared,
    structure: &[(u32, Value)],
    objects: &[Obj],
) -> Result<(), NoMemory>
    ensures { OnOk result (line_bytes line.new ≡ line_bytes line.old ++ body_text (posed prepared.now.problem) structure.now objects.now) }
{
    prepared.laws();
    add_creations(line, prepared.problem(), structure, objects)?;
    add_assignments(line, prepared, structure, objects)
}

/// Adds what comes after a builder's number.
pub fn builder_rest(
    alloc: Global,
    line: &mut Line,
    prepared: &Prepared,
    row: &Row,
) -> Result<(), NoMemory>
    ensures { OnOk result (line_bytes line.new ≡ line_bytes line.old ++ rest_text (posed prepared.now.problem) row.now) }
{
    let structure = row.structure.as_slice();
    let objects = objects_in(alloc, structure)?;
    line.add(b"() {\n")?;
    add_body(line, prepared, structure, objects.as_slice())?;
    line.add(b"    return o0;\n  }\n")
}
