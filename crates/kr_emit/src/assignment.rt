// What a structure sets.
ghost use Rattle.std.specs.Prelude.{◌≡◌, ◌++◌, [], OnOk, codes, false, flat_map, map, All};
ghost use Rattle.std.proofs.Common.{get_or};
ghost use Rattle.kr_emit.specs.Vocabulary.{assigned_text, assignment_text, Element, field_names, field_shown, FieldSpot, file_at, headings_in, is_long, is_long_spot, IsField, line_bytes, local_text, place_of, posed, set_text, slot_at, spot_text, tree_in, type_named, value_text};

use crate::creation::class_of_object;
use crate::line::add_all;
use crate::objects::add_local;
use crate::types::has_long_elements;
use crate::values::add_value;
use itoa::Buffer;
use kr_ast::{Node, Primitive, Tree, tree_of};
use kr_base::NoMemory;
use kr_classes_members::Field;
use kr_judge_prepared::Prepared;
use kr_report::field_name_among;
use kr_report_rows::place_of;
use kr_text::Line;
use kr_value::{Class, Obj, SlotPlace, Spot, Value};

/// Whether a field is of type `long`.
fn is_long_field(trees: &[Tree], field: Field) -> bool
    requires { IsField trees.now field }
    ensures { result ≡ is_long (field_shown trees.now field).type }
{
    match tree_of(trees, field.file).entry(field.declared).node {
        Node::PrimitiveType {
            primitive: Primitive::Long,
        } => true,
        _ => false,
    }
}

/// Whether the field at a position is of type `long`.
fn is_long_at(trees: &[Tree], fields: &[Field], position: u32) -> bool
    requires { All (IsField trees.now) fields.now }
    ensures { result ≡ get_or (map (λ f. is_long (field_shown trees.now f).type) fields.now) position false }
{
    match fields.get(position as usize) {
        None => false,
        Some(field) => is_long_field(trees, *field),
    }
}

/// Whether the field of a class's objects at a position is of type `long`.
fn has_long(prepared: &Prepared, class: Class, position: u32) -> bool
    ensures { result ≡ is_long_spot (posed prepared.now.problem).program class (FieldSpot position) }
{
    let trees = prepared.problem().program.trees.as_slice();
    match class {
        Class::Object(number) => is_long_at(trees, prepared.fields(number), position),
        Class::Array(_) => false,
        Class::Set => false,
        Class::List => false,
    }
}

/// Whether the elements of an array are of type `long`.
fn has_long_element(prepared: &Prepared, class: Class, index: u32) -> bool
    ensures { result ≡ is_long_spot (posed prepared.now.problem).program class (Element index) }
{
    prepared.laws();
    let _ = index;
    match class {
        Class::Array(number) => has_long_elements(prepared.problem(), number),
        Class::Object(_) => false,
        Class::Set => false,
        Class::List => false,
    }
}

/// The name of the field of a class's objects at a position.
fn field_name(prepared: &Prepared, class: Class, position: u32) -> &[u8]
    ensures { result.now ≡ get_or (field_names (posed prepared.now.problem).program.table class) position [] }
{
    let trees = prepared.problem().program.trees.as_slice();
    match class {
        Class::Object(number) => field_name_among(trees, prepared.fields(number), position),
        Class::Array(_) => b"",
        Class::Set => b"",
        Class::List => b"",
    }
}

/// Adds what a field is set to.
fn add_field(
    line: &mut Line,
    prepared: &Prepared,
    objects: &[Obj],
    object: Obj,
    class: Class,
    value: Value,
    position: u32,
) -> Result<(), NoMemory>
    ensures { OnOk result (line_bytes line.new ≡ line_bytes line.old ++ set_text (posed prepared.now.problem).program objects.now object class value (FieldSpot position)) }
{
    line.add(b"    ")?;
    add_local(line, objects, object)?;
    add_all(line, &[b".", field_name(prepared, class, position), b" = "])?;
    add_value(line, objects, has_long(prepared, class, position), value)?;
    line.add(b";\n")
}

/// Adds what an element is set to.
fn add_element(
    line: &mut Line,
    prepared: &Prepared,
    objects: &[Obj],
    object: Obj,
    class: Class,
    value: Value,
    index: u32,
) -> Result<(), NoMemory>
    ensures { OnOk result (line_bytes line.new ≡ line_bytes line.old ++ set_text (posed prepared.now.problem).program objects.now object class value (Element index)) }
{
    let mut buffer = Buffer::new();
    line.add(b"    ")?;
    add_local(line, objects, object)?;
    add_all(line, &[b"[", buffer.format(index).as_bytes(), b"] = "])?;
    add_value(
        line,
        objects,
        has_long_element(prepared, class, index),
        value,
    )?;
    line.add(b";\n")
}

/// Adds what is set at a spot of an object; an array's length isn't.
fn add_set(
    line: &mut Line,
    prepared: &Prepared,
    objects: &[Obj],
    object: Obj,
    class: Class,
    value: Value,
    spot: Spot,
) -> Result<(), NoMemory>
    ensures { OnOk result (line_bytes line.new ≡ line_bytes line.old ++ set_text (posed prepared.now.problem).program objects.now object class value spot) }
{
    match spot {
        Spot::Length => Ok(()),
        Spot::Field(position) => {
            add_field(line, prepared, objects, object, class, value, position)
        }
        Spot::Element(index) => add_element(line, prepared, objects, object, class, value, index),
    }
}

/// Adds what is set at a place of a candidate.
fn add_assignment(
    line: &mut Line,
    prepared: &Prepared,
    objects: &[Obj],
    value: Value,
    place: SlotPlace,
) -> Result<(), NoMemory>
    ensures { OnOk result (line_bytes line.new ≡ line_bytes line.old ++ assignment_text (posed prepared.now.problem) objects.now value (place_of place)) }
{
    match place {
        SlotPlace::This => Ok(()),
        SlotPlace::Parameter(_) => Ok(()),
        SlotPlace::At(object, spot) => {
            let class = class_of_object(prepared.layout(), object);
            add_set(line, prepared, objects, object, class, value, spot)
        }
    }
}

/// Adds what the slots of a structure are set to.
pub(crate) fn add_assignments(
    line: &mut Line,
    prepared: &Prepared,
    structure: &[(u32, Value)],
    objects: &[Obj],
) -> Result<(), NoMemory>
    ensures { OnOk result (line_bytes line.new ≡ line_bytes line.old ++ flat_map (λ p. assignment_text (posed prepared.now.problem) objects.now p.1 (slot_at (posed prepared.now.problem) p.0).place) structure.now) }
{
    for entry in structure {
        let place = place_of(prepared.layout(), entry.0);
        add_assignment(line, prepared, objects, entry.1, place)?;
    }
    Ok(())
}
