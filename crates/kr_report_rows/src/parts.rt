// What a structure has of an object, put into a sink.
ghost use Rattle.std.specs.Prelude.{◌≡◌, ◌||◌, All, IfOk, codes, flat_map, map};
ghost use Rattle.kr_report_rows.specs.Vocabulary.{are_any, bare, closing, field_name, IsField, joined_by, object_of, opening, separated, Writes};
ghost use Rattle.kr_report_rows.specs.Parts.{entry_named, object_named, part_named};

use crate::places::{class_of, is_within, spot_at, stretch_of};
use crate::values::{put_element, put_field, put_object_name};
use kr_ast::Tree;
use kr_base::{Failed, Sink, put_all};
use kr_classes_members::Field;
use kr_iso::Object;
use kr_report::field_name_among;
use kr_space_layout::Layout;
use kr_value::{Class, Spot, Value};

/// Writes what an object has at a spot: of a field `f=value`, of an element the value, of a length nothing. Says whether
/// something is written by now.
fn put_spot<K: Sink>(
    trees: &[Tree],
    fields: &[Field],
    layout: &Layout,
    spot: Option<Spot>,
    value: Value,
    any: bool,
    out: &mut K,
) -> Result<bool, Failed>
    requires { All (IsField trees.now) fields.now }
    ensures text { Writes K.taken K.faults out.old out.new (separated (codes ",") any (part_named (bare layout.now) (map (field_name trees.now) fields.now) value spot)) result }
    ensures any { IfOk result (λ now. now ≡ (any || are_any (part_named (bare layout.now) (map (field_name trees.now) fields.now) value spot))) }
{
    match spot {
        None => Ok(any),
        Some(Spot::Length) => Ok(any),
        Some(Spot::Field(position)) => {
            let name = field_name_among(trees, fields, position);
            put_field(name, layout, value, any, out)?;
            Ok(true)
        }
        Some(Spot::Element(_)) => {
            put_element(layout, value, any, out)?;
            Ok(true)
        }
    }
}

/// Writes what a structure has of an object, parted by commas.
fn put_parts<K: Sink>(
    trees: &[Tree],
    fields: &[Field],
    layout: &Layout,
    structure: &[(u32, Value)],
    object: Object,
    out: &mut K,
) -> Result<(), Failed>
    requires { All (IsField trees.now) fields.now }
    ensures { Writes K.taken K.faults out.old out.new (joined_by (codes ",") (flat_map (entry_named (bare layout.now) (map (field_name trees.now) fields.now) (object_of object)) structure.now)) result }
{
    let stretch = stretch_of(layout, object);
    let mut any = false;
    for entry in structure {
        if is_within(stretch, entry.0) {
            let spot = spot_at(layout, entry.0);
            any = put_spot(trees, fields, layout, spot, entry.1, any, out)?;
        }
    }
    Ok(())
}

fn put_opening<K: Sink>(class: Class, out: &mut K) -> Result<(), Failed>
    ensures { Writes K.taken K.faults out.old out.new (opening class) result }
{
    match class {
        Class::Array(_) => put_all(out, b"["),
        Class::Object(_) => put_all(out, b"{"),
        Class::Set => put_all(out, b"{"),
        Class::List => put_all(out, b"{"),
    }
}

fn put_closing<K: Sink>(class: Class, out: &mut K) -> Result<(), Failed>
    ensures { Writes K.taken K.faults out.old out.new (closing class) result }
{
    match class {
        Class::Array(_) => put_all(out, b"]"),
        Class::Object(_) => put_all(out, b"}"),
        Class::Set => put_all(out, b"}"),
        Class::List => put_all(out, b"}"),
    }
}

/// Writes an object: `Class#k{f=value,f=value}`, or of an array `int[]#k[value,value]`.
pub(crate) fn put_object<K: Sink>(
    trees: &[Tree],
    fields: &[Field],
    layout: &Layout,
    structure: &[(u32, Value)],
    object: Object,
    out: &mut K,
) -> Result<(), Failed>
    requires { All (IsField trees.now) fields.now }
    ensures { Writes K.taken K.faults out.old out.new (object_named (bare layout.now) (map (field_name trees.now) fields.now) structure.now (object_of object)) result }
{
    let class = class_of(layout, object.domain);
    put_object_name(layout, object, out)?;
    put_opening(class, out)?;
    put_parts(trees, fields, layout, structure, object, out)?;
    put_closing(class, out)
}
