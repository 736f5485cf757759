// Values and names of objects, put into a sink.
ghost use Rattle.std.specs.Prelude.{◌≡◌, ◌++◌, ◌∷◌, [], codes, decimal, if◌then◌else◌};
ghost use Rattle.kr_report_rows.specs.Vocabulary.{bare, object_name, object_of, separated, value_text, Writes};

use crate::places::{name_of, numbered};
use itoa::Buffer;
use kr_base::{Failed, Sink, put_all};
use kr_iso::Object;
use kr_space_layout::Layout;
use kr_text::{put_decimal, put_pieces};
use kr_value::Value;

/// Writes `#k`.
fn put_rank<K: Sink>(number: u32, out: &mut K) -> Result<(), Failed>
    ensures { Writes K.taken K.faults out.old out.new (codes "#" ++ decimal number) result }
{
    if number < 10 {
        return put_all(out, [b'#', b'0' + number as u8].as_slice());
    }
    let mut buffer = Buffer::new();
    let number = buffer.format(number).as_bytes();
    put_pieces(out, &[b"#", number])
}

/// Writes `Class#k`.
pub(crate) fn put_object_name<K: Sink>(
    layout: &Layout,
    object: Object,
    out: &mut K,
) -> Result<(), Failed>
    ensures { Writes K.taken K.faults out.old out.new (object_name (bare layout.now) (object_of object)) result }
{
    put_all(out, name_of(layout, object.domain))?;
    put_rank(object.number, out)
}

/// Writes a value.
pub(crate) fn put_value<K: Sink>(layout: &Layout, value: Value, out: &mut K) -> Result<(), Failed>
    ensures { Writes K.taken K.faults out.old out.new (value_text (bare layout.now) value) result }
{
    match value {
        Value::Int(number) => put_decimal(out, i128::from(number)),
        Value::Bool(true) => put_all(out, b"true"),
        Value::Bool(false) => put_all(out, b"false"),
        Value::Null => put_all(out, b"null"),
        Value::Ref(number) => put_object_name(layout, numbered(layout, number), out),
    }
}

/// Writes a separator, if something is before it.
pub(crate) fn put_between<K: Sink>(between: &[u8], any: bool, out: &mut K) -> Result<(), Failed>
    ensures { Writes K.taken K.faults out.old out.new (if any then between.now else []) result }
{
    if any { put_all(out, between) } else { Ok(()) }
}

/// Writes a name and `=`.
fn put_label<K: Sink>(name: &[u8], out: &mut K) -> Result<(), Failed>
    ensures { Writes K.taken K.faults out.old out.new (name.now ++ codes "=") result }
{
    put_all(out, name)?;
    put_all(out, b"=")
}

/// Writes `f=value`, where others may be before it.
pub(crate) fn put_field<K: Sink>(
    name: &[u8],
    layout: &Layout,
    value: Value,
    any: bool,
    out: &mut K,
) -> Result<(), Failed>
    ensures { Writes K.taken K.faults out.old out.new (separated (codes ",") any ((name.now ++ codes "=" ++ value_text (bare layout.now) value) ∷ [])) result }
{
    put_between(b",", any, out)?;
    put_label(name, out)?;
    put_value(layout, value, out)
}

/// Writes an element's value, where others may be before it.
pub(crate) fn put_element<K: Sink>(
    layout: &Layout,
    value: Value,
    any: bool,
    out: &mut K,
) -> Result<(), Failed>
    ensures { Writes K.taken K.faults out.old out.new (separated (codes ",") any (value_text (bare layout.now) value ∷ [])) result }
{
    put_between(b",", any, out)?;
    put_value(layout, value, out)
}
