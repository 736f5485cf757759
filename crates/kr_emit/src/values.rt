// Values as a builder writes them.
ghost use Rattle.std.specs.Prelude.{◌≡◌, ◌++◌, OnOk};
ghost use Rattle.kr_emit.specs.Vocabulary.{letter_text, line_bytes, value_text};
ghost use Rattle.std.specs.Fmt.{signed_decimal};

use crate::line::add_number;
use crate::objects::add_local;
use kr_base::NoMemory;
use kr_text::Line;
use kr_value::{Obj, Value};

/// The letter after a number of a `long`.
fn letter(is_long: bool) -> &'static [u8]
    ensures { result.now ≡ letter_text is_long }
{
    if is_long { b"L" } else { b"" }
}

/// Adds a number, and the letter of a `long`.
fn add_whole(line: &mut Line, is_long: bool, number: i64) -> Result<(), NoMemory>
    ensures { OnOk result (line_bytes line.new ≡ line_bytes line.old ++ (signed_decimal number ++ letter_text is_long)) }
{
    add_number(line, number)?;
    line.add(letter(is_long))
}

/// Adds a value.
pub(crate) fn add_value(
    line: &mut Line,
    objects: &[Obj],
    is_long: bool,
    value: Value,
) -> Result<(), NoMemory>
    ensures { OnOk result (line_bytes line.new ≡ line_bytes line.old ++ value_text objects.now is_long value) }
{
    match value {
        Value::Int(number) => add_whole(line, is_long, number),
        Value::Bool(true) => line.add(b"true"),
        Value::Bool(false) => line.add(b"false"),
        Value::Null => line.add(b"null"),
        Value::Ref(object) => add_local(line, objects, object),
    }
}
