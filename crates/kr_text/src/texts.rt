// Texts that the program writes.
ghost use Rattle.std.specs.Fmt.{signed_decimal};
ghost use Rattle.kr_base.specs.Told.{Writes};
ghost use Rattle.kr_text.specs.Texts.{joined, place_text, where_text, refusal_text, rule_text};

use itoa::Buffer;
use kr_base::{Failed, Place, Sink, put_all};

/// Writes a number in decimal, with a `-` if it is negative.
pub fn put_decimal<K: Sink>(out: &mut K, number: i128) -> Result<(), Failed>
    ensures { Writes K.taken K.faults out.old out.new (signed_decimal number) result }
{
    put_all(out, Buffer::new().format(number).as_bytes())
}

/// Writes the texts in order.
pub fn put_pieces<K: Sink>(out: &mut K, pieces: &[&[u8]]) -> Result<(), Failed>
    ensures { Writes K.taken K.faults out.old out.new (joined pieces.now) result }
{
    for piece in pieces {
        put_all(out, piece)?;
    }
    Ok(())
}

/// Writes `NAME:LINE:COL`.
pub fn put_place<K: Sink>(out: &mut K, name: &str, place: Place) -> Result<(), Failed>
    ensures { Writes K.taken K.faults out.old out.new (place_text name.now place) result }
{
    let mut line = Buffer::new();
    let mut col = Buffer::new();
    let line = line.format(place.line).as_bytes();
    let col = col.format(place.col).as_bytes();
    put_pieces(out, &[name.as_bytes(), b":", line, b":", col])
}

/// Writes `: `, the rule, a space and the item unless it is empty, and the line's end.
fn put_rule<K: Sink>(out: &mut K, rule: &str, item: &[u8]) -> Result<(), Failed>
    ensures { Writes K.taken K.faults out.old out.new (rule_text rule.now item.now) result }
{
    let rule = rule.as_bytes();
    if item.is_empty() {
        put_pieces(out, &[b": ", rule, b"\n"])
    } else {
        put_pieces(out, &[b": ", rule, b" ", item, b"\n"])
    }
}

/// Writes the name, followed by the place, if any.
fn put_where<K: Sink>(out: &mut K, name: &str, place: Option<Place>) -> Result<(), Failed>
    ensures { Writes K.taken K.faults out.old out.new (where_text name.now place) result }
{
    match place {
        Some(place) => put_place(out, name, place),
        None => put_all(out, name.as_bytes()),
    }
}

/// Writes a refusal's line, whose item is any bytes.
pub fn put_refusal_bytes<K: Sink>(
    out: &mut K,
    name: &str,
    place: Option<Place>,
    rule: &str,
    item: &[u8],
) -> Result<(), Failed>
    ensures { Writes K.taken K.faults out.old out.new (refusal_text name.now place rule.now item.now) result }
{
    put_where(out, name, place)?;
    put_rule(out, rule, item)
}

/// Writes a refusal's line: the name, `:LINE:COL` if there is a place, `: `, the rule, and a space and the item unless
/// it is empty.
pub fn put_refusal<K: Sink>(
    out: &mut K,
    name: &str,
    place: Option<Place>,
    rule: &str,
    item: &str,
) -> Result<(), Failed>
    ensures { Writes K.taken K.faults out.old out.new (refusal_text name.now place rule.now item.now) result }
{
    put_refusal_bytes(out, name, place, rule, item.as_bytes())
}
