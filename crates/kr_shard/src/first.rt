// The first line of a shard's text.
ghost use Rattle.std.specs.Prelude.{◌++◌, codes};
ghost use Rattle.kr_base.specs.Told.{Writes};
ghost use Rattle.kr_shard.specs.Texts.{first_text, from_text, to_text};

use kr_base::{Bound, Cut, Failed, Sink, put_all};

fn put_from<K: Sink>(after: &Cut, out: &mut K) -> Result<(), Failed>
    ensures { Writes K.taken K.faults out.old out.new (from_text after.now) result }
{
    if after.numbers().is_empty() {
        put_all(out, b"start")
    } else {
        after.write(out)
    }
}

fn put_to<K: Sink>(upto: &Bound, out: &mut K) -> Result<(), Failed>
    ensures { Writes K.taken K.faults out.old out.new (to_text upto.now) result }
{
    match upto {
        Bound::End => put_all(out, b"end"),
        Bound::At(cut) => cut.write(out),
    }
}

/// `shard FROM`
fn put_head<K: Sink>(after: &Cut, out: &mut K) -> Result<(), Failed>
    ensures { Writes K.taken K.faults out.old out.new (codes "shard " ++ from_text after.now) result }
{
    put_all(out, b"shard ")?;
    put_from(after, out)
}

/// A space and `TO`.
fn put_tail<K: Sink>(upto: &Bound, out: &mut K) -> Result<(), Failed>
    ensures { Writes K.taken K.faults out.old out.new (codes " " ++ to_text upto.now) result }
{
    put_all(out, b" ")?;
    put_to(upto, out)
}

/// Writes the first line of a shard's text, `shard FROM TO`. It takes no memory.
pub fn put_first_line<K: Sink>(after: &Cut, upto: &Bound, out: &mut K) -> Result<(), Failed>
    ensures { Writes K.taken K.faults out.old out.new (first_text (record { after = after.now; upto = upto.now })) result }
{
    put_head(after, out)?;
    put_tail(upto, out)?;
    put_all(out, b"\n")
}
