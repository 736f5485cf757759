// Writes the listing that shards give.
ghost use Rattle.std.specs.Prelude.{◌≡◌, ◌++◌, codes, map};
ghost use Rattle.std.specs.List.{sum_by};
ghost use Rattle.kr_base.specs.Causes.{capped};
ghost use Rattle.kr_base.specs.Told.{Writes};
ghost use Rattle.kr_report.specs.Reports.{bytes_of, lines};
ghost use Rattle.kr_report.specs.Texts.{spent_text};
ghost use Rattle.kr_shard.specs.Found.{bytes_in, count_in, merged_answer};

use crate::faults::put_cut;
use crate::{Merged, MergedRows};
use kr_base::{Cut, Failed, Sink, put_all};
use kr_report::{Summary, summary_text};

/// The status of a call that writes them.
pub fn status_of(merged: &Merged) -> u8
    ensures status { result ≡ (merged_answer merged.now).status }
{
    match &merged.spent {
        Some(_) => 5,
        None => 0,
    }
}

/// How many rows there are, at most the greatest number of 64 bits.
fn count_rows(rows: &MergedRows) -> u64
    ensures { result ≡ capped (sum_by count_in rows.now) }
{
    let mut count: u64 = 0;
    for at in 0..rows.len() {
        count = count.saturating_add(rows.get(at).count());
    }
    count
}

/// Writes the rows of each shard, as they were read.
fn put_rows<K: Sink>(rows: &MergedRows, out: &mut K) -> Result<(), Failed>
    ensures { Writes K.taken K.faults out.old out.new (lines (map bytes_in rows.now)) result }
{
    for at in 0..rows.len() {
        put_all(out, rows.get(at).as_bytes())?;
    }
    Ok(())
}

/// `spent KEY`
fn put_spent<K: Sink>(key: &Cut, out: &mut K) -> Result<(), Failed>
    ensures { Writes K.taken K.faults out.old out.new (spent_text key.now) result }
{
    put_cut(b"spent ", key, out)?;
    put_all(out, b"\n")
}

/// Writes the last line.
fn put_last<K: Sink>(merged: &Merged, out: &mut K) -> Result<(), Failed>
    ensures { Writes K.taken K.faults out.old out.new (merged_answer merged.now).last result }
{
    match &merged.spent {
        Some(key) => put_spent(key, out),
        None => summary_text(
            &Summary::List {
                valid: count_rows(&merged.rows),
                tried: merged.tried,
            },
            out,
        ),
    }
}

/// Writes the listing. It takes no memory.
pub fn put_merged<K: Sink>(merged: &Merged, out: &mut K) -> Result<(), Failed>
    ensures { Writes K.taken K.faults out.old out.new (bytes_of (merged_answer merged.now)) result }
{
    put_rows(&merged.rows, out)?;
    put_last(merged, out)
}
