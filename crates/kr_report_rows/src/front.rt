// The front of a row's line, up to the structure.
ghost use Rattle.std.specs.Prelude.{◌++◌, codes};
ghost use Rattle.kr_report_rows.specs.Vocabulary.{cut_text, dotted, posed, verdict_text, Writes};

use itoa::Buffer;
use kr_base::{Cut, Failed, Sink, put_all, put_number};
use kr_judge_prepared::Prepared;
use kr_mean::{Row, Verdict};
use kr_report::put_verdict;
use kr_text::put_pieces;

/// Writes a dot and a number, a small one by one put.
fn put_dotted<K: Sink>(number: u32, out: &mut K) -> Result<(), Failed>
    ensures { Writes K.taken K.faults out.old out.new (dotted number) result }
{
    if number < 10 {
        return put_all(out, [b'.', b'0' + number as u8].as_slice());
    }
    let mut buffer = Buffer::new();
    let number = buffer.format(number).as_bytes();
    put_pieces(out, &[b".", number])
}

/// Writes the numbers of a key, joined by dots.
fn put_key<K: Sink>(key: &Cut, out: &mut K) -> Result<(), Failed>
    ensures { Writes K.taken K.faults out.old out.new (cut_text key.now) result }
{
    let Some((first, rest)) = key.numbers().split_first() else {
        return Ok(());
    };
    put_number(out, *first)?;
    for number in rest {
        put_dotted(*number, out)?;
    }
    Ok(())
}

/// Writes a verdict of a problem's method under test, and a space; of none nothing.
fn put_judged<K: Sink>(
    prepared: &Prepared,
    verdict: Option<Verdict>,
    out: &mut K,
) -> Result<(), Failed>
    ensures { Writes K.taken K.faults out.old out.new (verdict_text (posed prepared.now.problem).program.table.headings verdict) result }
{
    prepared.laws();
    let problem = prepared.problem();
    let trees = problem.program.trees.as_slice();
    put_verdict(trees, &problem.program.table.heads, verdict, out)
}

/// Writes the front of a row's line: its key, and its verdict if it has one, each with a space.
pub(crate) fn row_front<K: Sink>(prepared: &Prepared, row: &Row, out: &mut K) -> Result<(), Failed>
    ensures { Writes K.taken K.faults out.old out.new (cut_text row.now.key ++ codes " " ++ verdict_text (posed prepared.now.problem).program.table.headings row.now.verdict) result }
{
    put_key(&row.key, out)?;
    put_all(out, b" ")?;
    put_judged(prepared, row.verdict, out)
}
