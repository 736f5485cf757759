// The builders of a problem's entries, by one worker, who waits for nobody.
ghost use Rattle.kr_emit.specs.Vocabulary.{built, class_line, EndsListing, posed, Writes};

use crate::making::{Builder, ToBuilders};
use crate::writer::BuilderWriter;
use kr_base::{Failed, Sink, Span, Steps, put_all};
use kr_judge_prepared::Prepared;
use kr_mean::Row;
use kr_scan::{Scan, walk};
use kr_survey::{Mapped, mapped_law};
use std::alloc::Global;
use std::sync::ledger::Ledger;

/// Writes the first line of the builders' class.
pub fn put_class_line<K: Sink>(out: &mut K) -> Result<(), Failed>
    ensures { Writes K.taken K.faults out.old out.new class_line result }
{
    put_all(out, b"class KoratBuild {\n")
}

/// Writes the builders of a problem's valid entries in a span, at most so many, each before the next candidate is run; and after
/// them the end of their class and the listing's last line. Returns the status.
pub fn build_alone<K: Sink, L: Ledger>(
    alloc: Global,
    prepared: &Prepared,
    span: Span,
    limit: u32,
    out: &mut K,
    runs: &mut Steps<L>,
) -> u8
    ensures { EndsListing K.taken K.faults (built (posed prepared.now.problem) limit span) out.old out.new result }
{
    mapped_law::<Row, Builder>();
    let scan = Scan::new(alloc, prepared);
    let making = ToBuilders::new(alloc, prepared);
    let builders = Mapped::new(alloc, scan, making);
    let mut writer = BuilderWriter::new(alloc, limit);
    let put = walk(&builders, span, &mut writer, out, runs);
    writer.close(put, out)
}
