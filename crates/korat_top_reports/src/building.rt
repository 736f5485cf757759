// The builders of a listing, by one worker.
ghost use Rattle.std.specs.Prelude.{◌≡◌, ◌<◌, IfOk, OnErr};
ghost use Rattle.kr_report.specs.Endings.{EndsListing};
ghost use Rattle.kr_space_problem.specs.Posed.{posed};
ghost use Rattle.korat_top_reports.specs.Reports.{builders_of};

use crate::asked::span_of;
use kr_args::forms::Ask;
use kr_base::{NoMemory, Sink, Steps};
use kr_emit::{build_alone, put_class_line};
use kr_judge_prepared::Prepared;
use std::alloc::Global;
use std::marker::Brand;
use std::sync::ledger::{Blank, Ledger};

/// Writes the builders of the entries that are asked for, after the first line of their class.
fn build<K: Sink, L: Ledger>(
    alloc: Global,
    prepared: &Prepared,
    ask: &Ask,
    out: &mut K,
    runs: &mut Steps<L>,
) -> Result<u8, NoMemory>
    ensures ends { IfOk result (λ status. EndsListing K.taken K.faults (builders_of ask.now (posed prepared.now.problem)) out.old out.new status) }
    ensures nothing { OnErr result (out.new ≡ out.old) }
{
    let span = match span_of(ask) {
        Ok(span) => span,
        Err(why) => return Err(why),
    };
    match put_class_line(out) {
        Ok(()) => Ok(build_alone(alloc, prepared, span, ask.limit, out, runs)),
        Err(_) => Ok(7),
    }
}

/// As `build`, counting candidates from none on.
fn emit_by<K: Sink, L: Ledger>(
    alloc: Global,
    prepared: &Prepared,
    ask: &Ask,
    out: &mut K,
    blank: Blank,
) -> Result<u8, NoMemory>
    requires ledger { blank.name ≡ L.name }
    requires parts { blank.parts ≡ L.parts }
    requires some { 0 < L.parts }
    ensures ends { IfOk result (λ status. EndsListing K.taken K.faults (builders_of ask.now (posed prepared.now.problem)) out.old out.new status) }
    ensures nothing { OnErr result (out.new ≡ out.old) }
{
    let mut runs = Steps::<L>::start(blank);
    build(alloc, prepared, ask, out, &mut runs)
}

/// Writes the builders of the entries that are asked for. It waits for nobody.
pub(crate) fn emit<K: Sink>(
    alloc: Global,
    prepared: &Prepared,
    ask: &Ask,
    out: &mut K,
) -> Result<u8, NoMemory>
    ensures ends { IfOk result (λ status. EndsListing K.taken K.faults (builders_of ask.now (posed prepared.now.problem)) out.old out.new status) }
    ensures nothing { OnErr result (out.new ≡ out.old) }
{
    emit_by::<K, Brand>(alloc, prepared, ask, out, Blank::new(1))
}
