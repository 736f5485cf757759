// A file, checked as a traced listing, and what is said of it.
ghost use Rattle.std.specs.Prelude.{◌≡◌, ◌<◌, ◌++◌, codes, decimal};
ghost use Rattle.kr_base.specs.Told.{Writes};
ghost use Rattle.kr_trace.specs.Checked.{checked};
ghost use Rattle.kr_trace.specs.Codes.{rule_code};
ghost use Rattle.kr_trace.specs.Files.{said_of, status_for as status_of};
ghost use Rattle.kr_trace.specs.Found.{CountStays, FindsChecked, Tells};
ghost use Rattle.kr_trace.specs.declared.files.TraceStop.TheVariants.{Memory};

use crate::checking::{MAX_TRACE_BYTES, check_trace};
use crate::refusal::{Fault, TraceRefusal};
use itoa::Buffer;
use kr_base::{Failed, NoMemory, Sink, Span};
use kr_io::{Files, ReadRefusal};
use kr_text::put_pieces;
use std::alloc::Global;

/// Why a file isn't checked.
#[derive(Clone, Copy, PartialEq, Eq)]
pub enum TraceStop {
    /// It was not read.
    Read,
    Memory(NoMemory),
}

impl From<NoMemory> for TraceStop {
    ghost from_gives = { λ why stop. stop ≡ Memory why };

    fn from(why: NoMemory) -> TraceStop {
        TraceStop::Memory(why)
    }
}

fn check_bytes(
    alloc: Global,
    bytes: &[u8],
    span: &Span,
    workers: u32,
) -> Result<Result<u64, Fault>, TraceStop>
    requires { 0 < workers }
    ensures { Tells (checked span.now workers bytes.now) result }
{
    match check_trace(alloc, bytes, span, workers) {
        Ok(events) => Ok(Ok(events)),
        Err(TraceRefusal::Bad(fault)) => Ok(Err(fault)),
        Err(TraceRefusal::NoMemory(why)) => Err(TraceStop::Memory(why)),
    }
}

/// Reads a file, and checks it. One byte more than is checked shows that it is too long.
pub fn find_checked<F: Files>(
    alloc: Global,
    name: &str,
    span: &Span,
    workers: u32,
    files: &mut F,
) -> Result<Result<u64, Fault>, TraceStop>
    requires { 0 < workers }
    ensures found { FindsChecked F.held F.faults F.last name.now span.now workers files.old files.new result }
    ensures count { CountStays (F.faults files.old) (F.faults files.new) result }
{
    match files.read(name, MAX_TRACE_BYTES + 1) {
        Ok(bytes) => check_bytes(alloc, &bytes, span, workers),
        Err(ReadRefusal::Failed) => Err(TraceStop::Read),
        Err(ReadRefusal::NoMemory(why)) => Err(TraceStop::Memory(why)),
    }
}

/// The status of a call that says so.
pub fn status_for(checked: &Result<u64, Fault>) -> u8
    ensures { result ≡ status_of checked.now }
{
    match checked {
        Ok(_) => 0,
        Err(_) => 10,
    }
}

/// `run ok events E`
fn put_events<K: Sink>(events: u64, out: &mut K) -> Result<(), Failed>
    ensures { Writes K.taken K.faults out.old out.new (codes "run ok events " ++ decimal events ++ codes "\n") result }
{
    let mut digits = Buffer::new();
    put_pieces(
        out,
        &[b"run ok events ", digits.format(events).as_bytes(), b"\n"],
    )
}

/// `bad trace LINE RULE`
fn put_fault<K: Sink>(fault: Fault, out: &mut K) -> Result<(), Failed>
    ensures { Writes K.taken K.faults out.old out.new (codes "bad trace " ++ decimal fault.line ++ codes " " ++ rule_code fault.rule ++ codes "\n") result }
{
    let mut digits = Buffer::new();
    put_pieces(
        out,
        &[
            b"bad trace ",
            digits.format(fault.line).as_bytes(),
            b" ",
            fault.rule.code().as_bytes(),
            b"\n",
        ],
    )
}

/// Writes what is said of a file. It takes no memory.
pub fn put_checked<K: Sink>(checked: &Result<u64, Fault>, out: &mut K) -> Result<(), Failed>
    ensures { Writes K.taken K.faults out.old out.new (said_of checked.now) result }
{
    match checked {
        Ok(events) => put_events(*events, out),
        Err(fault) => put_fault(*fault, out),
    }
}
