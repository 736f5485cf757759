// A traced listing, checked.
ghost use Rattle.std.specs.Prelude.{Some};
ghost use Rattle.kr_args.specs.Workers.{AreWorkers};
ghost use Rattle.kr_args.specs.declared.forms.Command.TheVariants.{Trace};
ghost use Rattle.korat_top.specs.Ends.{EndsFor, seen};

use kr_args::forms::Word;
use kr_base::{Sink, Span};
use kr_io::Files;
use kr_report::{once_written, put_out_of_memory, put_read_fault};
use kr_trace::{TraceStop, find_checked, put_checked, status_for};
use std::alloc::Global;

/// Serves `trace`.
pub(crate) fn serve_trace<F: Files, K: Sink>(
    alloc: Global,
    file: &Word,
    span: &Span,
    workers: u32,
    files: &mut F,
    out: &mut K,
) -> u8
    requires { AreWorkers workers }
    ensures { let see = seen F.held F.faults F.last K.taken K.faults in EndsFor (Some (Trace file.now span.now.after span.now.upto workers)) (see files.old out.old) (see files.new out.new) result }
{
    match find_checked(alloc, file.as_str(), span, workers, files) {
        Ok(checked) => once_written(put_checked(&checked, out), status_for(&checked)),
        Err(TraceStop::Read) => once_written(put_read_fault(file.as_str(), out), 6),
        Err(TraceStop::Memory(_)) => once_written(put_out_of_memory(out), 8),
    }
}
