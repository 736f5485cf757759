// What is written where files pose no problem.
ghost use Rattle.std.specs.Prelude.{◌≡◌};
ghost use Rattle.korat_top_files.specs.Refusals.{Inputs, name_of};
ghost use Rattle.korat_top.specs.Stops.{PutsText, stop_file, stop_status, stop_text};

use korat_top_files::{InputFile, Stop, put_refused, status_of};
use kr_base::Sink;
use kr_report::{once_written, put_out_of_memory, put_read_fault};

/// The file that a stop names, if it names one.
pub(crate) fn file_of(stop: &Stop) -> InputFile
    ensures { result ≡ stop_file stop.now }
{
    match stop {
        Stop::Refused(refusal) => refusal.file(),
        Stop::Read(file) => *file,
        Stop::Memory(_) => InputFile::Finitization,
    }
}

/// Writes why files pose no problem: a refusal of the file of that name, its read fault, or out of memory. Returns the status.
pub(crate) fn put_stop<K: Sink>(name: &str, stop: &Stop, out: &mut K) -> u8
    ensures { (inputs : Inputs) → name.now ≡ name_of inputs (stop_file stop.now) → PutsText K.taken K.faults (stop_text inputs stop.now) (stop_status stop.now) out.old out.new result }
{
    match stop {
        Stop::Refused(refusal) => once_written(
            put_refused(name, refusal, out),
            status_of(refusal.file()),
        ),
        Stop::Read(_) => once_written(put_read_fault(name, out), 6),
        Stop::Memory(_) => once_written(put_out_of_memory(out), 8),
    }
}
