// How a report ends whose rows were not all handed over.
ghost use Rattle.std.specs.Prelude.{◌≡◌, ◌≤◌};
ghost use Rattle.kr_report.specs.Endings.{BreaksOff};
ghost use Rattle.kr_report.specs.Reports.{Answer};
ghost use Rattle.kr_report_streaming.specs.Writers.{HaltsAt};

use kr_base::Sink;
use kr_report::{once_written, put_out_of_memory};
use kr_survey::Halt;

/// The status; out of memory is said by a line.
pub(crate) fn put_halt<K: Sink>(halt: Halt, out: &mut K) -> u8
    ensures late { 7 ≤ result }
    ensures ends { (answer : Answer) (from : K) → HaltsAt K.taken K.faults answer from out.old halt → BreaksOff K.taken K.faults answer from out.new result }
{
    match halt {
        Halt::Sink => 7,
        Halt::Memory(_) => once_written(put_out_of_memory(out), 8),
    }
}
