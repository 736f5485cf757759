// Files of shards, put together.
ghost use Rattle.std.specs.Prelude.{Some};
ghost use Rattle.kr_args.specs.declared.forms.Command.TheVariants.{Merge};
ghost use Rattle.korat_top.specs.Ends.{EndsFor, seen};

use kr_base::{Sink, Words};
use kr_io::Files;
use kr_report::{once_written, put_out_of_memory, put_read_fault};
use kr_shard::{MergeStop, find_merged, name_at, put_fault, put_merged, status_of};
use std::alloc::Global;

/// Serves `merge`.
pub(crate) fn serve_merge<F: Files, K: Sink>(
    alloc: Global,
    names: &Words,
    files: &mut F,
    out: &mut K,
) -> u8
    ensures { let see = seen F.held F.faults F.last K.taken K.faults in EndsFor (Some (Merge names.now)) (see files.old out.old) (see files.new out.new) result }
{
    match find_merged(alloc, names, files) {
        Ok(merged) => {
            let status = status_of(&merged);
            once_written(put_merged(&merged, out), status)
        }
        Err(MergeStop::Read(number)) => once_written(
            put_read_fault(name_at(names, number), out),
            6,
        ),
        Err(MergeStop::Memory(_)) => once_written(put_out_of_memory(out), 8),
        Err(MergeStop::Refused(fault)) => once_written(put_fault(names, &fault, out), 9),
    }
}
