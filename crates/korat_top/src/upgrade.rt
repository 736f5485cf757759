// A finitization, carried over to version 2.
ghost use Rattle.std.specs.Prelude.{Some};
ghost use Rattle.kr_args.specs.declared.forms.Command.TheVariants.{Upgrade};
ghost use Rattle.korat_top.specs.Ends.{EndsFor, seen};

use crate::report::alone_name;
use crate::stop::{file_of, put_stop};
use korat_top_files::find_upgrade;
use kr_args::forms::Word;
use kr_base::{Sink, put_all};
use kr_io::Files;
use kr_report::once_written;
use std::alloc::Global;

/// Serves `upgrade`.
pub(crate) fn serve_upgrade<F: Files, K: Sink>(
    alloc: Global,
    fin: &Word,
    files: &mut F,
    out: &mut K,
) -> u8
    ensures { let see = seen F.held F.faults F.last K.taken K.faults in EndsFor (Some (Upgrade fin.now)) (see files.old out.old) (see files.new out.new) result }
{
    match find_upgrade(alloc, fin.as_str(), files) {
        Ok(text) => once_written(put_all(out, text.as_bytes()), 0),
        Err(stop) => put_stop(alone_name(fin, file_of(&stop)), &stop, out),
    }
}
