// Files that are checked.
ghost use Rattle.std.specs.Prelude.{Some};
ghost use Rattle.kr_args.specs.Sources.{AreSources};
ghost use Rattle.kr_args.specs.declared.forms.Command.TheVariants.{Check};
ghost use Rattle.korat_top.specs.Ends.{EndsFor, seen};

use crate::report::file_name;
use crate::stop::{file_of, put_stop};
use korat_top_files::find_files;
use korat_top_reports::count;
use kr_args::forms::Word;
use kr_base::{Sink, Words};
use kr_io::Files;
use kr_mean::Mode;
use std::alloc::Global;

/// Serves `check`.
pub(crate) fn serve_check<F: Files, K: Sink>(
    alloc: Global,
    fin: &Word,
    sources: &Words,
    files: &mut F,
    out: &mut K,
) -> u8
    requires { AreSources sources.now }
    ensures { let see = seen F.held F.faults F.last K.taken K.faults in EndsFor (Some (Check fin.now sources.now)) (see files.old out.old) (see files.new out.new) result }
{
    match find_files(alloc, Mode::List, fin.as_str(), sources, files) {
        Ok(found) => count(&found, out),
        Err(stop) => put_stop(file_name(fin, sources, file_of(&stop)), &stop, out),
    }
}
