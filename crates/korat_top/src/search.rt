// Searches, by one worker or by several.
ghost use Rattle.std.specs.Prelude.{◌≡◌, true, Some};
ghost use Rattle.kr_args.specs.Sources.{SearchesSources};
ghost use Rattle.kr_args.specs.declared.forms.Command.TheVariants.{Search as SearchFor};
ghost use Rattle.korat_top_reports.specs.Reports.{is_alone};
ghost use Rattle.korat_top.specs.Ends.{EndsFor, seen};
ghost use Rattle.korat_top.specs.OneWorker.{IsWithin};

use crate::find::find;
use crate::report::searched_name;
use crate::stop::{file_of, put_stop};
use korat_top_reports::{report_alone, report_shared};
use kr_args::forms::Search;
use kr_base::Sink;
use kr_io::{Files, Gate};
use kr_report::{once_written, put_out_of_memory};
use std::alloc::Global;
use std::sync::Wait;
use std::thread::Threads;

/// Serves a search, by one worker. It waits for nobody.
pub(crate) fn search_alone<F: Files, K: Sink>(
    alloc: Global,
    search: &Search,
    files: &mut F,
    out: &mut K,
) -> u8
    requires sources { SearchesSources search.now }
    requires alone { is_alone search.now ≡ true }
    ensures { let see = seen F.held F.faults F.last K.taken K.faults in EndsFor (Some (SearchFor search.now)) (see files.old out.old) (see files.new out.new) result }
{
    match find(alloc, search, files) {
        Ok(found) => match report_alone(alloc, search, found, out) {
            Ok(status) => status,
            Err(_) => once_written(put_out_of_memory(out), 8),
        },
        Err(stop) => put_stop(searched_name(search, file_of(&stop)), &stop, out),
    }
}

/// Serves a search that was left for several workers, or with a log of their steps. It may wait.
pub fn run_shared<W: Threads + Wait + Sync, F: Files, K: Sink, G: Gate + Sync>(
    rt: &W,
    alloc: Global,
    search: &Search,
    files: &mut F,
    out: &mut K,
    gate: &G,
) -> u8
    requires { IsWithin search.now }
    ensures { let see = seen F.held F.faults F.last K.taken K.faults in EndsFor (Some (SearchFor search.now)) (see files.old out.old) (see files.new out.new) result }
{
    match find(alloc, search, files) {
        Ok(found) => match report_shared(rt, alloc, search, found, gate, out) {
            Ok(status) => status,
            Err(_) => once_written(put_out_of_memory(out), 8),
        },
        Err(stop) => put_stop(searched_name(search, file_of(&stop)), &stop, out),
    }
}
