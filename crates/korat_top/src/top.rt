// The call.
ghost use Rattle.std.specs.Prelude.{Some};
ghost use Rattle.kr_args.specs.Sources.{HasSources};
ghost use Rattle.kr_args.specs.Workers.{HasWorkers};
ghost use Rattle.korat_top.specs.Answer.{asked_of};
ghost use Rattle.korat_top.specs.Ends.{EndsFor, IsComplete, seen};
ghost use Rattle.korat_top.specs.OneWorker.{IfEnded, IfShared, IsLeft, IsWithin};

use crate::alone::Alone;
use crate::check::serve_check;
use crate::merge::serve_merge;
use crate::search::{run_shared, search_alone};
use crate::trace::serve_trace;
use crate::upgrade::serve_upgrade;
use korat_top_reports::is_alone;
use kr_args::command;
use kr_args::forms::{ArgRefusal, Command, Search};
use kr_base::{Sink, Span, Words};
use kr_io::{Files, Gate};
use kr_report::{once_written, put_out_of_memory, put_usage_fault};
use std::alloc::Global;
use std::sync::Wait;
use std::thread::Threads;

/// Serves a search, where one worker does.
fn serve_search<F: Files, K: Sink>(
    alloc: Global,
    search: Search,
    files: &mut F,
    out: &mut K,
) -> Alone
    requires { HasSources (Command.Search search) }
    ensures headline { let see = seen F.held F.faults F.last K.taken K.faults in IfEnded result (λ status. EndsFor (Some (Command.Search search)) (see files.old out.old) (see files.new out.new) status) }
    ensures left { IsLeft (Some (Command.Search search)) files.old files.new out.old out.new result }
{
    if is_alone(&search) {
        Alone::Ended(search_alone(alloc, &search, files, out))
    } else {
        Alone::Shared(search)
    }
}

/// Serves a command, where one worker does.
fn serve<F: Files, K: Sink>(alloc: Global, command: Command, files: &mut F, out: &mut K) -> Alone
    requires sources { HasSources command }
    requires workers { HasWorkers command }
    ensures headline { let see = seen F.held F.faults F.last K.taken K.faults in IfEnded result (λ status. EndsFor (Some command) (see files.old out.old) (see files.new out.new) status) }
    ensures left { IsLeft (Some command) files.old files.new out.old out.new result }
{
    match command {
        Command::Search(search) => serve_search(alloc, search, files, out),
        Command::Check { fin, sources } => {
            Alone::Ended(serve_check(alloc, &fin, &sources, files, out))
        }
        Command::Merge(names) => Alone::Ended(serve_merge(alloc, &names, files, out)),
        Command::Upgrade(fin) => Alone::Ended(serve_upgrade(alloc, &fin, files, out)),
        Command::Trace {
            file,
            from,
            to,
            workers,
        } => {
            let span = Span {
                after: from,
                upto: to,
            };
            Alone::Ended(serve_trace(alloc, &file, &span, workers, files, out))
        }
    }
}

/// What one worker does of a call: all of it, unless the words ask for several workers or for a log of their steps. It waits for
/// nobody.
pub fn run_alone<F: Files, K: Sink>(
    alloc: Global,
    words: &Words,
    files: &mut F,
    out: &mut K,
) -> Alone
    ensures headline { let see = seen F.held F.faults F.last K.taken K.faults in IfEnded result (λ status. EndsFor (asked_of words.now) (see files.old out.old) (see files.new out.new) status) }
    ensures complete { let see = seen F.held F.faults F.last K.taken K.faults in IfEnded result (λ status. IsComplete (asked_of words.now) (see files.old out.old) (see files.new out.new) status) }
    ensures left { IsLeft (asked_of words.now) files.old files.new out.old out.new result }
    ensures within { IfShared result IsWithin }
{
    match command(alloc, words) {
        Ok(asked) => serve(alloc, asked, files, out),
        Err(ArgRefusal::Usage) => Alone::Ended(once_written(put_usage_fault(out), 2)),
        Err(ArgRefusal::NoMemory(_)) => Alone::Ended(once_written(put_out_of_memory(out), 8)),
    }
}

/// All that the program does: it serves the words, which are without the program's own name, and returns the status to
/// end with. It may wait only where `run_alone` leaves a search for several workers.
pub fn run<W: Threads + Wait + Sync, F: Files, K: Sink, G: Gate + Sync>(
    rt: &W,
    alloc: Global,
    words: &Words,
    files: &mut F,
    out: &mut K,
    gate: &G,
) -> u8
    ensures headline { let see = seen F.held F.faults F.last K.taken K.faults in EndsFor (asked_of words.now) (see files.old out.old) (see files.new out.new) result }
    ensures complete { let see = seen F.held F.faults F.last K.taken K.faults in IsComplete (asked_of words.now) (see files.old out.old) (see files.new out.new) result }
{
    match run_alone(alloc, words, files, out) {
        Alone::Ended(status) => status,
        Alone::Shared(search) => run_shared(rt, alloc, &search, files, out, gate),
    }
}
