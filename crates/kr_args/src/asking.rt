// The command, from the matches of `clap`.
ghost use Rattle.std.specs.Prelude.{◌≡◌, ◌≢◌, Some, None, IfOk, MatchResult, option_and_then};
ghost use Rattle.clap.specs.Words.{kind_of, subcommand_rows_of, found_of, rows_of, first_of, all_of};
ghost use Rattle.clap.specs.declared.error.ErrorKind.TheVariants.{OutOfMemory};
ghost use Rattle.kr_args.specs.Reading.{number_in, text_in, texts_in, files_in, range_in, sharing_in, plain_sharing_in, ask_with, ask_in, list_in, test_in, check_in, demo_in, span_in, shard_in, alone_sharing, emit_in, merge_in, upgrade_in, trace_in, named_in, command_in, command_of};
ghost use Rattle.kr_args.specs.Sources.{HasSources};
ghost use Rattle.kr_args.specs.Workers.{HasWorkers};

use crate::definition::whole_definition;
use crate::forms::{ArgRefusal, Ask, Command, Pool, Search, Word};
use crate::values::{
    read_files, read_flag, read_from, read_limit, read_number, read_pool, read_to, read_window,
    read_word, read_words, read_workers,
};
use clap::error::ErrorKind;
use clap::{ArgMatches, Error};
use kr_base::{Bound, Cut, NoMemory, Words};
use std::alloc::Global;

/// The first value of an argument.
fn text_of<'a>(matches: &ArgMatches<'a>, id: &str) -> Option<&'a str>
    ensures { text_in result ≡ first_of id.now (rows_of (found_of matches.now)) }
{
    matches.get_str(id)
}

/// The values of an argument.
fn texts_of<'m, 'a>(matches: &'m ArgMatches<'a>, id: &str) -> Option<&'m [&'a str]>
    ensures { texts_in result ≡ all_of id.now (rows_of (found_of matches.now)) }
{
    matches.get_strs(id)
}

fn read_sources(alloc: Global, matches: &ArgMatches<'_>) -> Result<(Word, Words), ArgRefusal>
    ensures { let wanted = files_in (rows_of (found_of matches.now)) in
        MatchResult result (λ files. wanted ≡ Some files) (λ e. e ≡ ArgRefusal.Usage → wanted ≡ None) }
{
    read_files(alloc, text_of(matches, "fin"), texts_of(matches, "source"))
}

/// The range of a listing.
#[derive(Drop)]
struct Range {
    from: Cut,
    to: Bound,
    limit: u32,
}

fn read_range(alloc: Global, matches: &ArgMatches<'_>) -> Result<Range, ArgRefusal>
    ensures { let wanted = range_in (rows_of (found_of matches.now)) in
        MatchResult result (λ range. wanted ≡ Some (range.from, range.to, range.limit)) (λ e. e ≡ ArgRefusal.Usage → wanted ≡ None) }
{
    let from = read_from(alloc, text_of(matches, "from"))?;
    let to = read_to(alloc, text_of(matches, "to"))?;
    let limit = read_limit(text_of(matches, "limit"))?;
    Ok(Range { from, to, limit })
}

/// How a listing is shared among workers.
#[derive(Clone, Copy)]
struct Sharing {
    workers: u32,
    window: u32,
    pool: Pool,
    trace: bool,
}

fn read_sharing(matches: &ArgMatches<'_>) -> Result<Sharing, ArgRefusal>
    ensures { let wanted = sharing_in (rows_of (found_of matches.now)) in
        MatchResult result (λ s. wanted ≡ Some (s.workers, s.window, s.pool, s.trace)) (λ e. wanted ≡ None) }
{
    let given = text_of(matches, "window");
    let trace = read_flag(text_of(matches, "trace"));
    let workers = read_workers(text_of(matches, "workers"))?;
    let window = read_window(given)?;
    let pool = read_pool(given, trace, text_of(matches, "pool"))?;
    Ok(Sharing {
        workers,
        window,
        pool,
        trace,
    })
}

fn ask_of(fin: Word, sources: Words, range: Range, sharing: Sharing) -> Ask
    ensures { Some result ≡ ask_with (Some (fin, sources)) (Some (range.from, range.to, range.limit)) (Some (sharing.workers, sharing.window, sharing.pool, sharing.trace)) }
{
    Ask {
        fin,
        sources,
        from: range.from,
        to: range.to,
        limit: range.limit,
        workers: sharing.workers,
        window: sharing.window,
        pool: sharing.pool,
        trace: sharing.trace,
    }
}

fn read_ask(alloc: Global, matches: &ArgMatches<'_>) -> Result<Ask, ArgRefusal>
    ensures { let wanted = ask_in (rows_of (found_of matches.now)) in
        MatchResult result (λ ask. wanted ≡ Some ask) (λ e. e ≡ ArgRefusal.Usage → wanted ≡ None) }
{
    let sharing = read_sharing(matches)?;
    let range = read_range(alloc, matches)?;
    let (fin, sources) = read_sources(alloc, matches)?;
    Ok(ask_of(fin, sources, range, sharing))
}

fn read_list(alloc: Global, matches: &ArgMatches<'_>) -> Result<Command, ArgRefusal>
    ensures { let wanted = list_in (rows_of (found_of matches.now)) in
        MatchResult result (λ command. wanted ≡ Some command) (λ e. e ≡ ArgRefusal.Usage → wanted ≡ None) }
{
    Ok(Command::Search(Search::List(read_ask(alloc, matches)?)))
}

fn read_test(alloc: Global, matches: &ArgMatches<'_>) -> Result<Command, ArgRefusal>
    ensures { let wanted = test_in (rows_of (found_of matches.now)) in
        MatchResult result (λ command. wanted ≡ Some command) (λ e. e ≡ ArgRefusal.Usage → wanted ≡ None) }
{
    let method = read_word(alloc, text_of(matches, "method"))?;
    let ask = read_ask(alloc, matches)?;
    Ok(Command::Search(Search::Test { method, ask }))
}

fn read_check(alloc: Global, matches: &ArgMatches<'_>) -> Result<Command, ArgRefusal>
    ensures { let wanted = check_in (rows_of (found_of matches.now)) in
        MatchResult result (λ command. wanted ≡ Some command) (λ e. e ≡ ArgRefusal.Usage → wanted ≡ None) }
{
    let (fin, sources) = read_sources(alloc, matches)?;
    Ok(Command::Check { fin, sources })
}

fn read_nodes(nodes: Option<&str>) -> Result<u32, ArgRefusal>
    ensures { let wanted = option_and_then (number_in 1 12) (text_in nodes.entry) in
        MatchResult result (λ n. wanted ≡ Some n) (λ e. wanted ≡ None) }
{
    let Some(nodes) = nodes else {
        return Err(ArgRefusal::Usage);
    };
    match read_number(1, 12, nodes) {
        Some(n) => Ok(n),
        None => Err(ArgRefusal::Usage),
    }
}

fn read_demo(matches: &ArgMatches<'_>) -> Result<Command, ArgRefusal>
    ensures { let wanted = demo_in (rows_of (found_of matches.now)) in
        MatchResult result (λ command. wanted ≡ Some command) (λ e. wanted ≡ None) }
{
    let n = read_nodes(text_of(matches, "nodes"))?;
    let workers = read_workers(text_of(matches, "workers"))?;
    Ok(Command::Search(Search::Demo { n, workers }))
}

fn read_span(alloc: Global, matches: &ArgMatches<'_>) -> Result<Range, ArgRefusal>
    ensures { let wanted = span_in (rows_of (found_of matches.now)) in
        MatchResult result (λ range. wanted ≡ Some (range.from, range.to, range.limit)) (λ e. e ≡ ArgRefusal.Usage → wanted ≡ None) }
{
    let from = read_from(alloc, text_of(matches, "from"))?;
    let to = read_to(alloc, text_of(matches, "to"))?;
    if to.is_above_cut(&from) {
        Ok(Range {
            from,
            to,
            limit: u32::MAX,
        })
    } else {
        Err(ArgRefusal::Usage)
    }
}

fn read_plain_sharing(matches: &ArgMatches<'_>) -> Result<Sharing, ArgRefusal>
    ensures { let wanted = plain_sharing_in (rows_of (found_of matches.now)) in
        MatchResult result (λ s. wanted ≡ Some (s.workers, s.window, s.pool, s.trace)) (λ e. wanted ≡ None) }
{
    let workers = read_workers(text_of(matches, "workers"))?;
    let window = read_window(None)?;
    Ok(Sharing {
        workers,
        window,
        pool: Pool::Board,
        trace: false,
    })
}

fn read_shard(alloc: Global, matches: &ArgMatches<'_>) -> Result<Command, ArgRefusal>
    ensures { let wanted = shard_in (rows_of (found_of matches.now)) in
        MatchResult result (λ command. wanted ≡ Some command) (λ e. e ≡ ArgRefusal.Usage → wanted ≡ None) }
{
    let sharing = read_plain_sharing(matches)?;
    let range = read_span(alloc, matches)?;
    let (fin, sources) = read_sources(alloc, matches)?;
    Ok(Command::Search(Search::Shard(ask_of(fin, sources, range, sharing))))
}

/// One worker, who lists no steps.
fn alone() -> Sharing
    ensures { (result.workers, result.window, result.pool, result.trace) ≡ alone_sharing }
{
    Sharing {
        workers: 1,
        window: 4096,
        pool: Pool::Board,
        trace: false,
    }
}

fn read_emit(alloc: Global, matches: &ArgMatches<'_>) -> Result<Command, ArgRefusal>
    ensures { let wanted = emit_in (rows_of (found_of matches.now)) in
        MatchResult result (λ command. wanted ≡ Some command) (λ e. e ≡ ArgRefusal.Usage → wanted ≡ None) }
{
    let range = read_range(alloc, matches)?;
    let (fin, sources) = read_sources(alloc, matches)?;
    Ok(Command::Search(Search::Emit(ask_of(fin, sources, range, alone()))))
}

fn read_merge(alloc: Global, matches: &ArgMatches<'_>) -> Result<Command, ArgRefusal>
    ensures { let wanted = merge_in (rows_of (found_of matches.now)) in
        MatchResult result (λ command. wanted ≡ Some command) (λ e. e ≡ ArgRefusal.Usage → wanted ≡ None) }
{
    Ok(Command::Merge(read_words(alloc, texts_of(matches, "file"))?))
}

fn read_upgrade(alloc: Global, matches: &ArgMatches<'_>) -> Result<Command, ArgRefusal>
    ensures { let wanted = upgrade_in (rows_of (found_of matches.now)) in
        MatchResult result (λ command. wanted ≡ Some command) (λ e. e ≡ ArgRefusal.Usage → wanted ≡ None) }
{
    Ok(Command::Upgrade(read_word(alloc, text_of(matches, "fin"))?))
}

fn read_trace(alloc: Global, matches: &ArgMatches<'_>) -> Result<Command, ArgRefusal>
    ensures { let wanted = trace_in (rows_of (found_of matches.now)) in
        MatchResult result (λ command. wanted ≡ Some command) (λ e. e ≡ ArgRefusal.Usage → wanted ≡ None) }
{
    let workers = read_workers(text_of(matches, "workers"))?;
    let from = read_from(alloc, text_of(matches, "from"))?;
    let to = read_to(alloc, text_of(matches, "to"))?;
    let file = read_word(alloc, text_of(matches, "file"))?;
    Ok(Command::Trace {
        file,
        from,
        to,
        workers,
    })
}

/// The command with this name and these matches.
fn read_named(alloc: Global, name: &str, matches: &ArgMatches<'_>) -> Result<Command, ArgRefusal>
    ensures { let wanted = named_in name.now (rows_of (found_of matches.now)) in
        MatchResult result (λ command. wanted ≡ Some command) (λ e. e ≡ ArgRefusal.Usage → wanted ≡ None) }
{
    if name == "list" {
        read_list(alloc, matches)
    } else if name == "test" {
        read_test(alloc, matches)
    } else if name == "check" {
        read_check(alloc, matches)
    } else if name == "demo" {
        read_demo(matches)
    } else if name == "shard" {
        read_shard(alloc, matches)
    } else if name == "merge" {
        read_merge(alloc, matches)
    } else if name == "upgrade" {
        read_upgrade(alloc, matches)
    } else if name == "trace" {
        read_trace(alloc, matches)
    } else if name == "emit" {
        read_emit(alloc, matches)
    } else {
        Err(ArgRefusal::Usage)
    }
}

fn read_command(alloc: Global, matches: &ArgMatches<'_>) -> Result<Command, ArgRefusal>
    ensures { let wanted = command_in (subcommand_rows_of matches.now) in
        MatchResult result (λ command. wanted ≡ Some command) (λ e. e ≡ ArgRefusal.Usage → wanted ≡ None) }
{
    match matches.subcommand() {
        Some((name, inner)) => read_named(alloc, name, inner),
        None => Err(ArgRefusal::Usage),
    }
}

/// Out of memory, as `clap` reports it.
fn lacking(kind: ErrorKind) -> NoMemory
    requires { kind ≡ OutOfMemory }
{
    prove!(kind == ErrorKind::OutOfMemory);
    NoMemory::reported()
}

fn refusal_of(error: &Error) -> ArgRefusal
    ensures { result ≡ ArgRefusal.Usage → kind_of error.now ≢ OutOfMemory }
{
    let kind = error.kind();
    if kind == ErrorKind::OutOfMemory {
        ArgRefusal::NoMemory(lacking(kind))
    } else {
        ArgRefusal::Usage
    }
}

/// The command of some words, by clap's own meaning of the definition. The words don't include the program's name.
pub fn command(alloc: Global, words: &Words) -> Result<Command, ArgRefusal>
    ensures means { let wanted = command_of words.now in
        MatchResult result (λ command. wanted ≡ Some command) (λ e. e ≡ ArgRefusal.Usage → wanted ≡ None) }
    ensures sources { IfOk result HasSources }
    ensures workers { IfOk result HasWorkers }
{
    let definition = whole_definition(alloc)?;
    match definition.try_get_matches_from(words.texts()) {
        Ok(matches) => read_command(alloc, &matches),
        Err(error) => Err(refusal_of(&error)),
    }
}
