// The words of a call, run once each way.

use kr_args::command;
use kr_args::forms::{ArgRefusal, Ask, Command, Pool, Search};
use kr_base::{Bound, Words};
use std::alloc::Global;
use std::test::Fail;

fn push_words(words: &mut Words, line: &str) -> Result<(), Fail> {
    if line.is_empty() {
        return Ok(());
    }
    for word in line.split(' ') {
        words.push(word)?;
    }
    Ok(())
}

/// The words of a line; none of the empty one.
fn words_of(alloc: Global, line: &str) -> Result<Words, Fail> {
    let mut words = Words::new(alloc);
    push_words(&mut words, line)?;
    Ok(words)
}

fn pool_name(pool: Pool) -> &'static str {
    match pool {
        Pool::Board => "board",
        Pool::Deque => "deque",
    }
}

fn is_end(bound: &Bound) -> bool {
    match bound {
        Bound::End => true,
        Bound::At(_) => false,
    }
}

/// The options of a listing or a test, in one line.
fn shown_ask(alloc: Global, name: &str, ask: &Ask) -> Result<String, Fail> {
    let fin = ask.fin.as_str();
    let sources = ask.sources.len();
    let from = ask.from.numbers();
    let limit = ask.limit;
    let workers = ask.workers;
    let window = ask.window;
    let pool = pool_name(ask.pool);
    let trace = ask.trace;
    Ok(match &ask.to {
        Bound::End => {
            format!(in alloc;
                "{name} {fin} {sources} {from:?} end {limit} {workers} {window} {pool} {trace}"
            )?
        }
        Bound::At(cut) => {
            format!(in alloc;
                "{name} {fin} {sources} {from:?} {:?} {limit} {workers} {window} {pool} {trace}",
                cut.numbers()
            )?
        }
    })
}

/// A command, or why there is none, in one line.
fn shown(alloc: Global, answer: &Result<Command, ArgRefusal>) -> Result<String, Fail> {
    match answer {
        Ok(Command::Search(Search::List(ask))) => shown_ask(alloc, "list", ask),
        Ok(Command::Search(Search::Test { method, ask })) => shown_ask(alloc, method.as_str(), ask),
        Ok(Command::Check { fin, sources }) => {
            let fin = fin.as_str();
            let count = sources.len();
            Ok(format!(in alloc; "check {fin} {count}")?)
        }
        Ok(Command::Search(Search::Demo { n, workers })) => Ok(format!(in alloc;
            "demo {n} {workers}"
        )?),
        Ok(Command::Search(Search::Shard(ask))) => shown_ask(alloc, "shard", ask),
        Ok(Command::Search(Search::Emit(ask))) => shown_ask(alloc, "emit", ask),
        Ok(Command::Merge(names)) => {
            let count = names.len();
            Ok(format!(in alloc; "merge {count}")?)
        }
        Ok(Command::Upgrade(fin)) => {
            let fin = fin.as_str();
            Ok(format!(in alloc; "upgrade {fin}")?)
        }
        Ok(
            Command::Trace {
                file,
                from,
                to,
                workers,
            },
        ) => {
            let file = file.as_str();
            let from = from.numbers();
            let is_whole = is_end(to);
            Ok(format!(in alloc; "trace {file} {from:?} {is_whole} {workers}")?)
        }
        Err(ArgRefusal::Usage) => Ok(String::from_str(alloc, "usage")?),
        Err(ArgRefusal::NoMemory(_)) => Ok(String::from_str(alloc, "memory")?),
    }
}

/// Whether an answer is shown so.
fn is_shown(
    alloc: Global,
    answer: &Result<Command, ArgRefusal>,
    wanted: &str,
) -> Result<bool, Fail> {
    let text = shown(alloc, answer)?;
    Ok(text.as_str() == wanted)
}

/// Whether these words give this answer.
fn is_answered(alloc: Global, words: &Words, wanted: &str) -> Result<bool, Fail> {
    let answer = command(alloc, words);
    is_shown(alloc, &answer, wanted)
}

/// Whether the words of a line are this command.
fn is_command(alloc: Global, line: &str, wanted: &str) -> Result<bool, Fail> {
    let words = words_of(alloc, line)?;
    is_answered(alloc, &words, wanted)
}

#[test]
fn commands(rt: HostRuntime) -> Result<(), Fail> {
    for (line, wanted) in [
        ("list f a", "list f 1 [] end 4294967295 1 4096 board false"),
        (
            "list --to=1 f a b --from 0.2 --limit 7",
            "list f 2 [0, 2] [1] 7 1 4096 board false",
        ),
        ("check f a b", "check f 2"),
        ("demo 5", "demo 5 1"),
        ("demo 05", "usage"),
        ("", "usage"),
        ("list f a --from 01", "usage"),
        ("list f a --limit 1 b", "usage"),
        (
            "test f m a --from 0.2 --workers 64 --window 7 --trace",
            "m f 1 [0, 2] end 4294967295 64 7 board true",
        ),
        (
            "list f a --workers 3 --pool deque",
            "list f 1 [] end 4294967295 3 4096 deque false",
        ),
        ("list f a --window 0", "usage"),
        ("list f a --window 65537", "usage"),
        ("list f a --pool heap", "usage"),
        ("list f a --pool deque --trace", "usage"),
        ("test f a", "usage"),
        ("demo 5 --workers 65", "usage"),
        (
            "shard f a --to 1 --workers 2",
            "shard f 1 [] [1] 4294967295 2 4096 board false",
        ),
        ("shard f a --from 1 --to 1", "usage"),
        ("merge s2 s1", "merge 2"),
        ("upgrade f", "upgrade f"),
        ("trace f --from 1 --workers 3", "trace f [1] true 3"),
        (
            "emit f a b --from 1 --limit 2",
            "emit f 2 [1] end 2 1 4096 board false",
        ),
        ("emit f a --workers 2", "usage"),
        ("emit f", "usage"),
    ] {
        assert!(rt; is_command(rt.alloc(), line, wanted)?, "{line}");
    }
    Ok(())
}
