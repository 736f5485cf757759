// What the program does with what it was given for words.
ghost use Rattle.std.specs.Prelude.{◌≡◌, Err, IfOk, IfErr};
ghost use Rattle.std.specs.declared.io.ErrorKind.TheVariants.{OutOfMemory};
ghost use Rattle.korat_top.specs.Ends.{seen};
ghost use Rattle.korat_top.specs.OneWorker.{IfShared, IsWithin};
ghost use Rattle.korat_top.specs.Starts.{IsGiven, WhyNone, Starts};
ghost use Rattle.korat_top.specs.declared.given.NoWords.TheVariants.{Memory as Lacking};

use crate::alone::Alone;
use crate::top::run_alone;
use kr_base::{NoMemory, Sink, Words};
use kr_io::Files;
use std::alloc::Global;
use std::env::Args;
use std::io;

/// Why the program has no words.
#[derive(Clone, Copy, PartialEq, Eq)]
pub enum NoWords {
    /// One of them isn't text.
    NotText,
    Memory(NoMemory),
}

impl From<NoMemory> for NoWords {
    ghost from_gives = { λ why none. none ≡ Lacking why };

    fn from(why: NoMemory) -> NoWords {
        NoWords::Memory(why)
    }
}

/// A refusal of memory that the system reports.
fn lacking(kind: io::ErrorKind) -> NoMemory
    requires { kind ≡ OutOfMemory }
{
    prove!(kind == io::ErrorKind::OutOfMemory);
    NoMemory::reported()
}

/// Why there are no words, where the system has an error for them.
fn no_words(error: &io::Error) -> NoWords
    ensures { WhyNone (Err error.now) result }
{
    let kind = error.kind();
    if kind == io::ErrorKind::OutOfMemory {
        NoWords::Memory(lacking(kind))
    } else {
        NoWords::NotText
    }
}

/// The words after the program's own name, of all words that the system gives.
pub fn words_of(alloc: Global, given: io::Result<Args>) -> Result<Words, NoWords>
    ensures words { IfOk result (λ words. IsGiven given words) }
    ensures none { IfErr result (WhyNone given) }
{
    let mut all = match given {
        Ok(all) => all,
        Err(error) => return Err(no_words(&error)),
    };
    let _ = all.next();
    let mut words = Words::new(alloc);
    for word in all {
        words.push(word.as_str())?;
    }
    Ok(words)
}

/// Serves the words that the program was given, where one worker does. Words that aren't text are no command. Where there is no
/// memory for them, nothing is read or written.
pub fn start<F: Files, K: Sink>(
    alloc: Global,
    words: Result<Words, NoWords>,
    files: &mut F,
    out: &mut K,
) -> Alone
    ensures starts { Starts (seen F.held F.faults F.last K.taken K.faults) words files.old files.new out.old out.new result }
    ensures within { IfShared result IsWithin }
{
    match words {
        Ok(words) => run_alone(alloc, &words, files, out),
        Err(NoWords::NotText) => run_alone(alloc, &Words::new(alloc), files, out),
        Err(NoWords::Memory(_)) => Alone::Ended(8),
    }
}
