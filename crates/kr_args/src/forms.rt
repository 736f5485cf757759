// The commands of the program.
ghost use Rattle.std.specs.Prelude.{◌≡◌, IfOk};
ghost use Rattle.kr_args.specs.declared.forms.ArgRefusal.TheVariants.{NoMemory as Lacking};

use kr_base::{Bound, Cut, NoMemory, Words};
use std::alloc::Global;
use std::marker::Model;
use thiserror::Error;

/// A word of the command line, as the name of a file or of a method. Contracts see its bytes.
#[derive(Drop)]
pub struct Word {
    text: String,
}

impl Model for Word {
    ghost use Rattle.std.specs.Prelude.{List, ℕ, string_bytes};

    ghost Value = { List ℕ };

    ghost view = { λ word. string_bytes word.text };
}

impl Word {
    pub fn of(alloc: Global, text: &str) -> Result<Word, NoMemory>
        ensures { IfOk result (λ word. word ≡ text.now) }
    {
        Ok(Word {
            text: String::from_str(alloc, text)?,
        })
    }

    pub fn as_str(&self) -> &str
        ensures { result.now ≡ self.now }
    {
        self.text.as_str()
    }
}

/// How a listing is shared among workers.
#[derive(Clone, Copy, Debug, PartialEq, Eq)]
pub enum Pool {
    /// A board of segments, whose rows are written within a window.
    Board,
    /// Deques of spans, whose rows are kept until the end.
    Deque,
}

/// The options of a listing or a test: its files, the keys above `from` and not above `to`, the limit on valid entries,
/// the number of workers, the window, how work is shared, and whether the steps of sharing are listed.
#[derive(Drop)]
pub struct Ask {
    pub fin: Word,
    pub sources: Words,
    pub from: Cut,
    pub to: Bound,
    pub limit: u32,
    pub workers: u32,
    pub window: u32,
    pub pool: Pool,
    pub trace: bool,
}

/// A command that searches the problem that its files, or the demo's texts, pose.
#[derive(Drop)]
pub enum Search {
    /// `list FIN SOURCE..`
    List(Ask),
    /// `test FIN METHOD SOURCE..`
    Test { method: Word, ask: Ask },
    /// `demo N`
    Demo { n: u32, workers: u32 },
    /// `shard FIN SOURCE..`
    Shard(Ask),
    /// `emit FIN SOURCE..`
    Emit(Ask),
}

/// A command of the program.
#[derive(Drop)]
pub enum Command {
    Search(Search),
    /// `check FIN SOURCE..`
    Check {
        fin: Word,
        sources: Words,
    },
    /// `merge FILE..`
    Merge(Words),
    /// `upgrade FIN`
    Upgrade(Word),
    /// `trace FILE`, with the span and the number of workers of the listing that it is checked as
    Trace {
        file: Word,
        from: Cut,
        to: Bound,
        workers: u32,
    },
}

/// The refusal of words that have no command.
#[derive(Clone, Copy, Debug, PartialEq, Eq, Error)]
pub enum ArgRefusal {
    #[error("the words give no command")]
    Usage,
    #[error("out of memory")]
    NoMemory(NoMemory),
}

impl From<NoMemory> for ArgRefusal {
    ghost from_gives = { λ why refusal. refusal ≡ Lacking why };

    fn from(why: NoMemory) -> ArgRefusal {
        ArgRefusal::NoMemory(why)
    }
}
