// What a file of the call is refused with, and why the work for a command stops.
ghost use Rattle.std.specs.Prelude.{◌≡◌};
ghost use Rattle.korat_top_files.specs.Refusals.{refusal_of};
ghost use Rattle.korat_top_files.specs.Found.{StopsAt, StopsImpure, StopsOf};
ghost use Rattle.korat_top_files.specs.declared.refusal.Stop.TheVariants.{Memory};

use crate::rules::{CallRule, ItemRule, SourceRule};
use kr_base::{ItemName, NoMemory, Place, RefusalAt, RefusalOf};
use kr_pure::PureRefusal;
use kr_types_judging::TypingRule;

/// A file of the call.
#[derive(Clone, Copy)]
pub enum InputFile {
    Finitization,
    /// The source of this number, from 0.
    Source(u32),
}

/// A file breaks a rule. A place says in which source it is.
#[derive(Drop)]
pub enum Refusal {
    /// A source, a rule of this code.
    Source { place: Place, rule: &'static str },
    /// A node of a source, a typing rule.
    Node { place: Place, rule: TypingRule },
    /// An item of the finitization, a rule of this code.
    Finitization { rule: &'static str, item: ItemName },
}

impl Refusal {
    /// The file that is refused.
    pub fn file(&self) -> InputFile
        ensures { result ≡ (refusal_of self.now).file }
    {
        match self {
            Refusal::Source { place, .. } => InputFile::Source(place.file),
            Refusal::Node { place, .. } => InputFile::Source(place.file),
            Refusal::Finitization { .. } => InputFile::Finitization,
        }
    }
}

/// Why the work for a command stops.
#[derive(Drop)]
pub enum Stop {
    /// The file was not read.
    Read(InputFile),
    Refused(Refusal),
    Memory(NoMemory),
}

impl From<NoMemory> for Stop {
    ghost from_gives = { λ why stop. stop ≡ Memory why };

    fn from(why: NoMemory) -> Self {
        Stop::Memory(why)
    }
}

impl<R: SourceRule> From<RefusalAt<R>> for Stop {
    ghost from_gives = { λ refusal stop. StopsAt R.code refusal stop };

    fn from(refusal: RefusalAt<R>) -> Self {
        match refusal {
            RefusalAt::Broken { place, rule } => Stop::Refused(rule.at(place)),
            RefusalAt::NoMemory(why) => Stop::Memory(why),
        }
    }
}

impl<R: ItemRule> From<RefusalOf<R>> for Stop {
    ghost from_gives = { λ refusal stop. StopsOf R.code refusal stop };

    fn from(refusal: RefusalOf<R>) -> Self {
        match refusal {
            RefusalOf::Broken(fault) => Stop::Refused(fault.rule.of(fault.item)),
            RefusalOf::NoMemory(why) => Stop::Memory(why),
        }
    }
}

impl From<PureRefusal> for Stop {
    ghost from_gives = { StopsImpure };

    fn from(refusal: PureRefusal) -> Self {
        match refusal {
            PureRefusal::Impure { place } => Stop::Refused(CallRule::Impure.at(place)),
            PureRefusal::NoMemory(why) => Stop::Memory(why),
        }
    }
}
