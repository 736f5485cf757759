// Why a text is no traced listing.
ghost use Rattle.std.specs.Prelude.{◌≡◌};
ghost use Rattle.kr_trace.specs.Codes.{rule_code};
ghost use Rattle.kr_trace.specs.declared.refusal.TraceRefusal.TheVariants.{NoMemory as Lacking};

use kr_base::NoMemory;

/// A rule of traced listings, by what breaks it.
#[derive(Clone, Copy, PartialEq, Eq)]
pub enum TraceRule {
    /// K0: longer than 16 MiB.
    TooLong,
    /// K1: a line that has no form where it is.
    NoForm,
    /// K2: a row whose key isn't above the one before, or isn't in the span.
    KeyOrder,
    /// K3: an event that doesn't fit those before it, or isn't by one of the workers.
    NoStep,
    /// K4: a report of other rows than were written.
    OtherRows,
    /// K5: a segment has an owner or a remainder after all events.
    Unfinished,
    /// K6: a last line that doesn't say what rows and events say.
    OtherEnding,
}

impl TraceRule {
    /// The rule's code, as `K1`.
    pub fn code(self) -> &'static str
        ensures { result.now ≡ rule_code self }
    {
        match self {
            TraceRule::TooLong => "K0",
            TraceRule::NoForm => "K1",
            TraceRule::KeyOrder => "K2",
            TraceRule::NoStep => "K3",
            TraceRule::OtherRows => "K4",
            TraceRule::Unfinished => "K5",
            TraceRule::OtherEnding => "K6",
        }
    }
}

/// The line and the rule that a text breaks first. Lines are counted from 1.
#[derive(Clone, Copy, PartialEq, Eq)]
pub struct Fault {
    pub line: u64,
    pub rule: TraceRule,
}

/// A text is no traced listing, or memory was refused.
#[derive(Clone, Copy, PartialEq, Eq)]
pub enum TraceRefusal {
    Bad(Fault),
    NoMemory(NoMemory),
}

impl From<NoMemory> for TraceRefusal {
    ghost from_gives = { λ why refusal. refusal ≡ Lacking why };

    fn from(why: NoMemory) -> TraceRefusal {
        TraceRefusal::NoMemory(why)
    }
}
