// The rules that files break, and the refusals that come of them.
ghost use Rattle.std.specs.Prelude.{◌≡◌, List, ℕ};
ghost use Rattle.kr_lex.specs.Rules.{rule_code as lex_code};
ghost use Rattle.kr_parse.specs.Rules.{rule_code as parse_code};
ghost use Rattle.kr_classes.specs.Refusals.{rule_code as class_code};
ghost use Rattle.kr_fin.specs.Order.{rule_code as fin_code};
ghost use Rattle.kr_space_meaning.specs.Order.{rule_code as space_code};
ghost use Rattle.korat_top_files.specs.Refusals.{at_place, call_code, of_finitization, refusal_of, typing_code};

use crate::refusal::Refusal;
use kr_base::{ItemName, Place};
use kr_classes::ClassRule;
use kr_fin::FinRule;
use kr_lex::LexRule;
use kr_parse::ParseRule;
use kr_space_meaning::SpaceRule;
use kr_types_judging::TypingRule;

/// A rule that a source breaks at a place.
pub trait SourceRule: Copy {
    ghost code: { Self → List ℕ };

    fn at(self, place: Place) -> Refusal
        ensures { refusal_of result ≡ at_place place (code self) };
}

/// A rule that an item of the finitization breaks.
pub trait ItemRule: Copy {
    ghost code: { Self → List ℕ };

    fn of(self, item: ItemName) -> Refusal
        ensures { refusal_of result ≡ of_finitization (code self) item };
}

/// A rule that no crate below has a code for.
#[derive(Clone, Copy)]
pub enum CallRule {
    /// B1: a source that is longer than a file may be.
    LongSource,
    /// I1: a predicate that doesn't leave the candidates alone.
    Impure,
    /// E1: a class whose objects no builder can create.
    Construction,
    /// E2: a class that takes the name or the number of the builders' class.
    ClassName,
}

impl SourceRule for CallRule {
    ghost code = { call_code };

    fn at(self, place: Place) -> Refusal {
        let rule = match self {
            CallRule::LongSource => "B1",
            CallRule::Impure => "I1",
            CallRule::Construction => "E1",
            CallRule::ClassName => "E2",
        };
        Refusal::Source { place, rule }
    }
}

impl SourceRule for LexRule {
    ghost code = { lex_code };

    fn at(self, place: Place) -> Refusal {
        let rule = self.code();
        Refusal::Source { place, rule }
    }
}

impl SourceRule for ParseRule {
    ghost code = { parse_code };

    fn at(self, place: Place) -> Refusal {
        let rule = self.code();
        Refusal::Source { place, rule }
    }
}

impl SourceRule for ClassRule {
    ghost code = { class_code };

    fn at(self, place: Place) -> Refusal {
        let rule = self.code();
        Refusal::Source { place, rule }
    }
}

impl SourceRule for TypingRule {
    ghost code = { typing_code };

    fn at(self, place: Place) -> Refusal {
        Refusal::Node { place, rule: self }
    }
}

impl ItemRule for FinRule {
    ghost code = { fin_code };

    fn of(self, item: ItemName) -> Refusal {
        let rule = self.code();
        Refusal::Finitization { rule, item }
    }
}

impl ItemRule for SpaceRule {
    ghost code = { space_code };

    fn of(self, item: ItemName) -> Refusal {
        let rule = self.code();
        Refusal::Finitization { rule, item }
    }
}
