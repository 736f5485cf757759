// Why no tree was found.
ghost use Rattle.std.specs.Prelude.{◌≡◌};
ghost use Rattle.kr_parse.specs.Rules.{rule_code};

use kr_base::RefusalAt;

/// A rule of the grammar, by what breaks it.
#[derive(Clone, Copy, PartialEq, Eq)]
pub enum ParseRule {
    /// P1: a token with which no derivable file continues; the end of input counts as the last token.
    Syntax,
    /// P2: likewise, where it is a keyword that the language doesn't use.
    Unsupported,
    /// P3: an opening bracket with 64 others open.
    TooNested,
}

impl ParseRule {
    /// The rule's code, as `P1`.
    pub fn code(self) -> &'static str
        ensures { result.now ≡ rule_code self }
    {
        match self {
            ParseRule::Syntax => "P1",
            ParseRule::Unsupported => "P2",
            ParseRule::TooNested => "P3",
        }
    }
}

/// The tokens were refused: they break a rule of the grammar at a place, or memory was refused.
pub type ParseRefusal = RefusalAt<ParseRule>;
