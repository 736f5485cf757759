// The refusal of a source that is no list of tokens.
ghost use Rattle.std.specs.Prelude.{◌≡◌};
ghost use Rattle.kr_lex.specs.Rules.{rule_code};

use kr_base::RefusalAt;

/// A lexical rule, named by its violation.
#[derive(Clone, Copy, PartialEq, Eq)]
pub enum LexRule {
    /// L1: bytes that are not UTF-8.
    NotUtf8,
    /// L2: a character that begins no token.
    StrayCharacter,
    /// L3: a comment that is never closed.
    UnclosedComment,
    /// L4: a number that isn't decimal, has a leading zero, or is past 2147483648, or 9223372036854775808 before `L`.
    BadNumber,
    /// L5: a backslash before `u` outside a comment.
    UnicodeEscape,
    /// L6: a contract line with another word, without a semicolon at its end, or with a `/*`.
    ContractLine,
}

impl LexRule {
    /// The rule's code, as `L1`.
    pub fn code(self) -> &'static str
        ensures { result.now ≡ rule_code self }
    {
        match self {
            LexRule::NotUtf8 => "L1",
            LexRule::StrayCharacter => "L2",
            LexRule::UnclosedComment => "L3",
            LexRule::BadNumber => "L4",
            LexRule::UnicodeEscape => "L5",
            LexRule::ContractLine => "L6",
        }
    }
}

/// The refusal of a source: a lexical rule broken at a place, or out of memory.
pub type LexRefusal = RefusalAt<LexRule>;
