// The kinds of token, and the spelling of those that have only one.
ghost use Rattle.std.specs.Prelude.{◌≡◌};
ghost use Rattle.kr_lex.specs.Spelling.{is_outside_profile};

/// The kind of a token (Java Language Specification 3.8 to 3.12).
#[derive(Clone, Copy, PartialEq, Eq)]
pub enum Kind {
    // names and literals
    Identifier,
    Number,
    LongNumber,
    True,
    False,
    Null,

    // keywords that the language uses
    Boolean,
    Break,
    Catch,
    Class,
    Continue,
    Do,
    Else,
    Extends,
    Final,
    For,
    If,
    Import,
    Instanceof,
    Int,
    Long,
    New,
    Package,
    Private,
    Protected,
    Public,
    Return,
    Static,
    Super,
    This,
    Throw,
    Try,
    Void,
    While,

    // keywords of Java that are outside the language
    Abstract,
    Assert,
    Byte,
    Case,
    Char,
    Const,
    Default,
    Double,
    Enum,
    Finally,
    Float,
    Goto,
    Implements,
    Interface,
    Native,
    Short,
    Strictfp,
    Switch,
    Synchronized,
    Throws,
    Transient,
    Volatile,

    // separators
    LeftParenthesis,
    RightParenthesis,
    LeftBrace,
    RightBrace,
    LeftBracket,
    RightBracket,
    Semicolon,
    Comma,
    Dot,
    At,

    // operators
    Equal,
    Greater,
    Less,
    Exclamation,
    Tilde,
    Question,
    Colon,
    EqualEqual,
    GreaterEqual,
    LessEqual,
    ExclamationEqual,
    AmpersandAmpersand,
    BarBar,
    PlusPlus,
    MinusMinus,
    Plus,
    Minus,
    Star,
    Slash,
    Ampersand,
    Bar,
    Caret,
    Percent,
    LessLess,
    GreaterGreater,
    GreaterGreaterGreater,
    PlusEqual,
    MinusEqual,
    StarEqual,
    SlashEqual,
    AmpersandEqual,
    BarEqual,
    CaretEqual,
    PercentEqual,
    LessLessEqual,
    GreaterGreaterEqual,
    GreaterGreaterGreaterEqual,

    // in contract lines only: `//@`, the word after it, `\result` and `\old`
    Contract,
    Requires,
    Ensures,
    Signals,
    Result,
    Old,
}

impl Kind {
    /// Whether it is a keyword of Java that is outside the language.
    #[tactic(auto, unfolding(crate::specs::Spelling::is_outside_profile))]
    pub fn is_outside_profile(self) -> bool
        ensures { result ≡ is_outside_profile self }
    {
        match self {
            Kind::Abstract
            | Kind::Assert
            | Kind::Byte
            | Kind::Case
            | Kind::Char
            | Kind::Const
            | Kind::Default
            | Kind::Double
            | Kind::Enum
            | Kind::Finally
            | Kind::Float
            | Kind::Goto
            | Kind::Implements
            | Kind::Interface
            | Kind::Native
            | Kind::Short
            | Kind::Strictfp
            | Kind::Switch
            | Kind::Synchronized
            | Kind::Throws
            | Kind::Transient
            | Kind::Volatile => true,
            _ => false,
        }
    }
}
