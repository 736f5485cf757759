// The kinds of tokens that the parser distinguishes.
ghost use Rattle.std.specs.Prelude.{◌≡◌};
ghost use Rattle.kr_parse_grammar.specs.Terminals.{terminal_of};

use kr_lex::Kind;

/// Tokens that the grammar treats alike. `End` comes after the last token.
#[derive(Clone, Copy, PartialEq, Eq)]
pub enum Terminal {
    End,
    Identifier,
    /// numbers, `true`, `false`, `null`, `this` and `\result`
    Literal,
    /// `int` and `boolean`
    Primitive,
    /// `public`, `protected` and `private`
    Access,
    Static,
    Final,
    Package,
    Import,
    Class,
    Extends,
    Void,
    New,
    Super,
    Instanceof,
    Return,
    Break,
    Continue,
    If,
    Else,
    While,
    Do,
    For,
    Throw,
    Try,
    Catch,
    LeftParenthesis,
    RightParenthesis,
    LeftBrace,
    RightBrace,
    LeftBracket,
    RightBracket,
    Semicolon,
    Comma,
    Dot,
    At,
    Question,
    Colon,
    Equal,
    /// assignments with an operator
    Compound,
    Less,
    Greater,
    Star,
    /// `+` and `-`
    Sign,
    /// `++` and `--`
    Step,
    /// `~` and `!`
    Complement,
    Or,
    And,
    BitOr,
    BitXor,
    BitAnd,
    /// `==` and `!=`
    Equality,
    /// `<=` and `>=`
    Relation,
    /// `<<`, `>>` and `>>>`
    Shift,
    /// `/` and `%`
    Division,
    /// `//@`, before `requires`, `ensures` or `signals`
    Contract,
    Requires,
    Ensures,
    Signals,
    /// `\old`
    Old,
    /// keywords that the language doesn't use
    Outside,
}

/// The terminal of a kind of token.
pub fn terminal_of(kind: Kind) -> Terminal
    ensures { result ≡ terminal_of kind }
{
    match kind {
        Kind::Identifier => Terminal::Identifier,
        Kind::Number
        | Kind::LongNumber
        | Kind::True
        | Kind::False
        | Kind::Null
        | Kind::This
        | Kind::Result => Terminal::Literal,
        Kind::Boolean | Kind::Int | Kind::Long => Terminal::Primitive,
        Kind::Break => Terminal::Break,
        Kind::Catch => Terminal::Catch,
        Kind::Class => Terminal::Class,
        Kind::Continue => Terminal::Continue,
        Kind::Do => Terminal::Do,
        Kind::Else => Terminal::Else,
        Kind::Extends => Terminal::Extends,
        Kind::Final => Terminal::Final,
        Kind::For => Terminal::For,
        Kind::If => Terminal::If,
        Kind::Import => Terminal::Import,
        Kind::Instanceof => Terminal::Instanceof,
        Kind::New => Terminal::New,
        Kind::Package => Terminal::Package,
        Kind::Private | Kind::Protected | Kind::Public => Terminal::Access,
        Kind::Return => Terminal::Return,
        Kind::Static => Terminal::Static,
        Kind::Super => Terminal::Super,
        Kind::Throw => Terminal::Throw,
        Kind::Try => Terminal::Try,
        Kind::Void => Terminal::Void,
        Kind::While => Terminal::While,
        Kind::Abstract
        | Kind::Assert
        | Kind::Byte
        | Kind::Case
        | Kind::Char
        | Kind::Const
        | Kind::Default
        | Kind::Double
        | Kind::Enum
        | Kind::Finally
        | Kind::Float
        | Kind::Goto
        | Kind::Implements
        | Kind::Interface
        | Kind::Native
        | Kind::Short
        | Kind::Strictfp
        | Kind::Switch
        | Kind::Synchronized
        | Kind::Throws
        | Kind::Transient
        | Kind::Volatile => Terminal::Outside,
        Kind::Contract => Terminal::Contract,
        Kind::Requires => Terminal::Requires,
        Kind::Ensures => Terminal::Ensures,
        Kind::Signals => Terminal::Signals,
        Kind::Old => Terminal::Old,
        Kind::LeftParenthesis => Terminal::LeftParenthesis,
        Kind::RightParenthesis => Terminal::RightParenthesis,
        Kind::LeftBrace => Terminal::LeftBrace,
        Kind::RightBrace => Terminal::RightBrace,
        Kind::LeftBracket => Terminal::LeftBracket,
        Kind::RightBracket => Terminal::RightBracket,
        Kind::Semicolon => Terminal::Semicolon,
        Kind::Comma => Terminal::Comma,
        Kind::Dot => Terminal::Dot,
        Kind::At => Terminal::At,
        Kind::Equal => Terminal::Equal,
        Kind::Greater => Terminal::Greater,
        Kind::Less => Terminal::Less,
        Kind::Exclamation | Kind::Tilde => Terminal::Complement,
        Kind::Question => Terminal::Question,
        Kind::Colon => Terminal::Colon,
        Kind::EqualEqual | Kind::ExclamationEqual => Terminal::Equality,
        Kind::GreaterEqual | Kind::LessEqual => Terminal::Relation,
        Kind::AmpersandAmpersand => Terminal::And,
        Kind::BarBar => Terminal::Or,
        Kind::PlusPlus | Kind::MinusMinus => Terminal::Step,
        Kind::Plus | Kind::Minus => Terminal::Sign,
        Kind::Star => Terminal::Star,
        Kind::Slash | Kind::Percent => Terminal::Division,
        Kind::Ampersand => Terminal::BitAnd,
        Kind::Bar => Terminal::BitOr,
        Kind::Caret => Terminal::BitXor,
        Kind::LessLess | Kind::GreaterGreater | Kind::GreaterGreaterGreater => Terminal::Shift,
        Kind::PlusEqual
        | Kind::MinusEqual
        | Kind::StarEqual
        | Kind::SlashEqual
        | Kind::AmpersandEqual
        | Kind::BarEqual
        | Kind::CaretEqual
        | Kind::PercentEqual
        | Kind::LessLessEqual
        | Kind::GreaterGreaterEqual
        | Kind::GreaterGreaterGreaterEqual => Terminal::Compound,
    }
}
