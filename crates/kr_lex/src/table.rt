// The spellings of tokens that have only one, and the table to look them up.
ghost use Rattle.std.specs.Prelude.{◌≡◌};
ghost use Rattle.kr_lex.specs.Spelling.{spelling};
ghost use Rattle.kr_lex.specs.Table.{beginning_with, from_exclamation, from_semicolon, from_a, from_l};

use crate::Kind;

/// The spelling of a kind; empty for names, numbers, and kinds that occur only in contract lines.
#[tactic(auto, unfolding(crate::specs::Spelling::spelling))]
pub fn spelling(kind: Kind) -> &'static [u8]
    ensures { result.now ≡ spelling kind }
{
    match kind {
        Kind::Identifier | Kind::Number | Kind::LongNumber => b"",
        Kind::True => b"true",
        Kind::False => b"false",
        Kind::Null => b"null",
        Kind::Boolean => b"boolean",
        Kind::Break => b"break",
        Kind::Catch => b"catch",
        Kind::Class => b"class",
        Kind::Continue => b"continue",
        Kind::Do => b"do",
        Kind::Else => b"else",
        Kind::Extends => b"extends",
        Kind::Final => b"final",
        Kind::For => b"for",
        Kind::If => b"if",
        Kind::Import => b"import",
        Kind::Instanceof => b"instanceof",
        Kind::Int => b"int",
        Kind::New => b"new",
        Kind::Package => b"package",
        Kind::Private => b"private",
        Kind::Protected => b"protected",
        Kind::Public => b"public",
        Kind::Return => b"return",
        Kind::Static => b"static",
        Kind::Super => b"super",
        Kind::This => b"this",
        Kind::Throw => b"throw",
        Kind::Try => b"try",
        Kind::Void => b"void",
        Kind::While => b"while",
        Kind::Abstract => b"abstract",
        Kind::Assert => b"assert",
        Kind::Byte => b"byte",
        Kind::Case => b"case",
        Kind::Char => b"char",
        Kind::Const => b"const",
        Kind::Default => b"default",
        Kind::Double => b"double",
        Kind::Enum => b"enum",
        Kind::Finally => b"finally",
        Kind::Float => b"float",
        Kind::Goto => b"goto",
        Kind::Implements => b"implements",
        Kind::Interface => b"interface",
        Kind::Long => b"long",
        Kind::Native => b"native",
        Kind::Short => b"short",
        Kind::Strictfp => b"strictfp",
        Kind::Switch => b"switch",
        Kind::Synchronized => b"synchronized",
        Kind::Throws => b"throws",
        Kind::Transient => b"transient",
        Kind::Volatile => b"volatile",
        Kind::LeftParenthesis => b"(",
        Kind::RightParenthesis => b")",
        Kind::LeftBrace => b"{",
        Kind::RightBrace => b"}",
        Kind::LeftBracket => b"[",
        Kind::RightBracket => b"]",
        Kind::Semicolon => b";",
        Kind::Comma => b",",
        Kind::Dot => b".",
        Kind::At => b"@",
        Kind::Equal => b"=",
        Kind::Greater => b">",
        Kind::Less => b"<",
        Kind::Exclamation => b"!",
        Kind::Tilde => b"~",
        Kind::Question => b"?",
        Kind::Colon => b":",
        Kind::EqualEqual => b"==",
        Kind::GreaterEqual => b">=",
        Kind::LessEqual => b"<=",
        Kind::ExclamationEqual => b"!=",
        Kind::AmpersandAmpersand => b"&&",
        Kind::BarBar => b"||",
        Kind::PlusPlus => b"++",
        Kind::MinusMinus => b"--",
        Kind::Plus => b"+",
        Kind::Minus => b"-",
        Kind::Star => b"*",
        Kind::Slash => b"/",
        Kind::Ampersand => b"&",
        Kind::Bar => b"|",
        Kind::Caret => b"^",
        Kind::Percent => b"%",
        Kind::LessLess => b"<<",
        Kind::GreaterGreater => b">>",
        Kind::GreaterGreaterGreater => b">>>",
        Kind::PlusEqual => b"+=",
        Kind::MinusEqual => b"-=",
        Kind::StarEqual => b"*=",
        Kind::SlashEqual => b"/=",
        Kind::AmpersandEqual => b"&=",
        Kind::BarEqual => b"|=",
        Kind::CaretEqual => b"^=",
        Kind::PercentEqual => b"%=",
        Kind::LessLessEqual => b"<<=",
        Kind::GreaterGreaterEqual => b">>=",
        Kind::GreaterGreaterGreaterEqual => b">>>=",
        Kind::Contract
        | Kind::Requires
        | Kind::Ensures
        | Kind::Signals
        | Kind::Result
        | Kind::Old => b"",
    }
}

/// The kinds whose spelling begins with a byte below `;`.
fn from_exclamation(first: u8) -> &'static [Kind]
    ensures { result.now ≡ from_exclamation first }
{
    match first {
        b'!' => &[Kind::ExclamationEqual, Kind::Exclamation],
        b'%' => &[Kind::PercentEqual, Kind::Percent],
        b'&' => &[
            Kind::AmpersandAmpersand,
            Kind::AmpersandEqual,
            Kind::Ampersand,
        ],
        b'(' => &[Kind::LeftParenthesis],
        b')' => &[Kind::RightParenthesis],
        b'*' => &[Kind::StarEqual, Kind::Star],
        b'+' => &[Kind::PlusPlus, Kind::PlusEqual, Kind::Plus],
        b',' => &[Kind::Comma],
        b'-' => &[Kind::MinusMinus, Kind::MinusEqual, Kind::Minus],
        b'.' => &[Kind::Dot],
        b'/' => &[Kind::SlashEqual, Kind::Slash],
        b':' => &[Kind::Colon],
        _ => &[],
    }
}

/// The kinds whose spelling begins with a byte from `;` to `^`.
fn from_semicolon(first: u8) -> &'static [Kind]
    ensures { result.now ≡ from_semicolon first }
{
    match first {
        b';' => &[Kind::Semicolon],
        b'<' => &[
            Kind::LessLessEqual,
            Kind::LessLess,
            Kind::LessEqual,
            Kind::Less,
        ],
        b'=' => &[Kind::EqualEqual, Kind::Equal],
        b'>' => &[
            Kind::GreaterGreaterGreaterEqual,
            Kind::GreaterGreaterEqual,
            Kind::GreaterGreaterGreater,
            Kind::GreaterEqual,
            Kind::GreaterGreater,
            Kind::Greater,
        ],
        b'?' => &[Kind::Question],
        b'@' => &[Kind::At],
        b'[' => &[Kind::LeftBracket],
        b']' => &[Kind::RightBracket],
        b'^' => &[Kind::CaretEqual, Kind::Caret],
        _ => &[],
    }
}

/// The kinds whose spelling begins with a letter from `a` to `i`.
fn from_a(first: u8) -> &'static [Kind]
    ensures { result.now ≡ from_a first }
{
    match first {
        b'a' => &[Kind::Abstract, Kind::Assert],
        b'b' => &[Kind::Boolean, Kind::Break, Kind::Byte],
        b'c' => &[
            Kind::Continue,
            Kind::Catch,
            Kind::Class,
            Kind::Const,
            Kind::Case,
            Kind::Char,
        ],
        b'd' => &[Kind::Default, Kind::Double, Kind::Do],
        b'e' => &[Kind::Extends, Kind::Else, Kind::Enum],
        b'f' => &[
            Kind::Finally,
            Kind::False,
            Kind::Final,
            Kind::Float,
            Kind::For,
        ],
        b'g' => &[Kind::Goto],
        b'i' => &[
            Kind::Implements,
            Kind::Instanceof,
            Kind::Interface,
            Kind::Import,
            Kind::Int,
            Kind::If,
        ],
        _ => &[],
    }
}

/// The kinds whose spelling begins with a byte from `l` on.
fn from_l(first: u8) -> &'static [Kind]
    ensures { result.now ≡ from_l first }
{
    match first {
        b'l' => &[Kind::Long],
        b'n' => &[Kind::Native, Kind::Null, Kind::New],
        b'p' => &[Kind::Protected, Kind::Package, Kind::Private, Kind::Public],
        b'r' => &[Kind::Return],
        b's' => &[
            Kind::Synchronized,
            Kind::Strictfp,
            Kind::Static,
            Kind::Switch,
            Kind::Short,
            Kind::Super,
        ],
        b't' => &[
            Kind::Transient,
            Kind::Throws,
            Kind::Throw,
            Kind::This,
            Kind::True,
            Kind::Try,
        ],
        b'v' => &[Kind::Volatile, Kind::Void],
        b'w' => &[Kind::While],
        b'{' => &[Kind::LeftBrace],
        b'|' => &[Kind::BarEqual, Kind::BarBar, Kind::Bar],
        b'}' => &[Kind::RightBrace],
        b'~' => &[Kind::Tilde],
        _ => &[],
    }
}

/// The kinds with a fixed spelling that begins with this byte, longer ones first.
#[tactic(auto, unfolding(crate::specs::Table::beginning_with))]
pub(crate) fn beginning_with(first: u8) -> &'static [Kind]
    ensures { result.now ≡ beginning_with first }
{
    if first < b';' {
        from_exclamation(first)
    } else if first < b'a' {
        from_semicolon(first)
    } else if first < b'l' {
        from_a(first)
    } else {
        from_l(first)
    }
}
