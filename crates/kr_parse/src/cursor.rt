// The parser's position among the tokens.
ghost use Rattle.std.specs.Prelude.{◌≡◌, ◌+◌, ◌<◌, true, false, IfOk, IfErr, length, drop};
ghost use Rattle.kr_parse_grammar.specs.Terminals.{terminal_of};
ghost use Rattle.kr_parse_grammar.specs.Machine.{ahead, spelling};
ghost use Rattle.kr_parse.specs.Refusals.{is_opening, is_closing, token_at, IsViable, IsRefusal};
ghost use Rattle.kr_parse.specs.Steps.{IsAsked, depth_behind, IsStanding, IsLeast};

use crate::refusal::{ParseRefusal, ParseRule};
use kr_lex::{Kind, Tokens};
use kr_parse_grammar::{Spelled, Symbol, Terminal, terminal_of};

/// How many brackets may be open.
pub(crate) const OPEN_BRACKETS: u32 = 64;

/// The index of the next token, the number of open brackets before it, and its terminal: `End` after the last token.
#[derive(Clone, Copy)]
pub(crate) struct Cursor {
    pub(crate) at: usize,
    pub(crate) depth: u32,
    pub(crate) next: Terminal,
}

/// The terminal at an index, `End` after the last token.
fn ahead(tokens: &Tokens, at: usize) -> Terminal
    ensures { result ≡ ahead (drop at tokens.now.list) }
{
    if at < tokens.len() {
        terminal_of(tokens.kind(at))
    } else {
        Terminal::End
    }
}

/// The refusal at a token with which no derivable file continues.
#[cold]
#[inline(never)]
pub(crate) fn dead(tokens: &Tokens, at: usize) -> ParseRefusal
    requires { IsLeast tokens.now at }
    ensures { IsRefusal tokens.now result }
{
    if at >= tokens.len() {
        return ParseRefusal::Broken {
            place: tokens.end(),
            rule: ParseRule::Syntax,
        };
    }
    match terminal_of(tokens.kind(at)) {
        Terminal::Outside => ParseRefusal::Broken {
            place: tokens.place(at),
            rule: ParseRule::Unsupported,
        },
        _ => ParseRefusal::Broken {
            place: tokens.place(at),
            rule: ParseRule::Syntax,
        },
    }
}

fn spelling(spelled: Spelled) -> &'static [u8]
    ensures { result.now ≡ spelling spelled }
{
    match spelled {
        Spelled::Java => b"java",
        Spelled::Util => b"util",
        Spelled::Override => b"Override",
    }
}

fn is_opening(kind: Kind) -> bool
    ensures { result ≡ is_opening kind }
{
    matches!(
        kind,
        Kind::LeftParenthesis | Kind::LeftBrace | Kind::LeftBracket
    )
}

fn is_closing(kind: Kind) -> bool
    ensures { result ≡ is_closing kind }
{
    matches!(
        kind,
        Kind::RightParenthesis | Kind::RightBrace | Kind::RightBracket
    )
}

/// The number of open brackets after a token.
fn depth_behind(kind: Kind, depth: u32) -> u32
    requires { is_opening kind ≡ true → depth < 64 }
    ensures { result ≡ depth_behind kind depth }
{
    if is_opening(kind) {
        return depth + 1;
    }
    if is_closing(kind) {
        return depth.saturating_sub(1);
    }
    depth
}

impl Cursor {
    /// Before the first token.
    pub(crate) fn start(tokens: &Tokens) -> Cursor
        ensures first { result.at ≡ 0 }
        ensures standing { IsStanding tokens.now result }
    {
        Cursor {
            at: 0,
            depth: 0,
            next: ahead(tokens, 0),
        }
    }

    /// Whether a token of a kind is ahead.
    fn is_at(self, tokens: &Tokens, terminal: Terminal) -> bool
        requires { IsStanding tokens.now self }
        ensures yes { result ≡ true → (self.at < length tokens.now.list) × (terminal_of (token_at tokens.now self.at).kind ≡ terminal) }
        ensures no { result ≡ false → self.at < length tokens.now.list → terminal_of (token_at tokens.now self.at).kind ≡ terminal → ⊥ }
    {
        self.at < tokens.len() && self.next == terminal
    }

    /// Whether an identifier of a spelling is ahead.
    #[inline(never)]
    fn is_spelled(self, tokens: &Tokens, spelled: Spelled) -> bool
        requires { IsStanding tokens.now self }
        ensures yes { result ≡ true → (self.at < length tokens.now.list) × IsAsked (Symbol.Spell spelled) (token_at tokens.now self.at) }
        ensures no { result ≡ false → self.at < length tokens.now.list → IsAsked (Symbol.Spell spelled) (token_at tokens.now self.at) → ⊥ }
    {
        self.is_at(tokens, Terminal::Identifier) && tokens.text(self.at) == spelling(spelled)
    }

    /// Whether a token that the symbol asks for is ahead.
    pub(crate) fn is_expected(self, tokens: &Tokens, symbol: Symbol) -> bool
        requires { IsStanding tokens.now self }
        ensures yes { result ≡ true → (self.at < length tokens.now.list) × IsAsked symbol (token_at tokens.now self.at) }
        ensures no { result ≡ false → self.at < length tokens.now.list → IsAsked symbol (token_at tokens.now self.at) → ⊥ }
    {
        match symbol {
            Symbol::Take(terminal) | Symbol::Keep(terminal) => self.is_at(tokens, terminal),
            Symbol::Word => self.is_at(tokens, Terminal::Identifier),
            Symbol::Literal => self.is_at(tokens, Terminal::Literal),
            Symbol::Spell(spelled) => self.is_spelled(tokens, spelled),
            Symbol::Want(_) | Symbol::Build(_) => false,
        }
    }

    /// Steps over the token ahead, with which some derivable file continues.
    pub(crate) fn step(&mut self, tokens: &Tokens) -> Result<(), ParseRefusal>
        requires within { self.old.at < length tokens.now.list }
        requires standing { IsStanding tokens.now self.old }
        requires viable { IsViable tokens.now.list (self.old.at + 1) }
        ensures onward { IfOk result (λ none. self.new.at ≡ self.old.at + 1) }
        ensures standing { IfOk result (λ none. IsStanding tokens.now self.new) }
        ensures refused { IfErr result (λ refusal. IsRefusal tokens.now refusal) }
    {
        prove!(self.at < tokens.len());
        let kind = tokens.kind(self.at);
        if self.depth >= OPEN_BRACKETS && is_opening(kind) {
            return Err(ParseRefusal::Broken {
                place: tokens.place(self.at),
                rule: ParseRule::TooNested,
            });
        }
        self.depth = depth_behind(kind, self.depth);
        self.at += 1;
        self.next = ahead(tokens, self.at);
        Ok(())
    }
}
