// The parser: takes the tokens one by one, looking at the next one alone.
ghost use Rattle.std.specs.Prelude.{◌≡◌, ◌+◌, ◌*◌, ◌-◌, ◌<◌, ◌≤◌, ◌∷◌, [], List, ℕ, IfOk, IfErr, length};
ghost use Rattle.kr_ast.specs.Arena.{root, parts, names, tree_of};
ghost use Rattle.kr_ast.specs.Tree.{Tree as SyntaxTree, size};
ghost use Rattle.kr_parse_grammar.specs.Grammar.{Derives};
ghost use Rattle.kr_parse_grammar.specs.Made.{literal};
ghost use Rattle.kr_parse_grammar.specs.State.{State, load};
ghost use Rattle.kr_parse.specs.Refusals.{IsRefusal, IsShallow, token_at};
ghost use Rattle.kr_parse_trees.specs.Built.{values_of, IsBuilt};
ghost use Rattle.kr_parse.specs.Steps.{AreLaws, kept_of, IsStanding};

use crate::cursor::{Cursor, dead};
use crate::refusal::ParseRefusal;
use crate::stack::Stack;
use kr_ast::{Node, Tree};
use kr_base::NoMemory;
use kr_lex::{Kind, Tokens};
use kr_parse_grammar::{Goal, Infix, Symbol, after_operand, rule};
use kr_parse_laws::{completeness, productivity, small_trees, soundness};
use kr_parse_trees::Builder;
use std::alloc::Global;

/// The theorems on the grammar and its machine, for the parser's proofs. It does nothing.
fn laws()
    ensures { AreLaws }
{
    soundness();
    completeness();
    small_trees();
    productivity();
}

/// Replaces a goal by the symbols of its rule.
fn expand(
    tokens: &Tokens,
    cursor: Cursor,
    goal: Goal,
    stack: &mut Stack,
    builder: &Builder,
) -> Result<(), ParseRefusal>
    requires standing { IsStanding tokens.now cursor }
    requires built { IsBuilt builder.now }
    requires state { State tokens.now.list cursor.at (Symbol.Want goal ∷ stack.old) (values_of builder.now) }
    ensures state { IfOk result (λ none. State tokens.now.list cursor.at stack.new (values_of builder.now)) }
    ensures falls { IfOk result (λ none. load stack.new < load (Symbol.Want goal ∷ stack.old)) }
    ensures refused { IfErr result (λ refusal. IsRefusal tokens.now refusal) }
{
    laws();
    let next = cursor.next;
    match goal {
        Goal::Operators { least, most } => match after_operand(least, most, next) {
            Infix::Dead => Err(dead(tokens, cursor.at)),
            Infix::Ends => Ok(()),
            Infix::Tests(body) => {
                stack.push_all(&body)?;
                Ok(())
            }
            Infix::Operates(body) => {
                stack.push_all(&body)?;
                Ok(())
            }
        },
        _ => match rule(goal, next, builder.tag()) {
            None => Err(dead(tokens, cursor.at)),
            Some(body) => {
                stack.push_all(body)?;
                Ok(())
            }
        },
    }
}

/// The node of a literal.
fn literal(tokens: &Tokens, at: usize) -> Node
    requires { at < length tokens.now.list }
    ensures alone { parts result ≡ [] }
    ensures nameless { names result ≡ [] }
    ensures shown { (text : List ℕ) (look : ℕ → SyntaxTree) → tree_of text look (token_at tokens.now at).place result ≡ literal (token_at tokens.now at) }
{
    match tokens.kind(at) {
        Kind::Number => Node::Number {
            value: tokens.value(at),
        },
        Kind::LongNumber => Node::LongNumber {
            value: tokens.long_value(at),
        },
        Kind::True => Node::Truth { value: true },
        Kind::False => Node::Truth { value: false },
        Kind::Null => Node::Null,
        Kind::Result => Node::Result,
        _ => Node::This,
    }
}

/// Keeps the token ahead as the value that the symbol asks for.
fn keep(tokens: &Tokens, at: usize, symbol: Symbol, builder: &mut Builder) -> Result<(), NoMemory>
    requires within { at < length tokens.now.list }
    requires built { IsBuilt builder.old }
    ensures built { IfOk result (λ none. IsBuilt builder.new) }
    ensures shown { IfOk result (λ none. values_of builder.new ≡ kept_of symbol (token_at tokens.now at) (values_of builder.old)) }
{
    let place = tokens.place(at);
    match symbol {
        Symbol::Keep(_) => builder.keep_mark(tokens.kind(at), place),
        Symbol::Word => builder.keep_word(place, tokens.text(at)),
        Symbol::Literal => builder.put_leaf(place, literal(tokens, at)),
        Symbol::Take(_) | Symbol::Spell(_) | Symbol::Want(_) | Symbol::Build(_) => Ok(()),
    }
}

/// Processes one symbol, which was popped from the stack.
#[inline(always)]
fn advance(
    tokens: &Tokens,
    cursor: &mut Cursor,
    symbol: Symbol,
    stack: &mut Stack,
    builder: &mut Builder,
) -> Result<(), ParseRefusal>
    requires standing { IsStanding tokens.now cursor.old }
    requires built { IsBuilt builder.old }
    requires state { State tokens.now.list cursor.old.at (symbol ∷ stack.old) (values_of builder.old) }
    ensures standing { IfOk result (λ none. IsStanding tokens.now cursor.new) }
    ensures built { IfOk result (λ none. IsBuilt builder.new) }
    ensures state { IfOk result (λ none. State tokens.now.list cursor.new.at stack.new (values_of builder.new)) }
    ensures falls { IfOk result (λ none. load stack.new + 100 * (length tokens.now.list - cursor.new.at) < load (symbol ∷ stack.old) + 100 * (length tokens.now.list - cursor.old.at)) }
    ensures refused { IfErr result (λ refusal. IsRefusal tokens.now refusal) }
{
    laws();
    match symbol {
        Symbol::Want(goal) => {
            expand(tokens, *cursor, goal, stack, builder)?;
            Ok(())
        }
        Symbol::Build(make) => {
            builder.build(make)?;
            Ok(())
        }
        Symbol::Take(_) | Symbol::Keep(_) | Symbol::Word | Symbol::Literal | Symbol::Spell(_) => {
            let at = cursor.at;
            if !cursor.is_expected(tokens, symbol) {
                return Err(dead(tokens, at));
            }
            cursor.step(tokens)?;
            keep(tokens, at, symbol, builder)?;
            Ok(())
        }
    }
}

/// The tree that the tokens derive; or the first token with which no derivable file continues, or that opens too many
/// brackets.
pub fn parse(alloc: Global, tokens: &Tokens) -> Result<Tree, ParseRefusal>
    ensures derived { IfOk result (λ tree. Derives tokens.now.list (root tree)) }
    ensures shallow { IfOk result (λ tree. IsShallow tokens.now (length tokens.now.list)) }
    ensures small { IfOk result (λ tree. length tree.entries ≤ 3 * length tokens.now.list + 1) }
    ensures whole { IfOk result (λ tree. length tree.entries ≡ size (root tree)) }
    ensures refused { IfErr result (λ refusal. IsRefusal tokens.now refusal) }
{
    laws();
    let mut stack = Stack::new(alloc);
    let mut builder = Builder::new(alloc);
    let mut cursor = Cursor::start(tokens);
    stack.push(Symbol::Want(Goal::File))?;
    while let Some(symbol) = stack.pop() {
        advance(tokens, &mut cursor, symbol, &mut stack, &mut builder)?;
    }
    if cursor.at < tokens.len() {
        return Err(dead(tokens, cursor.at));
    }
    Ok(builder.finish())
}
