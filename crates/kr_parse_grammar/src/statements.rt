// The rules for types, locals and statements.
ghost use Rattle.kr_parse_grammar.specs.declared.terminal.Terminal.{Terminal};
ghost use Rattle.kr_parse_grammar.specs.declared.value.Tag.{Tag};
ghost use Rattle.kr_parse_grammar.specs.Machine.{rule};
ghost use Rattle.kr_parse_grammar.specs.RuleTable.{IsRule};

use crate::goal::{Goal, Make, Symbol};
use crate::terminal::Terminal;
use crate::value::Tag;

pub(crate) fn type_ahead(next: Terminal) -> Option<&'static [Symbol]>
    ensures { (tag : Tag) → IsRule result (rule Goal.Type next tag) }
{
    match next {
        Terminal::Primitive => Some(&[
            Symbol::Keep(Terminal::Primitive),
            Symbol::Build(Make::TypeOfMark),
            Symbol::Want(Goal::Dimensions),
        ]),
        Terminal::Identifier => Some(&[Symbol::Word, Symbol::Want(Goal::TypeName)]),
        _ => None,
    }
}

pub(crate) fn type_name(next: Terminal) -> Option<&'static [Symbol]>
    ensures { (tag : Tag) → IsRule result (rule Goal.TypeName next tag) }
{
    match next {
        Terminal::Dot => Some(&[
            Symbol::Take(Terminal::Dot),
            Symbol::Word,
            Symbol::Build(Make::Pair),
            Symbol::Want(Goal::TypeTail),
        ]),
        _ => Some(&[Symbol::Want(Goal::TypeTail)]),
    }
}

pub(crate) fn type_tail(next: Terminal) -> Option<&'static [Symbol]>
    ensures { (tag : Tag) → IsRule result (rule Goal.TypeTail next tag) }
{
    match next {
        Terminal::Less => Some(&[
            Symbol::Take(Terminal::Less),
            Symbol::Want(Goal::Type),
            Symbol::Take(Terminal::Greater),
            Symbol::Build(Make::Generic),
            Symbol::Want(Goal::Dimensions),
        ]),
        _ => Some(&[
            Symbol::Build(Make::TypeOfName),
            Symbol::Want(Goal::Dimensions),
        ]),
    }
}

pub(crate) fn dimensions(next: Terminal) -> Option<&'static [Symbol]>
    ensures { (tag : Tag) → IsRule result (rule Goal.Dimensions next tag) }
{
    match next {
        Terminal::LeftBracket => Some(&[
            Symbol::Take(Terminal::LeftBracket),
            Symbol::Take(Terminal::RightBracket),
            Symbol::Build(Make::Array),
            Symbol::Want(Goal::Dimensions),
        ]),
        _ => Some(&[]),
    }
}

pub(crate) fn initialiser(next: Terminal) -> Option<&'static [Symbol]>
    ensures { (tag : Tag) → IsRule result (rule Goal.Initialiser next tag) }
{
    match next {
        Terminal::Equal => Some(&[
            Symbol::Take(Terminal::Equal),
            Symbol::Want(Goal::Expression),
        ]),
        _ => Some(&[Symbol::Build(Make::Nil)]),
    }
}

pub(crate) fn more_declarators(next: Terminal) -> Option<&'static [Symbol]>
    ensures { (tag : Tag) → IsRule result (rule Goal.MoreDeclarators next tag) }
{
    match next {
        Terminal::Comma => Some(&[
            Symbol::Take(Terminal::Comma),
            Symbol::Word,
            Symbol::Want(Goal::Initialiser),
            Symbol::Build(Make::Declarator),
            Symbol::Want(Goal::MoreDeclarators),
            Symbol::Build(Make::Cons),
        ]),
        _ => Some(&[Symbol::Build(Make::Nil), Symbol::Build(Make::Cons)]),
    }
}

pub(crate) fn after_local_name() -> Option<&'static [Symbol]>
    ensures { (next : Terminal) → (tag : Tag) → IsRule result (rule Goal.AfterLocalName next tag) }
{
    Some(&[
        Symbol::Want(Goal::Initialiser),
        Symbol::Build(Make::Declarator),
        Symbol::Want(Goal::MoreDeclarators),
        Symbol::Build(Make::Local),
    ])
}

pub(crate) fn statements(next: Terminal) -> Option<&'static [Symbol]>
    ensures { (tag : Tag) → IsRule result (rule Goal.Statements next tag) }
{
    match next {
        Terminal::RightBrace => Some(&[Symbol::Build(Make::Nil)]),
        _ => Some(&[
            Symbol::Want(Goal::BlockStatement),
            Symbol::Want(Goal::Statements),
            Symbol::Build(Make::Cons),
        ]),
    }
}

pub(crate) fn block_statement(next: Terminal) -> Option<&'static [Symbol]>
    ensures { (tag : Tag) → IsRule result (rule Goal.BlockStatement next tag) }
{
    match next {
        Terminal::Final | Terminal::Primitive | Terminal::Identifier => Some(&[
            Symbol::Want(Goal::Item),
            Symbol::Take(Terminal::Semicolon),
        ]),
        _ => Some(&[Symbol::Want(Goal::Statement)]),
    }
}

pub(crate) fn item(next: Terminal) -> Option<&'static [Symbol]>
    ensures { (tag : Tag) → IsRule result (rule Goal.Item next tag) }
{
    match next {
        Terminal::Final => Some(&[
            Symbol::Take(Terminal::Final),
            Symbol::Want(Goal::Type),
            Symbol::Word,
            Symbol::Want(Goal::AfterLocalName),
        ]),
        Terminal::Primitive => Some(&[
            Symbol::Want(Goal::Type),
            Symbol::Word,
            Symbol::Want(Goal::AfterLocalName),
        ]),
        Terminal::Identifier => Some(&[Symbol::Word, Symbol::Want(Goal::ItemName)]),
        _ => Some(&[
            Symbol::Want(Goal::StatementExpression),
            Symbol::Build(Make::ExpressionStatement),
        ]),
    }
}

pub(crate) fn item_name(next: Terminal, tag: Tag) -> Option<&'static [Symbol]>
    ensures { IsRule result (rule Goal.ItemName next tag) }
{
    match next {
        Terminal::Identifier => Some(&[
            Symbol::Build(Make::TypeOfName),
            Symbol::Word,
            Symbol::Want(Goal::AfterLocalName),
        ]),
        Terminal::Less => Some(&[
            Symbol::Take(Terminal::Less),
            Symbol::Want(Goal::Type),
            Symbol::Take(Terminal::Greater),
            Symbol::Build(Make::Generic),
            Symbol::Want(Goal::Dimensions),
            Symbol::Word,
            Symbol::Want(Goal::AfterLocalName),
        ]),
        Terminal::LeftBracket => Some(&[
            Symbol::Take(Terminal::LeftBracket),
            Symbol::Want(Goal::ItemBracket),
        ]),
        Terminal::LeftParenthesis => Some(&[
            Symbol::Take(Terminal::LeftParenthesis),
            Symbol::Want(Goal::Arguments),
            Symbol::Take(Terminal::RightParenthesis),
            Symbol::Build(Make::CallOfName),
            Symbol::Want(Goal::Suffixes),
            Symbol::Want(Goal::AfterStatementPrimary),
            Symbol::Build(Make::ExpressionStatement),
        ]),
        Terminal::Dot => match tag {
            Tag::Word => Some(&[
                Symbol::Take(Terminal::Dot),
                Symbol::Word,
                Symbol::Build(Make::Pair),
                Symbol::Want(Goal::ItemName),
            ]),
            _ => Some(&[
                Symbol::Build(Make::Variable),
                Symbol::Want(Goal::Suffixes),
                Symbol::Want(Goal::AfterStatementPrimary),
                Symbol::Build(Make::ExpressionStatement),
            ])
        },
        _ => Some(&[
            Symbol::Build(Make::Variable),
            Symbol::Want(Goal::Suffixes),
            Symbol::Want(Goal::AfterStatementPrimary),
            Symbol::Build(Make::ExpressionStatement),
        ]),
    }
}

pub(crate) fn item_bracket(next: Terminal) -> Option<&'static [Symbol]>
    ensures { (tag : Tag) → IsRule result (rule Goal.ItemBracket next tag) }
{
    match next {
        Terminal::RightBracket => Some(&[
            Symbol::Build(Make::TypeOfName),
            Symbol::Take(Terminal::RightBracket),
            Symbol::Build(Make::Array),
            Symbol::Want(Goal::Dimensions),
            Symbol::Word,
            Symbol::Want(Goal::AfterLocalName),
        ]),
        _ => Some(&[
            Symbol::Build(Make::Variable),
            Symbol::Want(Goal::Expression),
            Symbol::Take(Terminal::RightBracket),
            Symbol::Build(Make::ArrayAccess),
            Symbol::Want(Goal::Suffixes),
            Symbol::Want(Goal::AfterStatementPrimary),
            Symbol::Build(Make::ExpressionStatement),
        ]),
    }
}

pub(crate) fn statement(next: Terminal) -> Option<&'static [Symbol]>
    ensures { (tag : Tag) → IsRule result (rule Goal.Statement next tag) }
{
    match next {
        Terminal::LeftBrace => Some(&[
            Symbol::Keep(Terminal::LeftBrace),
            Symbol::Want(Goal::Statements),
            Symbol::Take(Terminal::RightBrace),
            Symbol::Build(Make::Block),
        ]),
        Terminal::Semicolon => Some(&[
            Symbol::Keep(Terminal::Semicolon),
            Symbol::Build(Make::Empty),
        ]),
        Terminal::Return => Some(&[
            Symbol::Keep(Terminal::Return),
            Symbol::Want(Goal::OptionalExpression),
            Symbol::Take(Terminal::Semicolon),
            Symbol::Build(Make::Return),
        ]),
        Terminal::Break => Some(&[
            Symbol::Keep(Terminal::Break),
            Symbol::Take(Terminal::Semicolon),
            Symbol::Build(Make::Jump),
        ]),
        Terminal::Continue => Some(&[
            Symbol::Keep(Terminal::Continue),
            Symbol::Take(Terminal::Semicolon),
            Symbol::Build(Make::Jump),
        ]),
        Terminal::If => Some(&[
            Symbol::Keep(Terminal::If),
            Symbol::Take(Terminal::LeftParenthesis),
            Symbol::Want(Goal::Expression),
            Symbol::Take(Terminal::RightParenthesis),
            Symbol::Want(Goal::Statement),
            Symbol::Want(Goal::ElsePart),
        ]),
        Terminal::While => Some(&[
            Symbol::Keep(Terminal::While),
            Symbol::Take(Terminal::LeftParenthesis),
            Symbol::Want(Goal::Expression),
            Symbol::Take(Terminal::RightParenthesis),
            Symbol::Want(Goal::Statement),
            Symbol::Build(Make::While),
        ]),
        Terminal::Do => Some(&[
            Symbol::Keep(Terminal::Do),
            Symbol::Want(Goal::Statement),
            Symbol::Take(Terminal::While),
            Symbol::Take(Terminal::LeftParenthesis),
            Symbol::Want(Goal::Expression),
            Symbol::Take(Terminal::RightParenthesis),
            Symbol::Take(Terminal::Semicolon),
            Symbol::Build(Make::Do),
        ]),
        Terminal::For => Some(&[
            Symbol::Keep(Terminal::For),
            Symbol::Take(Terminal::LeftParenthesis),
            Symbol::Want(Goal::ForInitial),
            Symbol::Take(Terminal::Semicolon),
            Symbol::Want(Goal::OptionalExpression),
            Symbol::Take(Terminal::Semicolon),
            Symbol::Want(Goal::ForUpdates),
            Symbol::Take(Terminal::RightParenthesis),
            Symbol::Want(Goal::Statement),
            Symbol::Build(Make::For),
        ]),
        Terminal::Throw => Some(&[
            Symbol::Keep(Terminal::Throw),
            Symbol::Want(Goal::Expression),
            Symbol::Take(Terminal::Semicolon),
            Symbol::Build(Make::Throw),
        ]),
        Terminal::Try => Some(&[
            Symbol::Keep(Terminal::Try),
            Symbol::Keep(Terminal::LeftBrace),
            Symbol::Want(Goal::Statements),
            Symbol::Take(Terminal::RightBrace),
            Symbol::Build(Make::Block),
            Symbol::Want(Goal::Catch),
            Symbol::Want(Goal::Catches),
            Symbol::Build(Make::Cons),
            Symbol::Build(Make::Try),
        ]),
        _ => Some(&[
            Symbol::Want(Goal::StatementExpression),
            Symbol::Build(Make::ExpressionStatement),
            Symbol::Take(Terminal::Semicolon),
        ]),
    }
}

pub(crate) fn optional_expression(next: Terminal) -> Option<&'static [Symbol]>
    ensures { (tag : Tag) → IsRule result (rule Goal.OptionalExpression next tag) }
{
    match next {
        Terminal::Semicolon => Some(&[Symbol::Build(Make::Nil)]),
        _ => Some(&[Symbol::Want(Goal::Expression)]),
    }
}

pub(crate) fn else_part(next: Terminal) -> Option<&'static [Symbol]>
    ensures { (tag : Tag) → IsRule result (rule Goal.ElsePart next tag) }
{
    match next {
        Terminal::Else => Some(&[
            Symbol::Take(Terminal::Else),
            Symbol::Want(Goal::Statement),
            Symbol::Build(Make::IfElse),
        ]),
        _ => Some(&[Symbol::Build(Make::IfThen)]),
    }
}

pub(crate) fn catch(next: Terminal) -> Option<&'static [Symbol]>
    ensures { (tag : Tag) → IsRule result (rule Goal.Catch next tag) }
{
    match next {
        Terminal::Catch => Some(&[
            Symbol::Keep(Terminal::Catch),
            Symbol::Take(Terminal::LeftParenthesis),
            Symbol::Want(Goal::CaughtParameter),
            Symbol::Take(Terminal::RightParenthesis),
            Symbol::Keep(Terminal::LeftBrace),
            Symbol::Want(Goal::Statements),
            Symbol::Take(Terminal::RightBrace),
            Symbol::Build(Make::Block),
            Symbol::Build(Make::Catch),
        ]),
        _ => None,
    }
}

pub(crate) fn catches(next: Terminal) -> Option<&'static [Symbol]>
    ensures { (tag : Tag) → IsRule result (rule Goal.Catches next tag) }
{
    match next {
        Terminal::Catch => Some(&[
            Symbol::Want(Goal::Catch),
            Symbol::Want(Goal::Catches),
            Symbol::Build(Make::Cons),
        ]),
        _ => Some(&[Symbol::Build(Make::Nil)]),
    }
}

pub(crate) fn caught_parameter(next: Terminal) -> Option<&'static [Symbol]>
    ensures { (tag : Tag) → IsRule result (rule Goal.CaughtParameter next tag) }
{
    match next {
        Terminal::Final => Some(&[
            Symbol::Take(Terminal::Final),
            Symbol::Word,
            Symbol::Want(Goal::ClassTail),
            Symbol::Word,
            Symbol::Build(Make::Parameter),
        ]),
        _ => Some(&[
            Symbol::Word,
            Symbol::Want(Goal::ClassTail),
            Symbol::Word,
            Symbol::Build(Make::Parameter),
        ]),
    }
}

pub(crate) fn for_initial(next: Terminal) -> Option<&'static [Symbol]>
    ensures { (tag : Tag) → IsRule result (rule Goal.ForInitial next tag) }
{
    match next {
        Terminal::Semicolon => Some(&[Symbol::Build(Make::Nil)]),
        _ => Some(&[Symbol::Want(Goal::Item), Symbol::Want(Goal::MoreInitial)]),
    }
}

pub(crate) fn more_initial(next: Terminal, tag: Tag) -> Option<&'static [Symbol]>
    ensures { IsRule result (rule Goal.MoreInitial next tag) }
{
    match next {
        Terminal::Comma => match tag {
            Tag::Local => None,
            _ => Some(&[
                Symbol::Take(Terminal::Comma),
                Symbol::Want(Goal::StatementExpression),
                Symbol::Build(Make::ExpressionStatement),
                Symbol::Want(Goal::MoreInitial),
                Symbol::Build(Make::Cons),
            ])
        },
        _ => Some(&[Symbol::Build(Make::Nil), Symbol::Build(Make::Cons)]),
    }
}

pub(crate) fn for_updates(next: Terminal) -> Option<&'static [Symbol]>
    ensures { (tag : Tag) → IsRule result (rule Goal.ForUpdates next tag) }
{
    match next {
        Terminal::RightParenthesis => Some(&[Symbol::Build(Make::Nil)]),
        _ => Some(&[
            Symbol::Want(Goal::StatementExpression),
            Symbol::Want(Goal::MoreUpdates),
        ]),
    }
}

pub(crate) fn more_updates(next: Terminal) -> Option<&'static [Symbol]>
    ensures { (tag : Tag) → IsRule result (rule Goal.MoreUpdates next tag) }
{
    match next {
        Terminal::Comma => Some(&[
            Symbol::Take(Terminal::Comma),
            Symbol::Want(Goal::StatementExpression),
            Symbol::Want(Goal::MoreUpdates),
            Symbol::Build(Make::Cons),
        ]),
        _ => Some(&[Symbol::Build(Make::Nil), Symbol::Build(Make::Cons)]),
    }
}

pub(crate) fn statement_expression(next: Terminal) -> Option<&'static [Symbol]>
    ensures { (tag : Tag) → IsRule result (rule Goal.StatementExpression next tag) }
{
    match next {
        Terminal::Step => Some(&[
            Symbol::Keep(Terminal::Step),
            Symbol::Want(Goal::Unary),
            Symbol::Build(Make::StepBefore),
        ]),
        _ => Some(&[
            Symbol::Want(Goal::Primary),
            Symbol::Want(Goal::AfterStatementPrimary),
        ]),
    }
}

pub(crate) fn after_statement_primary(next: Terminal, tag: Tag) -> Option<&'static [Symbol]>
    ensures { IsRule result (rule Goal.AfterStatementPrimary next tag) }
{
    match next {
        Terminal::Step => Some(&[
            Symbol::Keep(Terminal::Step),
            Symbol::Build(Make::StepBehind),
        ]),
        Terminal::Equal => match tag {
            Tag::Target => Some(&[
                Symbol::Keep(Terminal::Equal),
                Symbol::Want(Goal::Expression),
                Symbol::Build(Make::Assign),
            ]),
            _ => None
        },
        Terminal::Compound => match tag {
            Tag::Target => Some(&[
                Symbol::Keep(Terminal::Compound),
                Symbol::Want(Goal::Expression),
                Symbol::Build(Make::Assign),
            ]),
            _ => None
        },
        _ => match tag {
            Tag::Invocation => Some(&[]),
            _ => None
        },
    }
}
