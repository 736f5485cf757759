// The rules for expressions.
ghost use Rattle.kr_parse_grammar.specs.declared.terminal.Terminal.{Terminal};
ghost use Rattle.kr_parse_grammar.specs.declared.value.Tag.{Tag};
ghost use Rattle.kr_parse_grammar.specs.Machine.{rule};
ghost use Rattle.kr_parse_grammar.specs.RuleTable.{IsRule};

use crate::goal::{Goal, Make, Symbol};
use crate::terminal::Terminal;
use crate::value::Tag;

pub(crate) fn primary(next: Terminal) -> Option<&'static [Symbol]>
    ensures { (tag : Tag) → IsRule result (rule Goal.Primary next tag) }
{
    match next {
        Terminal::Literal => Some(&[Symbol::Literal, Symbol::Want(Goal::Suffixes)]),
        Terminal::Identifier => Some(&[Symbol::Word, Symbol::Want(Goal::PrimaryName)]),
        Terminal::LeftParenthesis => Some(&[
            Symbol::Keep(Terminal::LeftParenthesis),
            Symbol::Want(Goal::Expression),
            Symbol::Take(Terminal::RightParenthesis),
            Symbol::Build(Make::Enclosed),
            Symbol::Want(Goal::Suffixes),
        ]),
        Terminal::Super => Some(&[
            Symbol::Keep(Terminal::Super),
            Symbol::Take(Terminal::Dot),
            Symbol::Word,
            Symbol::Take(Terminal::LeftParenthesis),
            Symbol::Want(Goal::Arguments),
            Symbol::Take(Terminal::RightParenthesis),
            Symbol::Build(Make::SuperCall),
            Symbol::Want(Goal::Suffixes),
        ]),
        Terminal::Old => Some(&[
            Symbol::Keep(Terminal::Old),
            Symbol::Take(Terminal::LeftParenthesis),
            Symbol::Want(Goal::Expression),
            Symbol::Take(Terminal::RightParenthesis),
            Symbol::Build(Make::Old),
            Symbol::Want(Goal::Suffixes),
        ]),
        Terminal::New => Some(&[
            Symbol::Keep(Terminal::New),
            Symbol::Want(Goal::Creator),
            Symbol::Want(Goal::Suffixes),
        ]),
        _ => None,
    }
}

pub(crate) fn primary_name(next: Terminal) -> Option<&'static [Symbol]>
    ensures { (tag : Tag) → IsRule result (rule Goal.PrimaryName next tag) }
{
    match next {
        Terminal::LeftParenthesis => Some(&[
            Symbol::Take(Terminal::LeftParenthesis),
            Symbol::Want(Goal::Arguments),
            Symbol::Take(Terminal::RightParenthesis),
            Symbol::Build(Make::CallOfName),
            Symbol::Want(Goal::Suffixes),
        ]),
        _ => Some(&[Symbol::Build(Make::Variable), Symbol::Want(Goal::Suffixes)]),
    }
}

pub(crate) fn creator(next: Terminal) -> Option<&'static [Symbol]>
    ensures { (tag : Tag) → IsRule result (rule Goal.Creator next tag) }
{
    match next {
        Terminal::Primitive => Some(&[
            Symbol::Keep(Terminal::Primitive),
            Symbol::Build(Make::TypeOfMark),
            Symbol::Want(Goal::ArrayLength),
        ]),
        Terminal::Identifier => Some(&[Symbol::Word, Symbol::Want(Goal::CreatorName)]),
        _ => None,
    }
}

pub(crate) fn creator_name(next: Terminal, tag: Tag) -> Option<&'static [Symbol]>
    ensures { IsRule result (rule Goal.CreatorName next tag) }
{
    match next {
        Terminal::Dot => match tag {
            Tag::Word => Some(&[
                Symbol::Take(Terminal::Dot),
                Symbol::Word,
                Symbol::Build(Make::Pair),
                Symbol::Want(Goal::CreatorName),
            ]),
            _ => None
        },
        Terminal::Less => Some(&[
            Symbol::Take(Terminal::Less),
            Symbol::Want(Goal::CreatorArgument),
        ]),
        Terminal::LeftParenthesis => Some(&[
            Symbol::Build(Make::TypeOfName),
            Symbol::Want(Goal::ObjectCreation),
        ]),
        Terminal::LeftBracket => Some(&[
            Symbol::Build(Make::TypeOfName),
            Symbol::Want(Goal::ArrayLength),
        ]),
        _ => None,
    }
}

pub(crate) fn creator_argument(next: Terminal) -> Option<&'static [Symbol]>
    ensures { (tag : Tag) → IsRule result (rule Goal.CreatorArgument next tag) }
{
    match next {
        Terminal::Greater => Some(&[
            Symbol::Take(Terminal::Greater),
            Symbol::Build(Make::Diamond),
            Symbol::Want(Goal::ObjectCreation),
        ]),
        _ => Some(&[
            Symbol::Want(Goal::Type),
            Symbol::Take(Terminal::Greater),
            Symbol::Build(Make::Generic),
            Symbol::Want(Goal::ObjectCreation),
        ]),
    }
}

pub(crate) fn object_creation() -> Option<&'static [Symbol]>
    ensures { (next : Terminal) → (tag : Tag) → IsRule result (rule Goal.ObjectCreation next tag) }
{
    Some(&[
        Symbol::Take(Terminal::LeftParenthesis),
        Symbol::Want(Goal::Arguments),
        Symbol::Take(Terminal::RightParenthesis),
        Symbol::Build(Make::ObjectCreation),
    ])
}

pub(crate) fn array_length() -> Option<&'static [Symbol]>
    ensures { (next : Terminal) → (tag : Tag) → IsRule result (rule Goal.ArrayLength next tag) }
{
    Some(&[
        Symbol::Take(Terminal::LeftBracket),
        Symbol::Want(Goal::Expression),
        Symbol::Take(Terminal::RightBracket),
        Symbol::Build(Make::ArrayCreation),
    ])
}

pub(crate) fn suffixes(next: Terminal, tag: Tag) -> Option<&'static [Symbol]>
    ensures { IsRule result (rule Goal.Suffixes next tag) }
{
    match next {
        Terminal::Dot => Some(&[
            Symbol::Take(Terminal::Dot),
            Symbol::Word,
            Symbol::Want(Goal::Selected),
        ]),
        Terminal::LeftBracket => match tag {
            Tag::ArrayCreation => None,
            _ => Some(&[
                Symbol::Take(Terminal::LeftBracket),
                Symbol::Want(Goal::Expression),
                Symbol::Take(Terminal::RightBracket),
                Symbol::Build(Make::ArrayAccess),
                Symbol::Want(Goal::Suffixes),
            ])
        },
        Terminal::Identifier
        | Terminal::Literal
        | Terminal::LeftParenthesis
        | Terminal::New
        | Terminal::Super
        | Terminal::Old
        | Terminal::Complement => None,
        _ => Some(&[]),
    }
}

pub(crate) fn selected(next: Terminal) -> Option<&'static [Symbol]>
    ensures { (tag : Tag) → IsRule result (rule Goal.Selected next tag) }
{
    match next {
        Terminal::LeftParenthesis => Some(&[
            Symbol::Take(Terminal::LeftParenthesis),
            Symbol::Want(Goal::Arguments),
            Symbol::Take(Terminal::RightParenthesis),
            Symbol::Build(Make::MethodCall),
            Symbol::Want(Goal::Suffixes),
        ]),
        _ => Some(&[
            Symbol::Build(Make::FieldAccess),
            Symbol::Want(Goal::Suffixes),
        ]),
    }
}

pub(crate) fn arguments(next: Terminal) -> Option<&'static [Symbol]>
    ensures { (tag : Tag) → IsRule result (rule Goal.Arguments next tag) }
{
    match next {
        Terminal::RightParenthesis => Some(&[Symbol::Build(Make::Nil)]),
        _ => Some(&[
            Symbol::Want(Goal::Expression),
            Symbol::Want(Goal::MoreArguments),
        ]),
    }
}

pub(crate) fn more_arguments(next: Terminal) -> Option<&'static [Symbol]>
    ensures { (tag : Tag) → IsRule result (rule Goal.MoreArguments next tag) }
{
    match next {
        Terminal::Comma => Some(&[
            Symbol::Take(Terminal::Comma),
            Symbol::Want(Goal::Expression),
            Symbol::Want(Goal::MoreArguments),
            Symbol::Build(Make::Cons),
        ]),
        _ => Some(&[Symbol::Build(Make::Nil), Symbol::Build(Make::Cons)]),
    }
}

pub(crate) fn expression() -> Option<&'static [Symbol]>
    ensures { (next : Terminal) → (tag : Tag) → IsRule result (rule Goal.Expression next tag) }
{
    Some(&[Symbol::Want(Goal::Unary), Symbol::Want(Goal::AfterUnary)])
}

pub(crate) fn after_unary(next: Terminal, tag: Tag) -> Option<&'static [Symbol]>
    ensures { IsRule result (rule Goal.AfterUnary next tag) }
{
    match next {
        Terminal::Equal => match tag {
            Tag::Target => Some(&[
                Symbol::Keep(Terminal::Equal),
                Symbol::Want(Goal::Expression),
                Symbol::Build(Make::Assign),
            ]),
            _ => Some(&[
                Symbol::Want(Goal::Operators { least: 1, most: 10 }),
                Symbol::Want(Goal::AfterOperation),
            ])
        },
        Terminal::Compound => match tag {
            Tag::Target => Some(&[
                Symbol::Keep(Terminal::Compound),
                Symbol::Want(Goal::Expression),
                Symbol::Build(Make::Assign),
            ]),
            _ => Some(&[
                Symbol::Want(Goal::Operators { least: 1, most: 10 }),
                Symbol::Want(Goal::AfterOperation),
            ])
        },
        _ => Some(&[
            Symbol::Want(Goal::Operators { least: 1, most: 10 }),
            Symbol::Want(Goal::AfterOperation),
        ]),
    }
}

pub(crate) fn after_operation(next: Terminal) -> Option<&'static [Symbol]>
    ensures { (tag : Tag) → IsRule result (rule Goal.AfterOperation next tag) }
{
    match next {
        Terminal::Question => Some(&[
            Symbol::Take(Terminal::Question),
            Symbol::Want(Goal::Expression),
            Symbol::Take(Terminal::Colon),
            Symbol::Want(Goal::Conditional),
            Symbol::Build(Make::Conditional),
        ]),
        _ => Some(&[]),
    }
}

pub(crate) fn conditional() -> Option<&'static [Symbol]>
    ensures { (next : Terminal) → (tag : Tag) → IsRule result (rule Goal.Conditional next tag) }
{
    Some(&[
        Symbol::Want(Goal::Unary),
        Symbol::Want(Goal::Operators { least: 1, most: 10 }),
        Symbol::Want(Goal::AfterOperation),
    ])
}

pub(crate) fn unary(next: Terminal) -> Option<&'static [Symbol]>
    ensures { (tag : Tag) → IsRule result (rule Goal.Unary next tag) }
{
    match next {
        Terminal::Sign => Some(&[
            Symbol::Keep(Terminal::Sign),
            Symbol::Want(Goal::Unary),
            Symbol::Build(Make::Unary),
        ]),
        Terminal::Step => Some(&[
            Symbol::Keep(Terminal::Step),
            Symbol::Want(Goal::Unary),
            Symbol::Build(Make::StepBefore),
        ]),
        _ => Some(&[Symbol::Want(Goal::Unsigned)]),
    }
}

pub(crate) fn unsigned(next: Terminal) -> Option<&'static [Symbol]>
    ensures { (tag : Tag) → IsRule result (rule Goal.Unsigned next tag) }
{
    match next {
        Terminal::Complement => Some(&[
            Symbol::Keep(Terminal::Complement),
            Symbol::Want(Goal::Unary),
            Symbol::Build(Make::Unary),
        ]),
        Terminal::LeftParenthesis => Some(&[
            Symbol::Keep(Terminal::LeftParenthesis),
            Symbol::Want(Goal::InParentheses),
        ]),
        _ => Some(&[Symbol::Want(Goal::Primary), Symbol::Want(Goal::Postfixes)]),
    }
}

pub(crate) fn postfixes(next: Terminal) -> Option<&'static [Symbol]>
    ensures { (tag : Tag) → IsRule result (rule Goal.Postfixes next tag) }
{
    match next {
        Terminal::Step => Some(&[
            Symbol::Keep(Terminal::Step),
            Symbol::Build(Make::StepBehind),
            Symbol::Want(Goal::Postfixes),
        ]),
        _ => Some(&[]),
    }
}
