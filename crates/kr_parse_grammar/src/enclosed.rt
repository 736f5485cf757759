// The rules in parentheses and after `instanceof`, where a name may be a type or an operand.
ghost use Rattle.kr_parse_grammar.specs.declared.terminal.Terminal.{Terminal};
ghost use Rattle.kr_parse_grammar.specs.declared.value.Tag.{Tag};
ghost use Rattle.kr_parse_grammar.specs.Machine.{rule};
ghost use Rattle.kr_parse_grammar.specs.RuleTable.{IsRule};

use crate::goal::{Goal, Make, Symbol};
use crate::terminal::Terminal;
use crate::value::Tag;

pub(crate) fn in_parentheses(next: Terminal) -> Option<&'static [Symbol]>
    ensures { (tag : Tag) → IsRule result (rule Goal.InParentheses next tag) }
{
    match next {
        Terminal::Primitive => Some(&[
            Symbol::Keep(Terminal::Primitive),
            Symbol::Build(Make::TypeOfMark),
            Symbol::Want(Goal::PrimitiveCast),
        ]),
        Terminal::Identifier => Some(&[Symbol::Word, Symbol::Want(Goal::EnclosedName)]),
        _ => Some(&[Symbol::Want(Goal::Expression), Symbol::Want(Goal::Closing)]),
    }
}

pub(crate) fn primitive_cast(next: Terminal) -> Option<&'static [Symbol]>
    ensures { (tag : Tag) → IsRule result (rule Goal.PrimitiveCast next tag) }
{
    match next {
        Terminal::RightParenthesis => Some(&[
            Symbol::Take(Terminal::RightParenthesis),
            Symbol::Want(Goal::Unary),
            Symbol::Build(Make::Cast),
        ]),
        Terminal::LeftBracket => Some(&[
            Symbol::Take(Terminal::LeftBracket),
            Symbol::Take(Terminal::RightBracket),
            Symbol::Build(Make::Array),
            Symbol::Want(Goal::Dimensions),
            Symbol::Take(Terminal::RightParenthesis),
            Symbol::Want(Goal::Unsigned),
            Symbol::Build(Make::Cast),
        ]),
        _ => None,
    }
}

pub(crate) fn enclosed_name(next: Terminal, tag: Tag) -> Option<&'static [Symbol]>
    ensures { IsRule result (rule Goal.EnclosedName next tag) }
{
    match next {
        Terminal::RightParenthesis => Some(&[
            Symbol::Take(Terminal::RightParenthesis),
            Symbol::Want(Goal::AfterEnclosedName),
        ]),
        Terminal::Dot => match tag {
            Tag::Word => Some(&[
                Symbol::Take(Terminal::Dot),
                Symbol::Word,
                Symbol::Build(Make::Pair),
                Symbol::Want(Goal::EnclosedName),
            ]),
            _ => Some(&[
                Symbol::Build(Make::Variable),
                Symbol::Want(Goal::EnclosedPrimary),
            ])
        },
        Terminal::LeftBracket => Some(&[
            Symbol::Take(Terminal::LeftBracket),
            Symbol::Want(Goal::EnclosedBracket),
        ]),
        Terminal::Less => Some(&[
            Symbol::Take(Terminal::Less),
            Symbol::Want(Goal::ChainArgument),
            Symbol::Want(Goal::AfterChain),
        ]),
        Terminal::LeftParenthesis => Some(&[
            Symbol::Take(Terminal::LeftParenthesis),
            Symbol::Want(Goal::Arguments),
            Symbol::Take(Terminal::RightParenthesis),
            Symbol::Build(Make::CallOfName),
            Symbol::Want(Goal::EnclosedPrimary),
        ]),
        _ => Some(&[
            Symbol::Build(Make::Variable),
            Symbol::Want(Goal::EnclosedPrimary),
        ]),
    }
}

pub(crate) fn enclosed_bracket(next: Terminal) -> Option<&'static [Symbol]>
    ensures { (tag : Tag) → IsRule result (rule Goal.EnclosedBracket next tag) }
{
    match next {
        Terminal::RightBracket => Some(&[
            Symbol::Build(Make::TypeOfName),
            Symbol::Take(Terminal::RightBracket),
            Symbol::Build(Make::Array),
            Symbol::Want(Goal::Dimensions),
            Symbol::Take(Terminal::RightParenthesis),
            Symbol::Want(Goal::Unsigned),
            Symbol::Build(Make::Cast),
        ]),
        _ => Some(&[
            Symbol::Build(Make::Variable),
            Symbol::Want(Goal::Expression),
            Symbol::Take(Terminal::RightBracket),
            Symbol::Build(Make::ArrayAccess),
            Symbol::Want(Goal::EnclosedPrimary),
        ]),
    }
}

pub(crate) fn enclosed_primary() -> Option<&'static [Symbol]>
    ensures { (next : Terminal) → (tag : Tag) → IsRule result (rule Goal.EnclosedPrimary next tag) }
{
    Some(&[
        Symbol::Want(Goal::Suffixes),
        Symbol::Want(Goal::Postfixes),
        Symbol::Want(Goal::AfterUnary),
        Symbol::Want(Goal::Closing),
    ])
}

pub(crate) fn closing() -> Option<&'static [Symbol]>
    ensures { (next : Terminal) → (tag : Tag) → IsRule result (rule Goal.Closing next tag) }
{
    Some(&[
        Symbol::Take(Terminal::RightParenthesis),
        Symbol::Build(Make::Enclosed),
        Symbol::Want(Goal::Suffixes),
        Symbol::Want(Goal::Postfixes),
    ])
}

pub(crate) fn after_enclosed_name(next: Terminal) -> Option<&'static [Symbol]>
    ensures { (tag : Tag) → IsRule result (rule Goal.AfterEnclosedName next tag) }
{
    match next {
        Terminal::Identifier
        | Terminal::Literal
        | Terminal::LeftParenthesis
        | Terminal::New
        | Terminal::Super
        | Terminal::Old
        | Terminal::Complement => Some(&[
            Symbol::Build(Make::TypeOfName),
            Symbol::Want(Goal::Unsigned),
            Symbol::Build(Make::Cast),
        ]),
        _ => Some(&[
            Symbol::Build(Make::Variable),
            Symbol::Build(Make::Enclosed),
            Symbol::Want(Goal::Suffixes),
            Symbol::Want(Goal::Postfixes),
        ]),
    }
}

pub(crate) fn after_chain(tag: Tag) -> Option<&'static [Symbol]>
    ensures { (next : Terminal) → IsRule result (rule Goal.AfterChain next tag) }
{
    match tag {
        Tag::Type => Some(&[
            Symbol::Take(Terminal::RightParenthesis),
            Symbol::Want(Goal::Unsigned),
            Symbol::Build(Make::Cast),
        ]),
        _ => Some(&[
            Symbol::Want(Goal::Operators { least: 1, most: 7 }),
            Symbol::Want(Goal::AfterOperation),
            Symbol::Want(Goal::Closing),
        ])
    }
}

pub(crate) fn chain_argument(next: Terminal) -> Option<&'static [Symbol]>
    ensures { (tag : Tag) → IsRule result (rule Goal.ChainArgument next tag) }
{
    match next {
        Terminal::Primitive => Some(&[
            Symbol::Keep(Terminal::Primitive),
            Symbol::Build(Make::TypeOfMark),
            Symbol::Want(Goal::ChainClosing),
        ]),
        Terminal::Identifier => Some(&[Symbol::Word, Symbol::Want(Goal::ChainName)]),
        _ => Some(&[
            Symbol::Build(Make::CompareAll),
            Symbol::Want(Goal::Unary),
            Symbol::Want(Goal::Operators { least: 8, most: 10 }),
            Symbol::Build(Make::Less),
        ]),
    }
}

pub(crate) fn chain_name(next: Terminal, tag: Tag) -> Option<&'static [Symbol]>
    ensures { IsRule result (rule Goal.ChainName next tag) }
{
    match next {
        Terminal::Dot => match tag {
            Tag::Word => Some(&[
                Symbol::Take(Terminal::Dot),
                Symbol::Word,
                Symbol::Build(Make::Pair),
                Symbol::Want(Goal::ChainName),
            ]),
            _ => Some(&[
                Symbol::Build(Make::CompareBelow),
                Symbol::Build(Make::Variable),
                Symbol::Want(Goal::ChainPrimary),
            ])
        },
        Terminal::Less => Some(&[
            Symbol::Take(Terminal::Less),
            Symbol::Want(Goal::ChainArgument),
        ]),
        Terminal::Greater => Some(&[
            Symbol::Take(Terminal::Greater),
            Symbol::Want(Goal::ChainGreater),
        ]),
        Terminal::LeftBracket => Some(&[
            Symbol::Take(Terminal::LeftBracket),
            Symbol::Want(Goal::ChainBracket),
        ]),
        Terminal::LeftParenthesis => Some(&[
            Symbol::Build(Make::CompareBelow),
            Symbol::Take(Terminal::LeftParenthesis),
            Symbol::Want(Goal::Arguments),
            Symbol::Take(Terminal::RightParenthesis),
            Symbol::Build(Make::CallOfName),
            Symbol::Want(Goal::ChainPrimary),
        ]),
        _ => Some(&[
            Symbol::Build(Make::CompareBelow),
            Symbol::Build(Make::Variable),
            Symbol::Want(Goal::ChainPrimary),
        ]),
    }
}

pub(crate) fn chain_bracket(next: Terminal) -> Option<&'static [Symbol]>
    ensures { (tag : Tag) → IsRule result (rule Goal.ChainBracket next tag) }
{
    match next {
        Terminal::RightBracket => Some(&[
            Symbol::Build(Make::TypeOfName),
            Symbol::Take(Terminal::RightBracket),
            Symbol::Build(Make::Array),
            Symbol::Want(Goal::ChainClosing),
        ]),
        _ => Some(&[
            Symbol::Build(Make::CompareBelow),
            Symbol::Build(Make::Variable),
            Symbol::Want(Goal::Expression),
            Symbol::Take(Terminal::RightBracket),
            Symbol::Build(Make::ArrayAccess),
            Symbol::Want(Goal::ChainPrimary),
        ]),
    }
}

pub(crate) fn chain_primary() -> Option<&'static [Symbol]>
    ensures { (next : Terminal) → (tag : Tag) → IsRule result (rule Goal.ChainPrimary next tag) }
{
    Some(&[
        Symbol::Want(Goal::Suffixes),
        Symbol::Want(Goal::Postfixes),
        Symbol::Want(Goal::Operators { least: 8, most: 10 }),
        Symbol::Build(Make::Less),
    ])
}

pub(crate) fn chain_greater(next: Terminal) -> Option<&'static [Symbol]>
    ensures { (tag : Tag) → IsRule result (rule Goal.ChainGreater next tag) }
{
    match next {
        Terminal::Sign
        | Terminal::Step
        | Terminal::Identifier
        | Terminal::Literal
        | Terminal::LeftParenthesis
        | Terminal::New
        | Terminal::Super
        | Terminal::Old
        | Terminal::Complement => Some(&[
            Symbol::Build(Make::CompareAll),
            Symbol::Want(Goal::Unary),
            Symbol::Want(Goal::Operators { least: 8, most: 10 }),
            Symbol::Build(Make::Greater),
        ]),
        _ => Some(&[
            Symbol::Build(Make::TypeOfName),
            Symbol::Build(Make::Generic),
            Symbol::Want(Goal::ChainClosing),
        ]),
    }
}

pub(crate) fn chain_closing(next: Terminal, tag: Tag) -> Option<&'static [Symbol]>
    ensures { IsRule result (rule Goal.ChainClosing next tag) }
{
    match next {
        Terminal::LeftBracket => Some(&[
            Symbol::Take(Terminal::LeftBracket),
            Symbol::Take(Terminal::RightBracket),
            Symbol::Build(Make::Array),
            Symbol::Want(Goal::ChainClosing),
        ]),
        _ => match tag {
            Tag::InnerType => Some(&[
                Symbol::Take(Terminal::Greater),
                Symbol::Build(Make::Generic),
                Symbol::Want(Goal::ChainClosing),
            ]),
            _ => Some(&[])
        },
    }
}

pub(crate) fn tested(next: Terminal) -> Option<&'static [Symbol]>
    ensures { (tag : Tag) → IsRule result (rule Goal.Tested next tag) }
{
    match next {
        Terminal::Primitive => Some(&[
            Symbol::Keep(Terminal::Primitive),
            Symbol::Build(Make::TypeOfMark),
            Symbol::Take(Terminal::LeftBracket),
            Symbol::Take(Terminal::RightBracket),
            Symbol::Build(Make::Array),
            Symbol::Want(Goal::Dimensions),
            Symbol::Build(Make::InstanceOf),
        ]),
        Terminal::Identifier => Some(&[Symbol::Word, Symbol::Want(Goal::TestedName)]),
        _ => None,
    }
}

pub(crate) fn tested_name(next: Terminal, tag: Tag) -> Option<&'static [Symbol]>
    ensures { IsRule result (rule Goal.TestedName next tag) }
{
    match next {
        Terminal::Dot => match tag {
            Tag::Word => Some(&[
                Symbol::Take(Terminal::Dot),
                Symbol::Word,
                Symbol::Build(Make::Pair),
                Symbol::Want(Goal::TestedName),
            ]),
            _ => Some(&[
                Symbol::Build(Make::TypeOfName),
                Symbol::Want(Goal::Dimensions),
                Symbol::Build(Make::InstanceOf),
            ])
        },
        Terminal::Less => Some(&[
            Symbol::Take(Terminal::Less),
            Symbol::Want(Goal::ChainArgument),
            Symbol::Want(Goal::AfterTested),
        ]),
        _ => Some(&[
            Symbol::Build(Make::TypeOfName),
            Symbol::Want(Goal::Dimensions),
            Symbol::Build(Make::InstanceOf),
        ]),
    }
}

pub(crate) fn after_tested(tag: Tag) -> Option<&'static [Symbol]>
    ensures { (next : Terminal) → IsRule result (rule Goal.AfterTested next tag) }
{
    match tag {
        Tag::Type => Some(&[Symbol::Build(Make::InstanceOf)]),
        _ => Some(&[])
    }
}
