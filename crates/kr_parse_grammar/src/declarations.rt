// The rules for files, classes and members.
ghost use Rattle.kr_parse_grammar.specs.declared.terminal.Terminal.{Terminal};
ghost use Rattle.kr_parse_grammar.specs.declared.value.Tag.{Tag};
ghost use Rattle.kr_parse_grammar.specs.Machine.{rule};
ghost use Rattle.kr_parse_grammar.specs.RuleTable.{IsRule};

use crate::goal::{Goal, Make, Spelled, Symbol};
use crate::terminal::Terminal;
use crate::value::Tag;

pub(crate) fn file(next: Terminal) -> Option<&'static [Symbol]>
    ensures { (tag : Tag) → IsRule result (rule Goal.File next tag) }
{
    match next {
        Terminal::Package => Some(&[
            Symbol::Take(Terminal::Package),
            Symbol::Take(Terminal::Identifier),
            Symbol::Want(Goal::Dotted),
            Symbol::Take(Terminal::Semicolon),
            Symbol::Want(Goal::Imports),
        ]),
        _ => Some(&[Symbol::Want(Goal::Imports)]),
    }
}

pub(crate) fn dotted(next: Terminal) -> Option<&'static [Symbol]>
    ensures { (tag : Tag) → IsRule result (rule Goal.Dotted next tag) }
{
    match next {
        Terminal::Dot => Some(&[
            Symbol::Take(Terminal::Dot),
            Symbol::Take(Terminal::Identifier),
            Symbol::Want(Goal::Dotted),
        ]),
        _ => Some(&[]),
    }
}

pub(crate) fn imports(next: Terminal) -> Option<&'static [Symbol]>
    ensures { (tag : Tag) → IsRule result (rule Goal.Imports next tag) }
{
    match next {
        Terminal::Import => Some(&[
            Symbol::Take(Terminal::Import),
            Symbol::Spell(Spelled::Java),
            Symbol::Take(Terminal::Dot),
            Symbol::Spell(Spelled::Util),
            Symbol::Take(Terminal::Dot),
            Symbol::Want(Goal::Imported),
            Symbol::Take(Terminal::Semicolon),
            Symbol::Want(Goal::Imports),
        ]),
        _ => Some(&[Symbol::Want(Goal::Classes)]),
    }
}

pub(crate) fn imported(next: Terminal) -> Option<&'static [Symbol]>
    ensures { (tag : Tag) → IsRule result (rule Goal.Imported next tag) }
{
    match next {
        Terminal::Identifier => Some(&[Symbol::Take(Terminal::Identifier)]),
        Terminal::Star => Some(&[Symbol::Take(Terminal::Star)]),
        _ => None,
    }
}

pub(crate) fn classes(next: Terminal) -> Option<&'static [Symbol]>
    ensures { (tag : Tag) → IsRule result (rule Goal.Classes next tag) }
{
    match next {
        Terminal::End => Some(&[Symbol::Build(Make::Nil)]),
        Terminal::Semicolon => Some(&[
            Symbol::Take(Terminal::Semicolon),
            Symbol::Want(Goal::Classes),
        ]),
        _ => Some(&[
            Symbol::Want(Goal::ClassAhead),
            Symbol::Want(Goal::Classes),
            Symbol::Build(Make::Cons),
        ]),
    }
}

pub(crate) fn class_ahead(next: Terminal) -> Option<&'static [Symbol]>
    ensures { (tag : Tag) → IsRule result (rule Goal.ClassAhead next tag) }
{
    match next {
        Terminal::Access => Some(&[
            Symbol::Take(Terminal::Access),
            Symbol::Want(Goal::ClassAhead),
        ]),
        Terminal::Static => Some(&[
            Symbol::Take(Terminal::Static),
            Symbol::Want(Goal::ClassAhead),
        ]),
        Terminal::Final => Some(&[
            Symbol::Take(Terminal::Final),
            Symbol::Want(Goal::ClassAhead),
        ]),
        Terminal::Class => Some(&[
            Symbol::Take(Terminal::Class),
            Symbol::Word,
            Symbol::Want(Goal::Extended),
            Symbol::Build(Make::Owner),
            Symbol::Build(Make::MemberAhead),
            Symbol::Take(Terminal::LeftBrace),
            Symbol::Want(Goal::Members),
            Symbol::Take(Terminal::RightBrace),
            Symbol::Build(Make::Class),
        ]),
        _ => None,
    }
}

pub(crate) fn extended(next: Terminal) -> Option<&'static [Symbol]>
    ensures { (tag : Tag) → IsRule result (rule Goal.Extended next tag) }
{
    match next {
        Terminal::Extends => Some(&[
            Symbol::Take(Terminal::Extends),
            Symbol::Word,
            Symbol::Want(Goal::ClassTail),
        ]),
        _ => Some(&[Symbol::Build(Make::Nil)]),
    }
}

pub(crate) fn class_tail(next: Terminal) -> Option<&'static [Symbol]>
    ensures { (tag : Tag) → IsRule result (rule Goal.ClassTail next tag) }
{
    match next {
        Terminal::Dot => Some(&[
            Symbol::Take(Terminal::Dot),
            Symbol::Word,
            Symbol::Build(Make::Pair),
            Symbol::Build(Make::TypeOfName),
        ]),
        _ => Some(&[Symbol::Build(Make::TypeOfName)]),
    }
}

pub(crate) fn members(next: Terminal) -> Option<&'static [Symbol]>
    ensures { (tag : Tag) → IsRule result (rule Goal.Members next tag) }
{
    match next {
        Terminal::RightBrace => Some(&[Symbol::Build(Make::EndMembers)]),
        Terminal::Semicolon => Some(&[
            Symbol::Take(Terminal::Semicolon),
            Symbol::Want(Goal::Members),
        ]),
        Terminal::Contract => Some(&[
            Symbol::Keep(Terminal::Contract),
            Symbol::Want(Goal::Contract),
            Symbol::Want(Goal::Contracts),
            Symbol::Build(Make::Cons),
            Symbol::Build(Make::Swap),
            Symbol::Want(Goal::MethodAhead),
            Symbol::Build(Make::Swap),
            Symbol::Build(Make::MemberAhead),
            Symbol::Want(Goal::Members),
            Symbol::Build(Make::ConsBelow),
        ]),
        _ => Some(&[
            Symbol::Want(Goal::Member),
            Symbol::Build(Make::Swap),
            Symbol::Build(Make::MemberAhead),
            Symbol::Want(Goal::Members),
            Symbol::Build(Make::ConsBelow),
        ]),
    }
}

pub(crate) fn member(next: Terminal, tag: Tag) -> Option<&'static [Symbol]>
    ensures { IsRule result (rule Goal.Member next tag) }
{
    match next {
        Terminal::Access => Some(&[Symbol::Take(Terminal::Access), Symbol::Want(Goal::Member)]),
        Terminal::Static => Some(&[
            Symbol::Take(Terminal::Static),
            Symbol::Build(Make::SetStatic),
            Symbol::Want(Goal::Member),
        ]),
        Terminal::Final => Some(&[
            Symbol::Take(Terminal::Final),
            Symbol::Build(Make::SetFinal),
            Symbol::Want(Goal::Member),
        ]),
        Terminal::At => Some(&[
            Symbol::Take(Terminal::At),
            Symbol::Spell(Spelled::Override),
            Symbol::Build(Make::SetOverrides),
            Symbol::Want(Goal::Member),
        ]),
        Terminal::Void => Some(&[
            Symbol::Keep(Terminal::Void),
            Symbol::Build(Make::TypeOfMark),
            Symbol::Word,
            Symbol::Want(Goal::Method),
        ]),
        Terminal::Class => match tag {
            Tag::Nestable => Some(&[
                Symbol::Take(Terminal::Class),
                Symbol::Word,
                Symbol::Want(Goal::Extended),
                Symbol::Build(Make::NestedOwner),
                Symbol::Build(Make::MemberAhead),
                Symbol::Take(Terminal::LeftBrace),
                Symbol::Want(Goal::Members),
                Symbol::Take(Terminal::RightBrace),
                Symbol::Build(Make::Class),
                Symbol::Build(Make::Nested),
            ]),
            _ => None
        },
        Terminal::Primitive => match tag {
            Tag::Overriding => Some(&[
                Symbol::Want(Goal::Type),
                Symbol::Word,
                Symbol::Want(Goal::Method),
            ]),
            _ => Some(&[
                Symbol::Want(Goal::Type),
                Symbol::Word,
                Symbol::Want(Goal::FieldOrMethod),
            ])
        },
        Terminal::Identifier => match tag {
            Tag::Overriding => Some(&[
                Symbol::Want(Goal::Type),
                Symbol::Word,
                Symbol::Want(Goal::Method),
            ]),
            _ => Some(&[Symbol::Word, Symbol::Want(Goal::MemberName)])
        },
        _ => None,
    }
}

pub(crate) fn member_name(next: Terminal, tag: Tag) -> Option<&'static [Symbol]>
    ensures { IsRule result (rule Goal.MemberName next tag) }
{
    match next {
        Terminal::LeftParenthesis => match tag {
            Tag::Constructor => Some(&[
                Symbol::Take(Terminal::LeftParenthesis),
                Symbol::Want(Goal::Parameters),
                Symbol::Take(Terminal::RightParenthesis),
                Symbol::Take(Terminal::LeftBrace),
                Symbol::Want(Goal::ConstructorBody),
                Symbol::Take(Terminal::RightBrace),
                Symbol::Build(Make::Constructor),
            ]),
            _ => None
        },
        Terminal::Dot => Some(&[
            Symbol::Take(Terminal::Dot),
            Symbol::Word,
            Symbol::Build(Make::Pair),
            Symbol::Want(Goal::TypeTail),
            Symbol::Word,
            Symbol::Want(Goal::FieldOrMethod),
        ]),
        Terminal::Less | Terminal::LeftBracket | Terminal::Identifier => Some(&[
            Symbol::Want(Goal::TypeTail),
            Symbol::Word,
            Symbol::Want(Goal::FieldOrMethod),
        ]),
        _ => None,
    }
}

pub(crate) fn contracts(next: Terminal) -> Option<&'static [Symbol]>
    ensures { (tag : Tag) → IsRule result (rule Goal.Contracts next tag) }
{
    match next {
        Terminal::Contract => Some(&[
            Symbol::Keep(Terminal::Contract),
            Symbol::Want(Goal::Contract),
            Symbol::Want(Goal::Contracts),
            Symbol::Build(Make::Cons),
        ]),
        _ => Some(&[Symbol::Build(Make::Nil)]),
    }
}

pub(crate) fn contract(next: Terminal) -> Option<&'static [Symbol]>
    ensures { (tag : Tag) → IsRule result (rule Goal.Contract next tag) }
{
    match next {
        Terminal::Requires => Some(&[
            Symbol::Take(Terminal::Requires),
            Symbol::Want(Goal::Expression),
            Symbol::Take(Terminal::Semicolon),
            Symbol::Build(Make::Requires),
        ]),
        Terminal::Ensures => Some(&[
            Symbol::Take(Terminal::Ensures),
            Symbol::Want(Goal::Expression),
            Symbol::Take(Terminal::Semicolon),
            Symbol::Build(Make::Ensures),
        ]),
        Terminal::Signals => Some(&[
            Symbol::Take(Terminal::Signals),
            Symbol::Take(Terminal::LeftParenthesis),
            Symbol::Word,
            Symbol::Want(Goal::ClassTail),
            Symbol::Want(Goal::ThrownName),
            Symbol::Take(Terminal::RightParenthesis),
            Symbol::Want(Goal::Expression),
            Symbol::Take(Terminal::Semicolon),
            Symbol::Build(Make::Signals),
        ]),
        _ => None,
    }
}

pub(crate) fn thrown_name(next: Terminal) -> Option<&'static [Symbol]>
    ensures { (tag : Tag) → IsRule result (rule Goal.ThrownName next tag) }
{
    match next {
        Terminal::Identifier => Some(&[Symbol::Word, Symbol::Build(Make::Parameter)]),
        _ => Some(&[]),
    }
}

pub(crate) fn method_ahead(next: Terminal) -> Option<&'static [Symbol]>
    ensures { (tag : Tag) → IsRule result (rule Goal.MethodAhead next tag) }
{
    match next {
        Terminal::Access => Some(&[
            Symbol::Take(Terminal::Access),
            Symbol::Want(Goal::MethodAhead),
        ]),
        Terminal::Static => Some(&[
            Symbol::Take(Terminal::Static),
            Symbol::Build(Make::SetStatic),
            Symbol::Want(Goal::MethodAhead),
        ]),
        Terminal::Final => Some(&[
            Symbol::Take(Terminal::Final),
            Symbol::Build(Make::SetFinal),
            Symbol::Want(Goal::MethodAhead),
        ]),
        Terminal::At => Some(&[
            Symbol::Take(Terminal::At),
            Symbol::Spell(Spelled::Override),
            Symbol::Build(Make::SetOverrides),
            Symbol::Want(Goal::MethodAhead),
        ]),
        Terminal::Void => Some(&[
            Symbol::Keep(Terminal::Void),
            Symbol::Build(Make::TypeOfMark),
            Symbol::Word,
            Symbol::Want(Goal::ContractedMethod),
        ]),
        Terminal::Primitive | Terminal::Identifier => Some(&[
            Symbol::Want(Goal::Type),
            Symbol::Word,
            Symbol::Want(Goal::ContractedMethod),
        ]),
        _ => None,
    }
}

pub(crate) fn contracted_method() -> Option<&'static [Symbol]>
    ensures { (next : Terminal) → (tag : Tag) → IsRule result (rule Goal.ContractedMethod next tag) }
{
    Some(&[
        Symbol::Take(Terminal::LeftParenthesis),
        Symbol::Want(Goal::Parameters),
        Symbol::Take(Terminal::RightParenthesis),
        Symbol::Take(Terminal::LeftBrace),
        Symbol::Want(Goal::Statements),
        Symbol::Take(Terminal::RightBrace),
        Symbol::Build(Make::ContractedMethod),
    ])
}

pub(crate) fn method(next: Terminal) -> Option<&'static [Symbol]>
    ensures { (tag : Tag) → IsRule result (rule Goal.Method next tag) }
{
    match next {
        Terminal::LeftParenthesis => Some(&[
            Symbol::Take(Terminal::LeftParenthesis),
            Symbol::Want(Goal::Parameters),
            Symbol::Take(Terminal::RightParenthesis),
            Symbol::Take(Terminal::LeftBrace),
            Symbol::Want(Goal::Statements),
            Symbol::Take(Terminal::RightBrace),
            Symbol::Build(Make::Method),
        ]),
        _ => None,
    }
}

pub(crate) fn field_or_method(next: Terminal) -> Option<&'static [Symbol]>
    ensures { (tag : Tag) → IsRule result (rule Goal.FieldOrMethod next tag) }
{
    match next {
        Terminal::LeftParenthesis => Some(&[Symbol::Want(Goal::Method)]),
        Terminal::Equal | Terminal::Comma | Terminal::Semicolon => Some(&[
            Symbol::Want(Goal::Initialiser),
            Symbol::Build(Make::Declarator),
            Symbol::Want(Goal::MoreDeclarators),
            Symbol::Take(Terminal::Semicolon),
            Symbol::Build(Make::Field),
        ]),
        _ => None,
    }
}

pub(crate) fn parameters(next: Terminal) -> Option<&'static [Symbol]>
    ensures { (tag : Tag) → IsRule result (rule Goal.Parameters next tag) }
{
    match next {
        Terminal::RightParenthesis => Some(&[Symbol::Build(Make::Nil)]),
        _ => Some(&[
            Symbol::Want(Goal::Parameter),
            Symbol::Want(Goal::MoreParameters),
        ]),
    }
}

pub(crate) fn parameter(next: Terminal) -> Option<&'static [Symbol]>
    ensures { (tag : Tag) → IsRule result (rule Goal.Parameter next tag) }
{
    match next {
        Terminal::Final => Some(&[
            Symbol::Take(Terminal::Final),
            Symbol::Want(Goal::Type),
            Symbol::Word,
            Symbol::Build(Make::Parameter),
        ]),
        _ => Some(&[
            Symbol::Want(Goal::Type),
            Symbol::Word,
            Symbol::Build(Make::Parameter),
        ]),
    }
}

pub(crate) fn more_parameters(next: Terminal) -> Option<&'static [Symbol]>
    ensures { (tag : Tag) → IsRule result (rule Goal.MoreParameters next tag) }
{
    match next {
        Terminal::Comma => Some(&[
            Symbol::Take(Terminal::Comma),
            Symbol::Want(Goal::Parameter),
            Symbol::Want(Goal::MoreParameters),
            Symbol::Build(Make::Cons),
        ]),
        _ => Some(&[Symbol::Build(Make::Nil), Symbol::Build(Make::Cons)]),
    }
}

pub(crate) fn constructor_body(next: Terminal) -> Option<&'static [Symbol]>
    ensures { (tag : Tag) → IsRule result (rule Goal.ConstructorBody next tag) }
{
    match next {
        Terminal::Super => Some(&[
            Symbol::Keep(Terminal::Super),
            Symbol::Want(Goal::AfterSuper),
        ]),
        _ => Some(&[Symbol::Build(Make::Nil), Symbol::Want(Goal::Statements)]),
    }
}

pub(crate) fn after_super(next: Terminal) -> Option<&'static [Symbol]>
    ensures { (tag : Tag) → IsRule result (rule Goal.AfterSuper next tag) }
{
    match next {
        Terminal::LeftParenthesis => Some(&[
            Symbol::Take(Terminal::LeftParenthesis),
            Symbol::Want(Goal::Arguments),
            Symbol::Take(Terminal::RightParenthesis),
            Symbol::Take(Terminal::Semicolon),
            Symbol::Build(Make::ConstructorCall),
            Symbol::Want(Goal::Statements),
        ]),
        Terminal::Dot => Some(&[
            Symbol::Build(Make::Nil),
            Symbol::Build(Make::Swap),
            Symbol::Take(Terminal::Dot),
            Symbol::Word,
            Symbol::Take(Terminal::LeftParenthesis),
            Symbol::Want(Goal::Arguments),
            Symbol::Take(Terminal::RightParenthesis),
            Symbol::Build(Make::SuperCall),
            Symbol::Want(Goal::Suffixes),
            Symbol::Want(Goal::AfterStatementPrimary),
            Symbol::Build(Make::ExpressionStatement),
            Symbol::Take(Terminal::Semicolon),
            Symbol::Want(Goal::Statements),
            Symbol::Build(Make::Cons),
        ]),
        _ => None,
    }
}
