// The rules for operators between operands.
ghost use Rattle.std.specs.Prelude.{◌≡◌, ◌<◌};
ghost use Rattle.kr_parse_grammar.specs.declared.value.Tag.{Tag};
ghost use Rattle.kr_parse_grammar.specs.Machine.{level_of, ends_expression, rule};
ghost use Rattle.kr_parse_grammar.specs.RuleTable.{IsInfix};

use crate::goal::{Goal, Make, Symbol};
use crate::terminal::Terminal;

/// How an expression continues after an operand.
#[derive(Clone, Copy)]
pub enum Infix {
    /// no expression continues so
    Dead,
    /// the operation ends
    Ends,
    /// a type is tested
    Tests([Symbol; 3]),
    /// an operator, with its right operand
    Operates([Symbol; 5]),
}

/// How tightly the operators of a terminal bind, 0 where it has none.
fn level_of(next: Terminal) -> u8
    ensures level { result ≡ level_of next }
    ensures below { result < 11 }
{
    match next {
        Terminal::Or => 1,
        Terminal::And => 2,
        Terminal::BitOr => 3,
        Terminal::BitXor => 4,
        Terminal::BitAnd => 5,
        Terminal::Equality => 6,
        Terminal::Less | Terminal::Greater | Terminal::Relation | Terminal::Instanceof => 7,
        Terminal::Shift => 8,
        Terminal::Sign => 9,
        Terminal::Star | Terminal::Division => 10,
        _ => 0,
    }
}

/// Whether an expression may end before this token.
fn ends_expression(next: Terminal) -> bool
    ensures { result ≡ ends_expression next }
{
    matches!(
        next,
        Terminal::RightParenthesis
            | Terminal::RightBracket
            | Terminal::Semicolon
            | Terminal::Comma
            | Terminal::Question
            | Terminal::Colon
    )
}

/// The rule for operators with a level from `least` to `most`.
pub fn after_operand(least: u8, most: u8, next: Terminal) -> Infix
    ensures { (tag : Tag) → IsInfix result (rule (Goal.Operators least most) next tag) }
{
    let level = level_of(next);
    if level == 0 {
        return if ends_expression(next) {
            Infix::Ends
        } else {
            Infix::Dead
        };
    }
    if level < least {
        return Infix::Ends;
    }
    if level > most {
        return Infix::Dead;
    }
    if next == Terminal::Instanceof {
        return Infix::Tests([
            Symbol::Take(Terminal::Instanceof),
            Symbol::Want(Goal::Tested),
            Symbol::Want(Goal::Operators { least, most: 7 }),
        ]);
    }
    Infix::Operates([
        Symbol::Keep(next),
        Symbol::Want(Goal::Unary),
        Symbol::Want(Goal::Operators {
            least: level + 1,
            most: 10,
        }),
        Symbol::Build(Make::Binary),
        Symbol::Want(Goal::Operators { least, most: level }),
    ])
}
