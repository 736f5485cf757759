// The facts known of a node, and the verdict of a rule.
ghost use Rattle.std.specs.Prelude.{◌≡◌, ◌<◌};
ghost use Rattle.kr_types_meaning.specs.Rules as rules;
ghost use Rattle.kr_classes_names.specs.Types.{TypeList, count, type_at};
ghost use Rattle.kr_types_judging.specs.Numbers.{rule_number};
ghost use Rattle.kr_types_judging.specs.Shown.{IsVerdictWithin, verdict_shown};

use crate::rules::TypingRule;
use kr_classes_table::TypeId;

/// The facts known of an expression: none, a value of a type, or a variable of a type; by the type's number.
#[derive(Clone, Copy, PartialEq, Eq)]
pub enum Typed {
    Untyped,
    Value(TypeId),
    Variable(TypeId),
}

/// The facts known of a node: those of an expression; that it is absent, or an empty list; or that it is a list of
/// values, by the type of the first and the node of the rest.
#[derive(Clone, Copy, PartialEq, Eq)]
pub enum Known {
    One(Typed),
    Absent,
    More { first: TypeId, rest: u32 },
}

/// The verdict of a rule: the facts known of the node, or the broken rule.
#[derive(Clone, Copy, PartialEq, Eq)]
pub enum Judgement {
    Fits(Typed),
    Breaks(TypingRule),
}

impl Judgement {
    /// No rule is broken, and there is no type.
    pub fn fine() -> Judgement
        ensures within { (l : TypeList) → IsVerdictWithin l result }
        ensures says { (l : TypeList) → verdict_shown l result ≡ rules.fine }
    {
        Judgement::Fits(Typed::Untyped)
    }

    /// A value of a type.
    pub fn value(number: TypeId) -> Judgement
        ensures within { (l : TypeList) → number < count l → IsVerdictWithin l result }
        ensures says { (l : TypeList) → verdict_shown l result ≡ rules.Fits (rules.Value (type_at l number)) }
    {
        Judgement::Fits(Typed::Value(number))
    }

    /// The verdict `rest` if the test holds; else this rule is broken.
    pub fn ask(test: bool, rule: TypingRule, rest: Judgement) -> Judgement
        ensures within { (l : TypeList) → IsVerdictWithin l rest → IsVerdictWithin l result }
        ensures says { (l : TypeList) → verdict_shown l result ≡ rules.ask test (rule_number rule) (verdict_shown l rest) }
    {
        if test { rest } else { Judgement::Breaks(rule) }
    }

    /// A value of a type where the test holds; else this rule is broken.
    pub fn value_if(test: bool, rule: TypingRule, number: TypeId) -> Judgement
        ensures within { (l : TypeList) → number < count l → IsVerdictWithin l result }
        ensures says { (l : TypeList) → verdict_shown l result ≡ rules.ask test (rule_number rule) (rules.Fits (rules.Value (type_at l number))) }
    {
        if test {
            Judgement::Fits(Typed::Value(number))
        } else {
            Judgement::Breaks(rule)
        }
    }

    /// The verdict `rest`, unless this one is a broken rule.
    pub fn and(self, rest: Judgement) -> Judgement
        ensures within { (l : TypeList) → IsVerdictWithin l rest → IsVerdictWithin l result }
        ensures says { (l : TypeList) → verdict_shown l result ≡ rules.then_rule (verdict_shown l self) (verdict_shown l rest) }
    {
        match self {
            Judgement::Breaks(rule) => Judgement::Breaks(rule),
            Judgement::Fits(_) => rest,
        }
    }

    /// No fault if the test holds; else this rule is broken.
    pub fn fine_if(test: bool, rule: TypingRule) -> Judgement
        ensures within { (l : TypeList) → IsVerdictWithin l result }
        ensures says { (l : TypeList) → verdict_shown l result ≡ rules.ask test (rule_number rule) rules.fine }
    {
        if test {
            Judgement::Fits(Typed::Untyped)
        } else {
            Judgement::Breaks(rule)
        }
    }
}
