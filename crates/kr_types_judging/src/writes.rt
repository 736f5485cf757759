// Rules on writes: T16 to T19, T39.
ghost use Rattle.std.specs.Prelude.{◌≡◌, ◌<◌};
ghost use Rattle.kr_types_meaning.specs.Rules as rules;
ghost use Rattle.kr_types_judging.specs.Vocabulary.{count, part_of, type_at};
ghost use Rattle.kr_types_judging.specs.Shown.{IsVerdictWithin, Says, typed_shown, verdict_shown};

use crate::known::{Judgement, Typed};
use crate::operators::operator_rule;
use crate::relations::{is_assignable, is_number};
use crate::rules::TypingRule;
use kr_ast::BinaryOperator;
use kr_classes_members::Members;
use kr_classes_names::Types;
use kr_classes_table::TypeId;
use kr_types_scopes::{Part, Within};

/// Whether it may be written.
fn is_variable(types: &Types, target: Typed) -> bool
    ensures { result ≡ rules.is_variable (typed_shown types.now target) }
{
    match target {
        Typed::Variable(_) => true,
        _ => false,
    }
}

/// Whether it is code, and no contract.
pub fn is_code(part: Part) -> bool
    ensures { result ≡ rules.is_code (part_of part) }
{
    match part {
        Part::Code => true,
        _ => false,
    }
}

/// Whether a rule is broken.
fn is_broken(types: &Types, verdict: Judgement) -> bool
    ensures { result ≡ rules.is_broken (verdict_shown types.now verdict) }
{
    match verdict {
        Judgement::Breaks(_) => true,
        Judgement::Fits(_) => false,
    }
}

/// T19: it writes a variable; T39: not in a contract.
fn written_rule(
    types: &Types,
    members: &Members,
    here: Within,
    target: Typed,
    to: TypeId,
) -> Judgement
    requires { to < count types.now }
    ensures within { IsVerdictWithin types.now result }
    ensures says { Says members.now types.now here result (λ s. rules.written_rule s (typed_shown types.now target) (type_at types.now to)) }
{
    let in_code = is_code(here.part);
    Judgement::ask(
        is_variable(types, target),
        TypingRule::Target,
        Judgement::ask(in_code, TypingRule::ContractWrite, Judgement::value(to)),
    )
}

/// T16: the right side is assignable to the left one.
pub fn assignment_rule(
    types: &Types,
    members: &Members,
    here: Within,
    target: Typed,
    to: TypeId,
    from: TypeId,
) -> Judgement
    requires to { to < count types.now }
    requires from { from < count types.now }
    ensures within { IsVerdictWithin types.now result }
    ensures says { Says members.now types.now here result (λ s. rules.assignment_rule s (typed_shown types.now target) (type_at types.now to) (type_at types.now from)) }
{
    Judgement::ask(
        is_assignable(types, members, from, to),
        TypingRule::Assignment,
        written_rule(types, members, here, target, to),
    )
}

/// T17: the operator takes both sides.
pub fn compound_rule(
    types: &Types,
    members: &Members,
    here: Within,
    operator: BinaryOperator,
    target: Typed,
    to: TypeId,
    from: TypeId,
) -> Judgement
    requires to { to < count types.now }
    requires from { from < count types.now }
    ensures within { IsVerdictWithin types.now result }
    ensures says { Says members.now types.now here result (λ s. rules.compound_rule s operator (typed_shown types.now target) (type_at types.now to) (type_at types.now from)) }
{
    let operated = operator_rule(types, members, here, operator, to, from);
    Judgement::ask(
        !is_broken(types, operated),
        TypingRule::CompoundAssignment,
        written_rule(types, members, here, target, to),
    )
}

/// T18.
pub fn step_rule(
    types: &Types,
    members: &Members,
    here: Within,
    target: Typed,
    to: TypeId,
) -> Judgement
    requires { to < count types.now }
    ensures within { IsVerdictWithin types.now result }
    ensures says { Says members.now types.now here result (λ s. rules.step_rule s (typed_shown types.now target) (type_at types.now to)) }
{
    Judgement::ask(
        is_number(types, to),
        TypingRule::Step,
        written_rule(types, members, here, target, to),
    )
}
