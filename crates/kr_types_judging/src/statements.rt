// Rules on statements and contracts: T28, T31, T38, T40.
ghost use Rattle.std.specs.Prelude.{◌≡◌, ◌<◌};
ghost use Rattle.kr_types_meaning.specs.Rules as rules;
ghost use Rattle.kr_types_judging.specs.Vocabulary.{count, part_of, type_at};
ghost use Rattle.kr_types_judging.specs.Shown.{IsVerdictWithin, Says, verdict_shown};

use crate::known::Judgement;
use crate::relations::is_boolean;
use crate::rules::TypingRule;
use kr_classes_members::Members;
use kr_classes_names::Types;
use kr_classes_table::TypeId;
use kr_types_scopes::{Part, Within};

/// Whether it is `ensures`.
pub(crate) fn is_ensuring(part: Part) -> bool
    ensures { result ≡ rules.is_ensuring (part_of part) }
{
    match part {
        Part::Ensuring => true,
        _ => false,
    }
}

/// Whether it comes after the body.
fn is_after_body(part: Part) -> bool
    ensures { result ≡ rules.is_after_body (part_of part) }
{
    match part {
        Part::Ensuring | Part::Signalling => true,
        _ => false,
    }
}

/// T28: a condition is boolean.
pub fn condition_rule(types: &Types, test: TypeId) -> Judgement
    requires { test < count types.now }
    ensures within { IsVerdictWithin types.now result }
    ensures says { verdict_shown types.now result ≡ rules.condition_rule (type_at types.now test) }
{
    Judgement::fine_if(is_boolean(types, test), TypingRule::Condition)
}

/// T28: boolean; T40: before instance methods only.
pub fn contract_rule(types: &Types, members: &Members, here: Within, test: TypeId) -> Judgement
    requires { test < count types.now }
    ensures within { IsVerdictWithin types.now result }
    ensures says { Says members.now types.now here result (λ s. rules.contract_rule s (type_at types.now test)) }
{
    Judgement::ask(
        is_boolean(types, test),
        TypingRule::Condition,
        Judgement::fine_if(!here.is_static, TypingRule::ContractPlace),
    )
}

/// T31: in a loop.
pub fn jump_rule(types: &Types, members: &Members, here: Within) -> Judgement
    ensures within { IsVerdictWithin types.now result }
    ensures says { Says members.now types.now here result (λ s. rules.jump_rule s) }
{
    Judgement::fine_if(here.is_in_loop, TypingRule::Jump)
}

/// T38: `\old` only in `ensures` and `signals`, and not in `\old`.
pub fn old_rule(types: &Types, members: &Members, here: Within, whole: TypeId) -> Judgement
    requires { whole < count types.now }
    ensures within { IsVerdictWithin types.now result }
    ensures says { Says members.now types.now here result (λ s. rules.old_rule s (type_at types.now whole)) }
{
    Judgement::value_if(
        is_after_body(here.part) && !here.is_in_old,
        TypingRule::ContractValue,
        whole,
    )
}
