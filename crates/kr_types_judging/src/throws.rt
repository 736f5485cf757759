// Rules on what is thrown and caught: T41 to T43. Each takes the number of the type that `Throwable` means.
ghost use Rattle.std.specs.Prelude.{◌≡◌, ◌<◌};
ghost use Rattle.kr_classes_table.specs.Table as table;
ghost use Rattle.kr_types_meaning.specs.Rules as rules;
ghost use Rattle.kr_types_judging.specs.Vocabulary.{count, Scope, table_in, type_at};
ghost use Rattle.kr_types_judging.specs.Classes.{AreClassTypes};
ghost use Rattle.kr_types_judging.specs.Numbers.{rule_number};
ghost use Rattle.kr_types_judging.specs.Shown.{IsThrowable, IsVerdictWithin, verdict_shown};

use crate::class_types::ClassTypes;
use crate::known::Judgement;
use crate::relations::is_assignable;
use crate::rules::TypingRule;
use kr_classes_table::TypeId;

/// Whether a value of a type may be thrown.
fn may_be_thrown(classes: &ClassTypes<'_>, throwable: TypeId, number: TypeId) -> bool
    requires classes { AreClassTypes classes.now }
    requires throwable { IsThrowable classes.now.trees.now classes.now.types.now throwable }
    requires number { number < count classes.now.types.now }
    ensures { (s : Scope) → s.table ≡ table_in classes.now.trees.now → result ≡ table.is_assignable s.table (type_at classes.now.types.now number) (rules.throwable s) }
{
    is_assignable(classes.types, classes.members, number, throwable)
}

/// T41: what is thrown is of class Throwable or one below it.
pub fn throw_rule(classes: &ClassTypes<'_>, throwable: TypeId, thrown: TypeId) -> Judgement
    requires classes { AreClassTypes classes.now }
    requires throwable { IsThrowable classes.now.trees.now classes.now.types.now throwable }
    requires thrown { thrown < count classes.now.types.now }
    ensures within { IsVerdictWithin classes.now.types.now result }
    ensures says { (s : Scope) → s.table ≡ table_in classes.now.trees.now → verdict_shown classes.now.types.now result ≡ rules.throw_rule s (type_at classes.now.types.now thrown) }
{
    Judgement::fine_if(may_be_thrown(classes, throwable, thrown), TypingRule::Throw)
}

/// T42 of `catch`, T43 of `signals`: the class is Throwable or one below it.
pub fn caught_rule(
    classes: &ClassTypes<'_>,
    throwable: TypeId,
    rule: TypingRule,
    caught: TypeId,
) -> Judgement
    requires classes { AreClassTypes classes.now }
    requires throwable { IsThrowable classes.now.trees.now classes.now.types.now throwable }
    requires caught { caught < count classes.now.types.now }
    ensures within { IsVerdictWithin classes.now.types.now result }
    ensures says { (s : Scope) → s.table ≡ table_in classes.now.trees.now → verdict_shown classes.now.types.now result ≡ rules.caught_rule s (rule_number rule) (type_at classes.now.types.now caught) }
{
    Judgement::fine_if(
        !classes.types.is_known(caught) || may_be_thrown(classes, throwable, caught),
        rule,
    )
}
