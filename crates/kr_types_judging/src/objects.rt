// Rules on calls of a method of the superclass, and on calls through objects: T5, T24, T25, T33.
ghost use Rattle.std.specs.Prelude.{◌≡◌, ◌<◌, ℕ, IfSome, List, map, All, option_and_then, option_map};
ghost use Rattle.kr_types_meaning.specs.Rules as rules;
ghost use Rattle.kr_types_meaning.specs.Scopes as scopes;
ghost use Rattle.kr_types_judging.specs.Vocabulary.{Binding, count, IsMethod, method_named, method_shown, scope_in, Setting, table_in, type_at};
ghost use Rattle.kr_types_judging.specs.Classes.{AreClassTypes};
ghost use Rattle.kr_types_judging.specs.Shown.{IsVerdictWithin, verdict_shown};

use crate::calls::{above_rule, method_rule};
use crate::class_types::ClassTypes;
use crate::collections::collection_rule;
use crate::known::Judgement;
use crate::rules::TypingRule;
use kr_classes_members::Method;
use kr_classes_names::TypeForm;
use kr_classes_table::TypeId;
use kr_types_scopes::Within;

/// T5: not in static code; T33: `super.m`, the method that the superclass has, is an instance method; T24.
pub fn super_rule(
    classes: &ClassTypes<'_>,
    here: Within,
    found: Option<Method>,
    arguments: &[TypeId],
) -> Judgement
    requires classes { AreClassTypes classes.now }
    requires found { IfSome found (IsMethod classes.now.trees.now) }
    requires arguments { All (λ t. t < count classes.now.types.now) arguments.now }
    ensures within { IsVerdictWithin classes.now.types.now result }
    ensures says { (g : Setting) (bs : List Binding) (name : List ℕ) → g.table ≡ table_in classes.now.trees.now → option_map (method_shown classes.now.trees.now) found ≡ option_and_then (λ c. method_named g.table c name) (scopes.super_class (scope_in g bs here)) → verdict_shown classes.now.types.now result ≡ rules.super_rule (scope_in g bs here) name (map (type_at classes.now.types.now) arguments.now) }
{
    Judgement::ask(
        !here.is_static,
        TypingRule::StaticCode,
        above_rule(classes, here, found, arguments),
    )
}

/// T24, T25: a call through an object.
pub fn object_call_rule(
    classes: &ClassTypes<'_>,
    here: Within,
    name: &[u8],
    object: TypeId,
    arguments: &[TypeId],
) -> Judgement
    requires classes { AreClassTypes classes.now }
    requires object { object < count classes.now.types.now }
    requires arguments { All (λ t. t < count classes.now.types.now) arguments.now }
    ensures within { IsVerdictWithin classes.now.types.now result }
    ensures says { (g : Setting) (bs : List Binding) → g.table ≡ table_in classes.now.trees.now → verdict_shown classes.now.types.now result ≡ rules.object_call_rule (scope_in g bs here) name.now (type_at classes.now.types.now object) (map (type_at classes.now.types.now) arguments.now) }
{
    match classes.types.form(object) {
        TypeForm::Class(class) => {
            let found = classes.members.method_named(class, name);
            method_rule(classes, here, found, arguments)
        }
        TypeForm::Set(member) => {
            collection_rule(
                classes.types,
                classes.members,
                here,
                false,
                member,
                name,
                arguments,
            )
        }
        TypeForm::List(member) => {
            collection_rule(
                classes.types,
                classes.members,
                here,
                true,
                member,
                name,
                arguments,
            )
        }
        _ => Judgement::Breaks(TypingRule::Call),
    }
}
