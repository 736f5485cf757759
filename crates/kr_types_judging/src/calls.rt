// Rules on calls: T5, T24, T25, T32, T33.
ghost use Rattle.std.specs.Prelude.{◌≡◌, ◌<◌, ◌||◌, not, IfSome, List, map, All, option_map};
ghost use Rattle.kr_types_meaning.specs.Rules as rules;
ghost use Rattle.kr_types_judging.specs.Vocabulary.{AreNodeTypes, Binding, count, is_void, IsMethod, IsTypeNumber, method_shown, role_of, scope_in, Setting, table_in, type_at};
ghost use Rattle.kr_types_judging.specs.Classes.{AreClassTypes};
ghost use Rattle.kr_types_judging.specs.Shown.{IsVerdictWithin, verdict_shown};

use crate::arguments::arguments_fit;
use crate::class_types::ClassTypes;
use crate::known::Judgement;
use crate::members::value_of;
use crate::relations::is_void;
use crate::rules::TypingRule;
use kr_classes_members::Method;
use kr_classes_names::Types;
use kr_classes_table::TypeId;
use kr_types_scopes::{Role, Within};

/// Whether the role is that of a statement.
fn is_statement(role: Role) -> bool
    ensures { result ≡ rules.is_statement (role_of role) }
{
    match role {
        Role::AsStatement => true,
        _ => false,
    }
}

/// Whether a call with this result may occur there: one without a result is only a statement.
fn may_stand(types: &Types, number: TypeId, here: Within) -> bool
    requires { number < count types.now }
    ensures { result ≡ (not (is_void (type_at types.now number)) || rules.is_statement (role_of here.role)) }
{
    !is_void(types, number) || is_statement(here.role)
}

/// The type of a method's result.
fn result_type(classes: &ClassTypes<'_>, method: Method) -> TypeId
    requires { AreNodeTypes classes.now.trees.now classes.now.types.now classes.now.node_types.now }
    ensures { IsTypeNumber classes.now.types.now result (method_shown classes.now.trees.now method).result }
{
    classes.node_types.number(method.file, method.result)
}

/// T32: a call of a method without result is a statement.
fn result_rule(classes: &ClassTypes<'_>, here: Within, method: Method) -> Judgement
    requires { AreNodeTypes classes.now.trees.now classes.now.types.now classes.now.node_types.now }
    ensures within { IsVerdictWithin classes.now.types.now result }
    ensures says { (g : Setting) (bs : List Binding) → verdict_shown classes.now.types.now result ≡ rules.result_rule (scope_in g bs here) (method_shown classes.now.trees.now method) }
{
    let number = result_type(classes, method);
    Judgement::ask(
        may_stand(classes.types, number, here),
        TypingRule::NoResult,
        value_of(classes.types, number),
    )
}

/// T24: the arguments fit.
fn arguments_rule(
    classes: &ClassTypes<'_>,
    here: Within,
    method: Method,
    arguments: &[TypeId],
) -> Judgement
    requires classes { AreClassTypes classes.now }
    requires method { IsMethod classes.now.trees.now method }
    requires arguments { All (λ t. t < count classes.now.types.now) arguments.now }
    ensures within { IsVerdictWithin classes.now.types.now result }
    ensures says { (g : Setting) (bs : List Binding) → g.table ≡ table_in classes.now.trees.now → verdict_shown classes.now.types.now result ≡ rules.arguments_rule (scope_in g bs here) (map (type_at classes.now.types.now) arguments.now) (method_shown classes.now.trees.now method) }
{
    let fit = arguments_fit(classes, arguments, method.file, method.parameters);
    Judgement::ask(fit, TypingRule::Call, result_rule(classes, here, method))
}

/// T24: there is the method; T5: no instance method in static code.
pub fn call_rule(
    classes: &ClassTypes<'_>,
    here: Within,
    found: Option<Method>,
    arguments: &[TypeId],
) -> Judgement
    requires classes { AreClassTypes classes.now }
    requires found { IfSome found (IsMethod classes.now.trees.now) }
    requires arguments { All (λ t. t < count classes.now.types.now) arguments.now }
    ensures within { IsVerdictWithin classes.now.types.now result }
    ensures says { (g : Setting) (bs : List Binding) → g.table ≡ table_in classes.now.trees.now → verdict_shown classes.now.types.now result ≡ rules.call_rule (scope_in g bs here) (option_map (method_shown classes.now.trees.now) found) (map (type_at classes.now.types.now) arguments.now) }
{
    match found {
        None => Judgement::Breaks(TypingRule::Call),
        Some(method) => Judgement::ask(
            method.is_static || !here.is_static,
            TypingRule::StaticCode,
            arguments_rule(classes, here, method, arguments),
        ),
    }
}

/// T24 after a class's name.
pub fn static_rule(
    classes: &ClassTypes<'_>,
    here: Within,
    found: Option<Method>,
    arguments: &[TypeId],
) -> Judgement
    requires classes { AreClassTypes classes.now }
    requires found { IfSome found (IsMethod classes.now.trees.now) }
    requires arguments { All (λ t. t < count classes.now.types.now) arguments.now }
    ensures within { IsVerdictWithin classes.now.types.now result }
    ensures says { (g : Setting) (bs : List Binding) → g.table ≡ table_in classes.now.trees.now → verdict_shown classes.now.types.now result ≡ rules.static_rule (scope_in g bs here) (option_map (method_shown classes.now.trees.now) found) (map (type_at classes.now.types.now) arguments.now) }
{
    match found {
        None => Judgement::Breaks(TypingRule::Call),
        Some(method) => Judgement::ask(
            method.is_static,
            TypingRule::Call,
            arguments_rule(classes, here, method, arguments),
        ),
    }
}

/// T33: `super.m` is an instance method of an ancestor; T24.
pub(crate) fn above_rule(
    classes: &ClassTypes<'_>,
    here: Within,
    found: Option<Method>,
    arguments: &[TypeId],
) -> Judgement
    requires classes { AreClassTypes classes.now }
    requires found { IfSome found (IsMethod classes.now.trees.now) }
    requires arguments { All (λ t. t < count classes.now.types.now) arguments.now }
    ensures within { IsVerdictWithin classes.now.types.now result }
    ensures says { (g : Setting) (bs : List Binding) → g.table ≡ table_in classes.now.trees.now → verdict_shown classes.now.types.now result ≡ rules.above_rule (scope_in g bs here) (option_map (method_shown classes.now.trees.now) found) (map (type_at classes.now.types.now) arguments.now) }
{
    match found {
        None => Judgement::Breaks(TypingRule::SuperCall),
        Some(method) => {
            if method.is_static {
                return Judgement::Breaks(TypingRule::SuperCall);
            }
            arguments_rule(classes, here, method, arguments)
        }
    }
}

/// T24: a method of an object's class.
pub(crate) fn method_rule(
    classes: &ClassTypes<'_>,
    here: Within,
    found: Option<Method>,
    arguments: &[TypeId],
) -> Judgement
    requires classes { AreClassTypes classes.now }
    requires found { IfSome found (IsMethod classes.now.trees.now) }
    requires arguments { All (λ t. t < count classes.now.types.now) arguments.now }
    ensures within { IsVerdictWithin classes.now.types.now result }
    ensures says { (g : Setting) (bs : List Binding) → g.table ≡ table_in classes.now.trees.now → verdict_shown classes.now.types.now result ≡ rules.method_rule (scope_in g bs here) (option_map (method_shown classes.now.trees.now) found) (map (type_at classes.now.types.now) arguments.now) }
{
    match found {
        None => Judgement::Breaks(TypingRule::Call),
        Some(method) => arguments_rule(classes, here, method, arguments),
    }
}
