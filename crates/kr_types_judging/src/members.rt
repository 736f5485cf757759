// Rules on names and on parts of objects and arrays: T3, T5, T22, T23.
ghost use Rattle.std.specs.Prelude.{◌≡◌, ◌<◌, List, option_map};
ghost use Rattle.kr_types_meaning.specs.Rules as rules;
ghost use Rattle.kr_types_judging.specs.Vocabulary.{AreNodeTypes, Binding, count, field_shown, FieldName, IsTypeNumber, scope_in, Setting, table_in, type_at};
ghost use Rattle.kr_types_judging.specs.Classes.{AreClassTypes};
ghost use Rattle.kr_types_judging.specs.Shown.{IsVerdictWithin, verdict_shown};

use crate::class_types::ClassTypes;
use crate::known::{Judgement, Typed};
use crate::relations::is_int;
use crate::rules::TypingRule;
use kr_classes_members::Field;
use kr_classes_names::{TypeForm, Types};
use kr_classes_table::TypeId;
use kr_types_scopes::Within;

/// The value of a type; none where rule T1 is broken of it.
pub fn value_of(types: &Types, number: TypeId) -> Judgement
    requires { number < count types.now }
    ensures within { IsVerdictWithin types.now result }
    ensures says { verdict_shown types.now result ≡ rules.gives (type_at types.now number) }
{
    if types.is_known(number) {
        Judgement::Fits(Typed::Value(number))
    } else {
        Judgement::Fits(Typed::Untyped)
    }
}

/// A variable of a type; none where rule T1 is broken of it.
pub fn variable_of(types: &Types, number: TypeId) -> Judgement
    requires { number < count types.now }
    ensures within { IsVerdictWithin types.now result }
    ensures says { verdict_shown types.now result ≡ rules.Fits (rules.variable_of (type_at types.now number)) }
{
    if types.is_known(number) {
        Judgement::Fits(Typed::Variable(number))
    } else {
        Judgement::Fits(Typed::Untyped)
    }
}

/// The type of a field or constant.
pub fn field_type(classes: &ClassTypes<'_>, field: Field) -> TypeId
    requires { AreNodeTypes classes.now.trees.now classes.now.types.now classes.now.node_types.now }
    ensures { IsTypeNumber classes.now.types.now result (field_shown classes.now.trees.now field).type }
{
    classes.node_types.number(field.file, field.declared)
}

/// T5: no instance field in static code; a constant is no variable.
pub fn field_name_rule(classes: &ClassTypes<'_>, here: Within, field: Field) -> Judgement
    requires { AreNodeTypes classes.now.trees.now classes.now.types.now classes.now.node_types.now }
    ensures within { IsVerdictWithin classes.now.types.now result }
    ensures says { (g : Setting) (bs : List Binding) → verdict_shown classes.now.types.now result ≡ rules.name_rule (scope_in g bs here) (FieldName (field_shown classes.now.trees.now field)) }
{
    let number = field_type(classes, field);
    if field.is_static {
        return value_of(classes.types, number);
    }
    Judgement::ask(
        !here.is_static,
        TypingRule::StaticCode,
        variable_of(classes.types, number),
    )
}

/// T22: an instance field.
fn field_rule(classes: &ClassTypes<'_>, found: Option<Field>) -> Judgement
    requires { AreNodeTypes classes.now.trees.now classes.now.types.now classes.now.node_types.now }
    ensures within { IsVerdictWithin classes.now.types.now result }
    ensures says { verdict_shown classes.now.types.now result ≡ rules.field_rule (option_map (field_shown classes.now.trees.now) found) }
{
    match found {
        None => Judgement::Breaks(TypingRule::FieldAccess),
        Some(field) => {
            let number = field_type(classes, field);
            Judgement::ask(
                !field.is_static,
                TypingRule::FieldAccess,
                variable_of(classes.types, number),
            )
        }
    }
}

/// T22: a constant of a class.
pub fn constant_rule(classes: &ClassTypes<'_>, found: Option<Field>) -> Judgement
    requires { AreNodeTypes classes.now.trees.now classes.now.types.now classes.now.node_types.now }
    ensures within { IsVerdictWithin classes.now.types.now result }
    ensures says { verdict_shown classes.now.types.now result ≡ rules.constant_rule (option_map (field_shown classes.now.trees.now) found) }
{
    match found {
        None => Judgement::Breaks(TypingRule::FieldAccess),
        Some(field) => {
            let number = field_type(classes, field);
            Judgement::ask(
                field.is_static,
                TypingRule::FieldAccess,
                value_of(classes.types, number),
            )
        }
    }
}

/// T22: an instance field of a class, or the length of an array.
pub fn access_rule(classes: &ClassTypes<'_>, here: Within, name: &[u8], object: TypeId) -> Judgement
    requires classes { AreClassTypes classes.now }
    requires object { object < count classes.now.types.now }
    ensures within { IsVerdictWithin classes.now.types.now result }
    ensures says { (g : Setting) (bs : List Binding) → g.table ≡ table_in classes.now.trees.now → verdict_shown classes.now.types.now result ≡ rules.access_rule (scope_in g bs here) name.now (type_at classes.now.types.now object) }
{
    match classes.types.form(object) {
        TypeForm::Class(class) => {
            let found = classes.members.field_named(class, name);
            field_rule(classes, found)
        }
        TypeForm::Array(_) => {
            Judgement::value_if(
                name == b"length".as_slice(),
                TypingRule::FieldAccess,
                classes.types.int(),
            )
        }
        _ => Judgement::Breaks(TypingRule::FieldAccess),
    }
}

/// T23: an array and an int.
pub fn element_rule(types: &Types, array: TypeId, index: TypeId) -> Judgement
    requires array { array < count types.now }
    requires index { index < count types.now }
    ensures within { IsVerdictWithin types.now result }
    ensures says { verdict_shown types.now result ≡ rules.element_rule (type_at types.now array) (type_at types.now index) }
{
    match types.form(array) {
        TypeForm::Array(element) => Judgement::ask(
            is_int(types, index),
            TypingRule::ElementAccess,
            Judgement::Fits(Typed::Variable(element)),
        ),
        _ => Judgement::Breaks(TypingRule::ElementAccess),
    }
}
