// The meaning of names after a dot, and of creations.
ghost use Rattle.std.specs.Prelude.{◌≡◌, ◌<◌, IfSome, Option, length, option_and_then, option_map, slice_get};
ghost use Rattle.kr_classes_names.specs.Types.{count, type_at};
ghost use Rattle.kr_classes_table.specs.Table.{Table};
ghost use Rattle.kr_classes_members.specs.Rosters.{all_fields, all_methods};
ghost use Rattle.kr_types_resolving.specs.Meanings as meanings;
ghost use Rattle.kr_types_resolving.specs.Shown.{AreClasses, IsMeaningWithin, meaning_shown, table_of};

use crate::calls::static_method;
use crate::members::{field_meaning, method_meaning};
use crate::names::constant_named;
use crate::{Classes, Meaning};
use kr_classes_names::{TypeForm, Types};
use kr_classes_table::{ClassId, FieldId, MethodId, TypeId};

/// The class of an object of this type.
fn object_class(types: &Types, object: Option<TypeId>) -> Option<ClassId>
    requires { IfSome object (λ t. t < count types.now) }
    ensures { result ≡ meanings.object_class (option_map (type_at types.now) object) }
{
    match object {
        None => None,
        Some(number) => match types.form(number) {
            TypeForm::Class(class) => Some(class),
            _ => None,
        },
    }
}

/// The field of a name that objects of a class have.
fn instance_named(classes: &Classes<'_>, class: Option<ClassId>, name: &[u8]) -> Option<FieldId>
    requires classes { AreClasses classes.now }
    ensures within { IfSome result (λ k. k < length (all_fields (table_of classes.now))) }
    ensures shown { option_and_then (slice_get (all_fields (table_of classes.now))) result ≡ option_and_then meanings.instance_only (meanings.field_of (table_of classes.now) name.now class) }
{
    match class {
        None => None,
        Some(class) => match classes.roster.field_named(classes.members, class, name) {
            None => None,
            Some(number) => {
                if classes.roster.fields[number as usize].is_static {
                    None
                } else {
                    Some(number)
                }
            }
        },
    }
}

/// The method of a name that objects of a class have.
fn method_of(classes: &Classes<'_>, class: Option<ClassId>, name: &[u8]) -> Option<MethodId>
    requires classes { AreClasses classes.now }
    ensures within { IfSome result (λ k. k < length (all_methods (table_of classes.now))) }
    ensures shown { option_and_then (slice_get (all_methods (table_of classes.now))) result ≡ meanings.method_of (table_of classes.now) name.now class }
{
    match class {
        None => None,
        Some(class) => classes.roster.method_named(classes.members, class, name),
    }
}

/// A field or constant after a dot: of the class before it, or of the object's.
pub fn field_behind(
    classes: &Classes<'_>,
    types: &Types,
    before: Option<ClassId>,
    object: Option<TypeId>,
    name: &[u8],
) -> Meaning
    requires classes { AreClasses classes.now }
    requires object { IfSome object (λ t. t < count types.now) }
    ensures within { IsMeaningWithin (table_of classes.now) result }
    ensures shown { meaning_shown (table_of classes.now) result ≡ meanings.field_behind (table_of classes.now) name.now before (meanings.object_class (option_map (type_at types.now) object)) }
{
    match before {
        Some(class) => field_meaning(classes, constant_named(classes, class, name)),
        None => {
            let class = object_class(types, object);
            field_meaning(classes, instance_named(classes, class, name))
        }
    }
}

/// A method after a dot: of the class before it, or of the object's.
pub fn method_behind(
    classes: &Classes<'_>,
    types: &Types,
    before: Option<ClassId>,
    object: Option<TypeId>,
    name: &[u8],
) -> Meaning
    requires classes { AreClasses classes.now }
    requires object { IfSome object (λ t. t < count types.now) }
    ensures within { IsMeaningWithin (table_of classes.now) result }
    ensures shown { meaning_shown (table_of classes.now) result ≡ meanings.method_behind (table_of classes.now) name.now before (meanings.object_class (option_map (type_at types.now) object)) }
{
    match before {
        Some(class) => method_meaning(classes, static_method(classes, class, name)),
        None => {
            let class = object_class(types, object);
            method_meaning(classes, method_of(classes, class, name))
        }
    }
}

/// The meaning of a creation, by its type.
pub fn creation_meaning(types: &Types, created: TypeId) -> Meaning
    requires { created < count types.now }
    ensures within { (t : Table) → IsMeaningWithin t result }
    ensures shown { (t : Table) → meaning_shown t result ≡ meanings.creation_meaning (type_at types.now created) }
{
    match types.form(created) {
        TypeForm::Class(class) => Meaning::New(class),
        TypeForm::Set(_) => Meaning::NewSet,
        TypeForm::List(_) => Meaning::NewList,
        TypeForm::Number(_)
        | TypeForm::Boolean
        | TypeForm::Null
        | TypeForm::Void
        | TypeForm::Inferred
        | TypeForm::Array(_)
        | TypeForm::Unknown(..)
        | TypeForm::Applied(..) => Meaning::Nothing,
    }
}
