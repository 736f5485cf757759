// The meaning of a call without object and of a call of `super.m`.
ghost use Rattle.std.specs.Prelude.{◌≡◌, ◌<◌, IfSome, length, option_and_then, slice_get};
ghost use Rattle.kr_classes_table.specs.Table.{method_named};
ghost use Rattle.kr_types_meaning.specs.Scopes.{Scope, method_meant, static_only, super_class};
ghost use Rattle.kr_classes_members.specs.Rosters.{all_methods};
ghost use Rattle.kr_types_resolving.specs.Meanings as meanings;
ghost use Rattle.kr_types_resolving.specs.Shown.{AreClasses, IsMeaningWithin, meaning_shown, table_of};

use crate::members::method_meaning;
use crate::{Classes, Meaning};
use kr_classes_table::{ClassId, MethodId};

/// The static method of a name, if the nearest of the name is static.
pub(crate) fn static_method(classes: &Classes<'_>, class: ClassId, name: &[u8]) -> Option<MethodId>
    requires classes { AreClasses classes.now }
    ensures within { IfSome result (λ k. k < length (all_methods (table_of classes.now))) }
    ensures shown { option_and_then (slice_get (all_methods (table_of classes.now))) result ≡ option_and_then static_only (method_named (table_of classes.now) class name.now) }
{
    match classes.roster.method_named(classes.members, class, name) {
        None => None,
        Some(number) => {
            if classes.roster.methods[number as usize].is_static {
                Some(number)
            } else {
                None
            }
        }
    }
}

/// The method that a call without object means in the code of a class.
fn method_meant(classes: &Classes<'_>, class: ClassId, name: &[u8]) -> Option<MethodId>
    requires classes { AreClasses classes.now }
    ensures within { IfSome result (λ k. k < length (all_methods (table_of classes.now))) }
    ensures shown { (s : Scope) → s.table ≡ table_of classes.now → s.class ≡ class → option_and_then (slice_get (all_methods (table_of classes.now))) result ≡ method_meant s name.now }
{
    match classes.roster.method_named(classes.members, class, name) {
        Some(number) => Some(number),
        None => match classes.members.outer_class(class) {
            None => None,
            Some(outer) => static_method(classes, outer, name),
        },
    }
}

/// The meaning of a call without object in the code of a class.
pub fn call_meaning(classes: &Classes<'_>, class: ClassId, name: &[u8]) -> Meaning
    requires classes { AreClasses classes.now }
    ensures within { IsMeaningWithin (table_of classes.now) result }
    ensures shown { (s : Scope) → s.table ≡ table_of classes.now → s.class ≡ class → meaning_shown (table_of classes.now) result ≡ meanings.method_meaning (method_meant s name.now) }
{
    method_meaning(classes, method_meant(classes, class, name))
}

/// The method of a name that the superclass of a class has.
fn method_above(classes: &Classes<'_>, class: ClassId, name: &[u8]) -> Option<MethodId>
    requires classes { AreClasses classes.now }
    ensures within { IfSome result (λ k. k < length (all_methods (table_of classes.now))) }
    ensures shown { (s : Scope) → s.table ≡ table_of classes.now → s.class ≡ class → option_and_then (slice_get (all_methods (table_of classes.now))) result ≡ meanings.method_of (table_of classes.now) name.now (super_class s) }
{
    match classes.members.superclass(class) {
        None => None,
        Some(above) => classes.roster.method_named(classes.members, above, name),
    }
}

/// The meaning of a call of `super.m` in the code of a class.
pub fn super_meaning(classes: &Classes<'_>, class: ClassId, name: &[u8]) -> Meaning
    requires classes { AreClasses classes.now }
    ensures within { IsMeaningWithin (table_of classes.now) result }
    ensures shown { (s : Scope) → s.table ≡ table_of classes.now → s.class ≡ class → meaning_shown (table_of classes.now) result ≡ meanings.super_meaning (meanings.method_of (table_of classes.now) name.now (super_class s)) }
{
    match method_above(classes, class, name) {
        None => Meaning::Nothing,
        Some(number) => Meaning::Super(number),
    }
}
