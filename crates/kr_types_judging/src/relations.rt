// Which types go into which (Java Language Specification 5).
ghost use Rattle.std.specs.Prelude.{◌≡◌, ◌<◌, ◌&&◌, ◌||◌, not, IfSome, List, option_map, if◌then◌else◌};
ghost use Rattle.kr_classes_table.specs.Table as table;
ghost use Rattle.kr_types_meaning.specs.Promotion as promotion;
ghost use Rattle.kr_types_meaning.specs.Rules as rules;
ghost use Rattle.kr_types_judging.specs.Vocabulary.{AreMembers, Arena, ClassType, count, InferredType, is_collection, is_element, is_same, is_same_width, is_void, ListType, NumberType, SetType, table_in, type_at};
ghost use Rattle.kr_types_judging.specs.Shown.{are_comparable, are_related_references, cast_fits, goes_into};

use kr_classes_members::Members;
use kr_classes_names::{TypeForm, Types};
use kr_classes_table::{ClassId, TypeId};
use kr_value::Width;

/// Whether it is `int`.
pub fn is_int(types: &Types, number: TypeId) -> bool
    requires { number < count types.now }
    ensures { result ≡ rules.is_int (type_at types.now number) }
{
    match types.form(number) {
        TypeForm::Number(width) => match width {
            Width::Bits32 => true,
            Width::Bits64 => false,
        },
        _ => false,
    }
}

/// Whether it is `boolean`.
pub(crate) fn is_boolean(types: &Types, number: TypeId) -> bool
    requires { number < count types.now }
    ensures { result ≡ rules.is_boolean (type_at types.now number) }
{
    match types.form(number) {
        TypeForm::Boolean => true,
        _ => false,
    }
}

/// Whether it is no value's type.
pub fn is_void(types: &Types, number: TypeId) -> bool
    requires { number < count types.now }
    ensures { result ≡ is_void (type_at types.now number) }
{
    match types.form(number) {
        TypeForm::Void => true,
        _ => false,
    }
}

/// Whether it is the inferred type argument of `new HashSet<>()`.
fn is_inferred(types: &Types, number: TypeId) -> bool
    requires { number < count types.now }
    ensures { result ≡ is_same (type_at types.now number) InferredType }
{
    match types.form(number) {
        TypeForm::Inferred => true,
        _ => false,
    }
}

/// Whether a class goes into a type.
fn class_goes_into(types: &Types, members: &Members, class: ClassId, to: TypeId) -> bool
    requires { to < count types.now }
    ensures { (files : List Arena) → AreMembers files members.now → result ≡ table.is_assignable (table_in files) (ClassType class) (type_at types.now to) }
{
    match types.form(to) {
        TypeForm::Class(other) => members.is_below(class, other),
        _ => false,
    }
}

/// Whether a set of these members goes into a type.
fn set_goes_into(types: &Types, member: TypeId, to: TypeId) -> bool
    requires member { member < count types.now }
    requires to { to < count types.now }
    ensures { (t : table.Table) → result ≡ table.is_assignable t (SetType (type_at types.now member)) (type_at types.now to) }
{
    match types.form(to) {
        TypeForm::Set(other) => is_inferred(types, member) || types.is_same(member, other),
        _ => false,
    }
}

/// Whether a list of these members goes into a type.
fn list_goes_into(types: &Types, member: TypeId, to: TypeId) -> bool
    requires member { member < count types.now }
    requires to { to < count types.now }
    ensures { (t : table.Table) → result ≡ table.is_assignable t (ListType (type_at types.now member)) (type_at types.now to) }
{
    match types.form(to) {
        TypeForm::List(other) => is_inferred(types, member) || types.is_same(member, other),
        _ => false,
    }
}

/// Whether each number of a width is of another.
fn is_within(width: Width, other: Width) -> bool
    ensures { result ≡ (table.widens width other || is_same_width width other) }
{
    match width {
        Width::Bits32 => true,
        Width::Bits64 => match other {
            Width::Bits32 => false,
            Width::Bits64 => true,
        },
    }
}

/// Whether a number of a width goes into a type.
fn number_goes_into(types: &Types, width: Width, to: TypeId) -> bool
    requires { to < count types.now }
    ensures { (t : table.Table) → result ≡ table.is_assignable t (NumberType width) (type_at types.now to) }
{
    match types.form(to) {
        TypeForm::Number(other) => is_within(width, other),
        _ => false,
    }
}

/// Whether a value of a type may be assigned to a variable of another.
pub fn is_assignable(types: &Types, members: &Members, from: TypeId, to: TypeId) -> bool
    requires from { from < count types.now }
    requires to { to < count types.now }
    ensures { (files : List Arena) → AreMembers files members.now → result ≡ table.is_assignable (table_in files) (type_at types.now from) (type_at types.now to) }
{
    match types.form(from) {
        TypeForm::Number(width) => number_goes_into(types, width, to),
        TypeForm::Null => types.is_reference(to),
        TypeForm::Class(class) => class_goes_into(types, members, class, to),
        TypeForm::Set(member) => set_goes_into(types, member, to),
        TypeForm::List(member) => list_goes_into(types, member, to),
        _ => types.is_same(from, to),
    }
}

/// Whether one of two types may be assigned to the other.
pub fn are_related(types: &Types, members: &Members, a: TypeId, b: TypeId) -> bool
    requires first { a < count types.now }
    requires second { b < count types.now }
    ensures { (files : List Arena) → AreMembers files members.now → result ≡ table.are_related (table_in files) (type_at types.now a) (type_at types.now b) }
{
    is_assignable(types, members, a, b) || is_assignable(types, members, b, a)
}

/// Whether a value of a type goes into a variable: one whose type breaks rule T1 takes everything.
pub(crate) fn takes(types: &Types, members: &Members, to: TypeId, from: TypeId) -> bool
    requires from { from < count types.now }
    requires to { to < count types.now }
    ensures { (files : List Arena) → AreMembers files members.now → result ≡ goes_into (table_in files) (type_at types.now to) (type_at types.now from) }
{
    !types.is_known(to) || is_assignable(types, members, from, to)
}

/// Whether both are reference types, and related.
pub(crate) fn related_references(types: &Types, members: &Members, a: TypeId, b: TypeId) -> bool
    requires first { a < count types.now }
    requires second { b < count types.now }
    ensures { (files : List Arena) → AreMembers files members.now → result ≡ are_related_references (table_in files) (type_at types.now a) (type_at types.now b) }
{
    types.is_reference(a) && types.is_reference(b) && are_related(types, members, a, b)
}

/// The type to which an operand is promoted, if it is a number's.
pub(crate) fn promoted_alone(types: &Types, number: TypeId) -> Option<TypeId>
    requires { number < count types.now }
    ensures within { IfSome result (λ n. n < count types.now) }
    ensures is { option_map (type_at types.now) result ≡ promotion.promoted_alone (type_at types.now number) }
{
    match types.form(number) {
        TypeForm::Number(_) => Some(number),
        _ => None,
    }
}

/// The type to which two operands are promoted, if they are numbers'.
pub(crate) fn promoted(types: &Types, a: TypeId, b: TypeId) -> Option<TypeId>
    requires first { a < count types.now }
    requires second { b < count types.now }
    ensures within { IfSome result (λ n. n < count types.now) }
    ensures is { option_map (type_at types.now) result ≡ promotion.promoted (type_at types.now a) (type_at types.now b) }
{
    match types.form(a) {
        TypeForm::Number(width) => match types.form(b) {
            TypeForm::Number(_) => match width {
                Width::Bits32 => Some(b),
                Width::Bits64 => Some(a),
            },
            _ => None,
        },
        _ => None,
    }
}

/// Whether it is a number's.
pub(crate) fn is_number(types: &Types, number: TypeId) -> bool
    requires { number < count types.now }
    ensures { result ≡ promotion.is_number (type_at types.now number) }
{
    match types.form(number) {
        TypeForm::Number(_) => true,
        _ => false,
    }
}

/// Whether both are numbers'.
pub(crate) fn are_numbers(types: &Types, a: TypeId, b: TypeId) -> bool
    requires first { a < count types.now }
    requires second { b < count types.now }
    ensures { result ≡ promotion.are_numbers (type_at types.now a) (type_at types.now b) }
{
    match types.form(a) {
        TypeForm::Number(_) => match types.form(b) {
            TypeForm::Number(_) => true,
            _ => false,
        },
        _ => false,
    }
}

/// Whether both are `boolean`.
pub(crate) fn both_boolean(types: &Types, a: TypeId, b: TypeId) -> bool
    requires first { a < count types.now }
    requires second { b < count types.now }
    ensures { result ≡ rules.both_boolean (type_at types.now a) (type_at types.now b) }
{
    is_boolean(types, a) && is_boolean(types, b)
}

/// Whether they may be compared by `==`: both numbers, both boolean, or related references.
pub(crate) fn are_comparable(types: &Types, members: &Members, a: TypeId, b: TypeId) -> bool
    requires first { a < count types.now }
    requires second { b < count types.now }
    ensures { (files : List Arena) → AreMembers files members.now → result ≡ are_comparable (table_in files) (type_at types.now a) (type_at types.now b) }
{
    are_numbers(types, a, b)
        || both_boolean(types, a, b)
        || related_references(types, members, a, b)
}

/// Whether neither is a collection.
fn no_collections(types: &Types, a: TypeId, b: TypeId) -> bool
    requires first { a < count types.now }
    requires second { b < count types.now }
    ensures { result ≡ (not (is_collection (type_at types.now a)) && not (is_collection (type_at types.now b))) }
{
    !types.is_collection(a) && !types.is_collection(b)
}

/// Whether a value of a type may be cast: number to number, boolean to boolean, or related references that are no collections.
pub(crate) fn cast_fits(types: &Types, members: &Members, to: TypeId, from: TypeId) -> bool
    requires to { to < count types.now }
    requires from { from < count types.now }
    ensures { (files : List Arena) → AreMembers files members.now → result ≡ cast_fits (table_in files) (type_at types.now to) (type_at types.now from) }
{
    are_numbers(types, to, from)
        || both_boolean(types, to, from)
        || (related_references(types, members, from, to) && no_collections(types, to, from))
}

/// Whether it is a class or array type, related to a reference.
pub(crate) fn instance_fits(types: &Types, members: &Members, from: TypeId, to: TypeId) -> bool
    requires from { from < count types.now }
    requires to { to < count types.now }
    ensures { (files : List Arena) → AreMembers files members.now → result ≡ (is_element (type_at types.now to) && are_related_references (table_in files) (type_at types.now from) (type_at types.now to)) }
{
    types.is_element(to) && related_references(types, members, from, to)
}

/// Whether it is boolean, and two others are related.
pub(crate) fn choice_fits(
    types: &Types,
    members: &Members,
    test: TypeId,
    a: TypeId,
    b: TypeId,
) -> bool
    requires test { test < count types.now }
    requires first { a < count types.now }
    requires second { b < count types.now }
    ensures { (files : List Arena) → AreMembers files members.now → result ≡ (rules.is_boolean (type_at types.now test) && table.are_related (table_in files) (type_at types.now a) (type_at types.now b)) }
{
    is_boolean(types, test) && are_related(types, members, a, b)
}

/// The wider one of two related types.
pub(crate) fn wider(types: &Types, members: &Members, a: TypeId, b: TypeId) -> TypeId
    requires first { a < count types.now }
    requires second { b < count types.now }
    ensures within { result < count types.now }
    ensures is { (files : List Arena) → AreMembers files members.now → type_at types.now result ≡ (if table.is_assignable (table_in files) (type_at types.now a) (type_at types.now b) then type_at types.now b else type_at types.now a) }
{
    if is_assignable(types, members, a, b) {
        b
    } else {
        a
    }
}
