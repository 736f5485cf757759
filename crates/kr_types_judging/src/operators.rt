// Rules on types, literals, `this` and operators: T1, T5 to T15, T20, T21.
ghost use Rattle.std.specs.Prelude.{◌≡◌, ◌<◌, IfSome, option_map};
ghost use Rattle.kr_types_meaning.specs.Rules as rules;
ghost use Rattle.kr_types_judging.specs.Vocabulary.{Bits32, Bits64, count, type_at};
ghost use Rattle.kr_types_judging.specs.Numbers.{rule_number};
ghost use Rattle.kr_types_judging.specs.Shown.{IsVerdictWithin, Says, verdict_shown};

use crate::known::Judgement;
use crate::relations::{
    are_comparable, are_numbers, both_boolean, cast_fits, choice_fits, instance_fits, is_boolean,
    is_number, promoted, promoted_alone, wider,
};
use crate::rules::TypingRule;
use kr_ast::{BinaryOperator, UnaryOperator};
use kr_classes_members::Members;
use kr_classes_names::{TypeForm, Types};
use kr_classes_table::TypeId;
use kr_types_meaning::OperatorKind;
use kr_types_scopes::{Role, Within};

/// T1: the type's names are known, and it has the argument that it needs.
pub fn type_rule(types: &Types, number: TypeId) -> Judgement
    requires { number < count types.now }
    ensures within { IsVerdictWithin types.now result }
    ensures says { verdict_shown types.now result ≡ rules.type_rule (type_at types.now number) }
{
    Judgement::value_if(types.is_known(number), TypingRule::UnknownType, number)
}

/// T1 of `C<>`.
pub fn diamond_rule(types: &Types, number: TypeId) -> Judgement
    requires { number < count types.now }
    ensures within { IsVerdictWithin types.now result }
    ensures says { verdict_shown types.now result ≡ rules.diamond_rule (type_at types.now number) }
{
    match types.form(number) {
        TypeForm::Set(_) => Judgement::value(number),
        TypeForm::List(_) => Judgement::value(number),
        TypeForm::Applied(head, _) => match types.form(head) {
            TypeForm::Class(_) => Judgement::value(number),
            _ => Judgement::Breaks(TypingRule::UnknownType),
        },
        _ => Judgement::Breaks(TypingRule::UnknownType),
    }
}

/// T6: 2147483648 occurs only under a unary minus.
pub fn number_rule(types: &Types, members: &Members, here: Within, value: u32) -> Judgement
    ensures within { IsVerdictWithin types.now result }
    ensures says { Says members.now types.now here result (λ s. rules.number_rule s Bits32 value) }
{
    let under_minus = match here.role {
        Role::UnderMinus => true,
        _ => false,
    };
    Judgement::value_if(
        value < 2147483648 || under_minus,
        TypingRule::NumberTooLarge,
        types.int(),
    )
}

/// T6 of a `long`: 9223372036854775808 occurs only under a unary minus.
pub fn long_number_rule(types: &Types, members: &Members, here: Within, value: u64) -> Judgement
    ensures within { IsVerdictWithin types.now result }
    ensures says { Says members.now types.now here result (λ s. rules.number_rule s Bits64 value) }
{
    let under_minus = match here.role {
        Role::UnderMinus => true,
        _ => false,
    };
    Judgement::value_if(
        value < 9223372036854775808 || under_minus,
        TypingRule::NumberTooLarge,
        types.long(),
    )
}

/// T13, T14.
pub fn unary_rule(types: &Types, operator: UnaryOperator, a: TypeId) -> Judgement
    requires { a < count types.now }
    ensures within { IsVerdictWithin types.now result }
    ensures says { verdict_shown types.now result ≡ rules.unary_rule operator (type_at types.now a) }
{
    match operator {
        UnaryOperator::Not => Judgement::value_if(
            is_boolean(types, a),
            TypingRule::Negation,
            types.boolean(),
        ),
        UnaryOperator::Plus | UnaryOperator::Minus | UnaryOperator::Complement => {
            of_promoted(types, promoted_alone(types, a), TypingRule::Sign)
        }
    }
}

/// A value of the type to which operands are promoted.
fn of_promoted(types: &Types, promoted: Option<TypeId>, rule: TypingRule) -> Judgement
    requires { IfSome promoted (λ n. n < count types.now) }
    ensures within { IsVerdictWithin types.now result }
    ensures says { verdict_shown types.now result ≡ rules.of_promoted (option_map (type_at types.now) promoted) (rule_number rule) }
{
    match promoted {
        Some(number) => Judgement::value(number),
        None => Judgement::Breaks(rule),
    }
}

/// T8: each operand is promoted alone, and the left one's type is given.
fn shift_rule(types: &Types, a: TypeId, b: TypeId) -> Judgement
    requires first { a < count types.now }
    requires second { b < count types.now }
    ensures within { IsVerdictWithin types.now result }
    ensures says { verdict_shown types.now result ≡ rules.shift_rule (type_at types.now a) (type_at types.now b) }
{
    if is_number(types, b) {
        of_promoted(types, promoted_alone(types, a), TypingRule::Shift)
    } else {
        Judgement::Breaks(TypingRule::Shift)
    }
}

/// T11: booleans, or numbers.
fn bit_rule(types: &Types, a: TypeId, b: TypeId) -> Judgement
    requires first { a < count types.now }
    requires second { b < count types.now }
    ensures within { IsVerdictWithin types.now result }
    ensures says { verdict_shown types.now result ≡ rules.bit_rule (type_at types.now a) (type_at types.now b) }
{
    if both_boolean(types, a, b) {
        Judgement::value(types.boolean())
    } else {
        of_promoted(types, promoted(types, a, b), TypingRule::Bitwise)
    }
}

/// Which operators follow one rule.
fn kind_of(operator: BinaryOperator) -> OperatorKind
    ensures { result ≡ rules.kind_of operator }
{
    match operator {
        BinaryOperator::Multiply
        | BinaryOperator::Divide
        | BinaryOperator::Remainder
        | BinaryOperator::Add
        | BinaryOperator::Subtract => OperatorKind::Arithmetic,
        BinaryOperator::ShiftLeft
        | BinaryOperator::ShiftRight
        | BinaryOperator::ShiftRightUnsigned => OperatorKind::Shift,
        BinaryOperator::Less
        | BinaryOperator::Greater
        | BinaryOperator::LessOrEqual
        | BinaryOperator::GreaterOrEqual => OperatorKind::Comparison,
        BinaryOperator::Equal | BinaryOperator::NotEqual => OperatorKind::Equality,
        BinaryOperator::BitAnd | BinaryOperator::BitXor | BinaryOperator::BitOr => {
            OperatorKind::Bitwise
        }
        BinaryOperator::And | BinaryOperator::Or => OperatorKind::Logical,
    }
}

/// T7 to T12.
fn kind_rule(
    types: &Types,
    members: &Members,
    here: Within,
    kind: OperatorKind,
    a: TypeId,
    b: TypeId,
) -> Judgement
    requires first { a < count types.now }
    requires second { b < count types.now }
    ensures within { IsVerdictWithin types.now result }
    ensures says { Says members.now types.now here result (λ s. rules.kind_rule s kind (type_at types.now a) (type_at types.now b)) }
{
    match kind {
        OperatorKind::Arithmetic => {
            of_promoted(types, promoted(types, a, b), TypingRule::Arithmetic)
        }
        OperatorKind::Shift => shift_rule(types, a, b),
        OperatorKind::Comparison => Judgement::value_if(
            are_numbers(types, a, b),
            TypingRule::Comparison,
            types.boolean(),
        ),
        OperatorKind::Equality => Judgement::value_if(
            are_comparable(types, members, a, b),
            TypingRule::Equality,
            types.boolean(),
        ),
        OperatorKind::Bitwise => bit_rule(types, a, b),
        OperatorKind::Logical => Judgement::value_if(
            both_boolean(types, a, b),
            TypingRule::Logical,
            types.boolean(),
        ),
    }
}

/// T7 to T12.
pub fn operator_rule(
    types: &Types,
    members: &Members,
    here: Within,
    operator: BinaryOperator,
    a: TypeId,
    b: TypeId,
) -> Judgement
    requires first { a < count types.now }
    requires second { b < count types.now }
    ensures within { IsVerdictWithin types.now result }
    ensures says { Says members.now types.now here result (λ s. rules.operator_rule s operator (type_at types.now a) (type_at types.now b)) }
{
    kind_rule(types, members, here, kind_of(operator), a, b)
}

/// T15: a boolean, and arms that are equal or related; the type is the one that is assigned to.
pub fn choice_rule(
    types: &Types,
    members: &Members,
    here: Within,
    test: TypeId,
    a: TypeId,
    b: TypeId,
) -> Judgement
    requires test { test < count types.now }
    requires first { a < count types.now }
    requires second { b < count types.now }
    ensures within { IsVerdictWithin types.now result }
    ensures says { Says members.now types.now here result (λ s. rules.choice_rule s (type_at types.now test) (type_at types.now a) (type_at types.now b)) }
{
    let fits = choice_fits(types, members, test, a, b);
    Judgement::value_if(fits, TypingRule::Conditional, wider(types, members, a, b))
}

/// T20: number to number, boolean to boolean, or related references that are no collections.
pub fn cast_rule(
    types: &Types,
    members: &Members,
    here: Within,
    to: TypeId,
    from: TypeId,
) -> Judgement
    requires to { to < count types.now }
    requires from { from < count types.now }
    ensures within { IsVerdictWithin types.now result }
    ensures says { Says members.now types.now here result (λ s. rules.cast_rule s (type_at types.now to) (type_at types.now from)) }
{
    let fits = cast_fits(types, members, to, from);
    Judgement::value_if(fits, TypingRule::Cast, to)
}

/// T21: a reference, and a related class or array type.
pub fn instance_rule(
    types: &Types,
    members: &Members,
    here: Within,
    from: TypeId,
    to: TypeId,
) -> Judgement
    requires from { from < count types.now }
    requires to { to < count types.now }
    ensures within { IsVerdictWithin types.now result }
    ensures says { Says members.now types.now here result (λ s. rules.instance_rule s (type_at types.now from) (type_at types.now to)) }
{
    let fits = instance_fits(types, members, from, to);
    Judgement::value_if(fits, TypingRule::InstanceOf, types.boolean())
}
