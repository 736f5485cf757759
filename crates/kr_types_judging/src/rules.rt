// The typing rules, and their numbers.
ghost use Rattle.std.specs.Prelude.{◌≡◌};
ghost use Rattle.kr_types_judging.specs.Numbers.{rule_number};

/// A typing rule (T1 to T43, docs/LANGUAGE.md), by what it asks. The grammar leaves nothing for T2.
#[derive(Clone, Copy, PartialEq, Eq)]
pub enum TypingRule {
    /// T1: a type names a class, or a collection of one.
    UnknownType,
    /// T3: a name means a local, a field, a constant, or before a dot a class.
    UnknownName,
    /// T4: a local has a name of its own.
    RepeatedLocal,
    /// T5: static code has no `this`.
    StaticCode,
    /// T6: 2147483648 occurs only under a minus.
    NumberTooLarge,
    /// T7: `+ - * / %` take ints.
    Arithmetic,
    /// T8: shifts take ints.
    Shift,
    /// T9: `< <= > >=` take ints.
    Comparison,
    /// T10: the operands of `== !=` are related.
    Equality,
    /// T11: `& | ^` take ints or booleans.
    Bitwise,
    /// T12: `&& ||` take booleans.
    Logical,
    /// T13: `!` takes a boolean.
    Negation,
    /// T14: unary `+ - ~` take an int.
    Sign,
    /// T15: the arms of `?:` are related.
    Conditional,
    /// T16: the assigned value fits.
    Assignment,
    /// T17: its operator fits.
    CompoundAssignment,
    /// T18: `++ --` take an int.
    Step,
    /// T19: the target is a variable.
    Target,
    /// T20: a cast is possible.
    Cast,
    /// T21: a test of a type is possible.
    InstanceOf,
    /// T22: the object has the field.
    FieldAccess,
    /// T23: an array at an int.
    ElementAccess,
    /// T24: a call fits its method.
    Call,
    /// T25: a call fits the collection.
    CollectionCall,
    /// T26: a creation fits its constructor.
    Creation,
    /// T27: a length is an int.
    ArrayLength,
    /// T28: a condition is boolean.
    Condition,
    /// T29: a local's initial value fits.
    LocalValue,
    /// T30: a result fits its method.
    Return,
    /// T31: a jump is in a loop.
    Jump,
    /// T32: a value has a type.
    NoResult,
    /// T33: `super.m` means a method.
    SuperCall,
    /// T34: `super(..)` fits its constructor.
    SuperConstructor,
    /// T35: a field's initial value fits.
    FieldValue,
    /// T36: a constant has a value.
    ConstantValue,
    /// T37: a static field is a constant.
    StaticField,
    /// T38: `\result` is in `ensures`, `\old` there or in `signals`.
    ContractValue,
    /// T39: a contract writes nothing.
    ContractWrite,
    /// T40: a contract belongs to an instance method.
    ContractPlace,
    /// T41: what is thrown is throwable.
    Throw,
    /// T42: a caught class is throwable.
    Catch,
    /// T43: the class of `signals` is throwable.
    Signals,
}

impl TypingRule {
    /// The number of the rule, as 28 of T28.
    #[tactic(auto, unfolding(crate::specs::Numbers::rule_number))]
    pub fn number(self) -> u32
        ensures { result ≡ rule_number self }
    {
        match self {
            TypingRule::UnknownType => 1,
            TypingRule::UnknownName => 3,
            TypingRule::RepeatedLocal => 4,
            TypingRule::StaticCode => 5,
            TypingRule::NumberTooLarge => 6,
            TypingRule::Arithmetic => 7,
            TypingRule::Shift => 8,
            TypingRule::Comparison => 9,
            TypingRule::Equality => 10,
            TypingRule::Bitwise => 11,
            TypingRule::Logical => 12,
            TypingRule::Negation => 13,
            TypingRule::Sign => 14,
            TypingRule::Conditional => 15,
            TypingRule::Assignment => 16,
            TypingRule::CompoundAssignment => 17,
            TypingRule::Step => 18,
            TypingRule::Target => 19,
            TypingRule::Cast => 20,
            TypingRule::InstanceOf => 21,
            TypingRule::FieldAccess => 22,
            TypingRule::ElementAccess => 23,
            TypingRule::Call => 24,
            TypingRule::CollectionCall => 25,
            TypingRule::Creation => 26,
            TypingRule::ArrayLength => 27,
            TypingRule::Condition => 28,
            TypingRule::LocalValue => 29,
            TypingRule::Return => 30,
            TypingRule::Jump => 31,
            TypingRule::NoResult => 32,
            TypingRule::SuperCall => 33,
            TypingRule::SuperConstructor => 34,
            TypingRule::FieldValue => 35,
            TypingRule::ConstantValue => 36,
            TypingRule::StaticField => 37,
            TypingRule::ContractValue => 38,
            TypingRule::ContractWrite => 39,
            TypingRule::ContractPlace => 40,
            TypingRule::Throw => 41,
            TypingRule::Catch => 42,
            TypingRule::Signals => 43,
        }
    }
}
