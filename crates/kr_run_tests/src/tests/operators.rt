// Operators on values, each call once.

use kr_ast::{BinaryOperator, UnaryOperator};
use kr_classes_operators::{apply, apply_alone};
use kr_classes_table::OperatorError;
use kr_value::{Value, Width};

#[test]
fn each_call(rt: HostRuntime) {
    let seven = Value::Int(7);
    assert!(rt; apply_alone(Width::Bits32, UnaryOperator::Complement, seven) == Ok(Value::Int(-8)));
    assert!(rt;
        apply_alone(Width::Bits32, UnaryOperator::Not, seven) == Err(OperatorError::NotDefined)
    );
    let by_zero = apply(
        Width::Bits32,
        BinaryOperator::Remainder,
        seven,
        Value::Int(0),
    );
    assert!(rt; by_zero == Err(OperatorError::ZeroDivisor));
    let least = apply(
        Width::Bits32,
        BinaryOperator::Divide,
        Value::Int(-2147483648),
        Value::Int(-1),
    );
    assert!(rt; least == Ok(Value::Int(-2147483648)));
    let differ = apply(
        Width::Bits32,
        BinaryOperator::BitXor,
        Value::Bool(true),
        Value::Bool(false),
    );
    assert!(rt; differ == Ok(Value::Bool(true)));
    let same = apply(
        Width::Bits32,
        BinaryOperator::Equal,
        Value::Ref(3),
        Value::Ref(3),
    );
    assert!(rt; same == Ok(Value::Bool(true)));
}
