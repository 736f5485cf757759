// The environment and the result of a run.

use kr_classes_table::MethodId;
use kr_heap::Heap;
use kr_mean::Stop;
use kr_value::Value;

/// A method of code: its number there, and whether it is static, so that it has no receiver.
#[derive(Clone, Copy)]
pub struct Method {
    pub number: MethodId,
    pub is_static: bool,
}

/// The environment of an expression of a contract beside the heap: `this`, the arguments of the method, what it has thrown where
/// the expression is of a `signals` clause that names it, its result where it has one, and the values of its `\old`s, in source
/// order.
#[derive(Drop)]
pub struct Env {
    pub this: Value,
    pub arguments: Vec<Value>,
    pub thrown: Option<Value>,
    pub result: Option<Value>,
    pub olds: Vec<Value>,
}

/// How a run has ended, the heap and the fuel that it leaves, and the object that it has thrown and nobody has caught: none where
/// a step trapped, which makes no object. It ends with a value, or with none where the method has no result; or early. It is stuck where code has no meaning, as no code is that typing accepts, on a heap and values of its
/// types.
#[derive(Drop)]
pub struct Executed {
    pub end: Result<Option<Value>, Stop>,
    pub heap: Heap,
    pub left: u64,
    pub thrown: Option<Value>,
}
