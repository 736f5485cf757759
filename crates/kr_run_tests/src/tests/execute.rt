// A class whose methods are worked by hand:
//
//     class Cell {
//         int v;
//         static int minus(int a, int b) { return a - b; }
//         void set(int n) { v = n; }
//         static int over(int n) { return 1 / n; }
//         Cell copy() { Cell c = new Cell(); c.v = v; return c; }
//         static int fill(LinkedList<Cell> l, HashSet<Cell> s, Cell c) {
//             l.add(c); l.add(c); s.add(c); s.add(c); return l.size() * 10 + s.size();
//         }
//         int f(int n) { return n == 0 ? 0 : f(n - 1); }
//         boolean repOk() { return f(100000) == 0; }
//         boolean valid() { return repOk(); }
//     }

use crate::tests::codes::{NONE, Parts, Written, code_of, push_row};
use kr_ast::BinaryOperator;
use kr_base::NoMemory;
use kr_code::{
    Callee, ClassCode, Code, CollectionCall, Declarator, Expression, Node, Nodes, Statement,
    Variable,
};
use kr_heap::Heap;
use kr_mean::{Kind, Stop};
use kr_run_method::{Executed, Method, execute};
use kr_value::{Class, Spot, Value};
use std::alloc::Global;
use std::test::Fail;

/// A method of the class, by its number.
#[derive(Clone, Copy)]
enum Called {
    Static(u32),
    OnObject(u32),
}

const MINUS: Called = Called::Static(0);

const SET: Called = Called::OnObject(1);

const OVER: Called = Called::Static(2);

const COPY: Called = Called::OnObject(3);

const FILL: Called = Called::Static(4);

const DEEP: Called = Called::OnObject(5);

const VALID: Called = Called::OnObject(7);

const ABSENT: Called = Called::Static(8);

fn write_arithmetic(parts: &mut Parts) -> Result<(), NoMemory> {
    let first = parts.put(Expression::Local(0))?;
    let second = parts.put(Expression::Local(1))?;
    let difference = parts.binary(BinaryOperator::Subtract, first, second)?;
    parts.returning(2, difference)?;
    let assigned = parts.put(Expression::Assign {
        variable: Variable::Own { name: 1, field: 0 },
        value: first,
    })?;
    let stored = parts.statement(Statement::Evaluate(assigned))?;
    parts.method(1, true, &[stored])?;
    let one = parts.int(1)?;
    let quotient = parts.binary(BinaryOperator::Divide, one, first)?;
    parts.returning(1, quotient)
}

fn write_copy(parts: &mut Parts) -> Result<(), NoMemory> {
    let created = parts.put(Expression::Call {
        callee: Callee::New(0),
        arguments: NONE,
    })?;
    let declarator = parts.node(Node::Declarator(Declarator {
        local: 0,
        default: Value::Null,
        initial: Some(created),
    }))?;
    let declarators = parts.list(&[declarator])?;
    let declared = parts.statement(Statement::Declare(declarators))?;
    let copy = parts.put(Expression::Local(0))?;
    let field = parts.put(Expression::OwnField(1))?;
    let assigned = parts.put(Expression::Assign {
        variable: Variable::Of {
            object: copy,
            name: 1,
            field: 0,
        },
        value: field,
    })?;
    let stored = parts.statement(Statement::Evaluate(assigned))?;
    let returned = parts.statement(Statement::Return(copy))?;
    parts.method(0, false, &[declared, stored, returned])
}

fn write_fill(parts: &mut Parts) -> Result<(), NoMemory> {
    let list = parts.put(Expression::Local(0))?;
    let set = parts.put(Expression::Local(1))?;
    let cell = parts.put(Expression::Local(2))?;
    let to_list = parts.collection(list, CollectionCall::Add, &[cell])?;
    let to_set = parts.collection(set, CollectionCall::Add, &[cell])?;
    let listed = parts.statement(Statement::Evaluate(to_list))?;
    let added = parts.statement(Statement::Evaluate(to_set))?;
    let length = parts.collection(list, CollectionCall::Size, &[])?;
    let size = parts.collection(set, CollectionCall::Size, &[])?;
    let ten = parts.int(10)?;
    let tens = parts.binary(BinaryOperator::Multiply, length, ten)?;
    let sum = parts.binary(BinaryOperator::Add, tens, size)?;
    let returned = parts.statement(Statement::Return(sum))?;
    parts.method(3, false, &[listed, listed, added, added, returned])
}

fn write_deep(parts: &mut Parts) -> Result<(), NoMemory> {
    let number = parts.put(Expression::Local(0))?;
    let zero = parts.int(0)?;
    let one = parts.int(1)?;
    let is_zero = parts.binary(BinaryOperator::Equal, number, zero)?;
    let less = parts.binary(BinaryOperator::Subtract, number, one)?;
    let again = parts.call(5, &[less])?;
    let chosen = parts.put(Expression::Conditional {
        condition: is_zero,
        then: zero,
        otherwise: again,
    })?;
    parts.returning(1, chosen)?;
    let depth = parts.int(100000)?;
    let called = parts.call(5, &[depth])?;
    let holds = parts.binary(BinaryOperator::Equal, called, zero)?;
    parts.returning(0, holds)?;
    let valid = parts.call(6, &[])?;
    parts.returning(0, valid)
}

/// The class, the place of its field, and what its objects run: the method of that number itself.
fn write_class(alloc: Global, parts: &mut Parts) -> Result<(), NoMemory> {
    let line = parts.list(&[0])?;
    parts.values.push(Value::Int(0))?;
    parts.classes.push(ClassCode {
        defaults: Nodes { first: 0, count: 1 },
        line,
        initialisers: NONE,
        constructor: None,
    })?;
    push_row(alloc, &mut parts.positions, &[])?;
    push_row(alloc, &mut parts.positions, &[Some(0)])?;
    push_row(alloc, &mut parts.spots, &[Some(0)])?;
    for number in 0..8u32 {
        push_row(alloc, &mut parts.dispatch, &[Some(number)])?;
    }
    Ok(())
}

/// The class that is worked here.
struct Cells;

impl Written for Cells {
    fn write(alloc: Global, parts: &mut Parts) -> Result<(), NoMemory> {
        write_arithmetic(parts)?;
        write_copy(parts)?;
        write_fill(parts)?;
        write_deep(parts)?;
        write_class(alloc, parts)
    }
}

/// Adds a cell whose field is 3, an empty list and an empty set.
fn push_objects(alloc: Global, heap: &mut Heap) -> Result<(), NoMemory> {
    let fields = vec![in alloc; Value::Int(3)]?;
    let _ = heap.allocate(Class::Object(0), fields)?;
    let _ = heap.allocate(Class::List, Vec::new(alloc))?;
    let _ = heap.allocate(Class::Set, Vec::new(alloc))?;
    Ok(())
}

fn heap(alloc: Global) -> Result<Heap, NoMemory> {
    let mut heap = Heap::new(alloc);
    push_objects(alloc, &mut heap)?;
    Ok(heap)
}

fn executed(
    alloc: Global,
    code: &Code,
    called: Called,
    values: &[Value],
    fuel: u64,
) -> Result<Executed, NoMemory> {
    let heap = heap(alloc)?;
    let method = match called {
        Called::Static(number) => Method {
            number,
            is_static: true,
        },
        Called::OnObject(number) => Method {
            number,
            is_static: false,
        },
    };
    execute(alloc, code, heap, method, values, fuel)
}

/// How a run ends.
type Ending = Result<Option<Value>, Stop>;

const SPENT: Ending = Err(Stop::OutOfFuel);

const STUCK: Ending = Err(Stop::Stuck);

const VOID: Ending = Ok(None);

fn gives(value: Value) -> Ending {
    Ok(Some(value))
}

fn traps(kind: Kind) -> Ending {
    Err(Stop::Trapped(kind))
}

/// Whether a run ends so, with so much fuel left.
fn ends(
    alloc: Global,
    code: &Code,
    called: Called,
    values: &[Value],
    fuel: u64,
    end: Ending,
    left: u64,
) -> Result<bool, NoMemory> {
    let run = executed(alloc, code, called, values, fuel)?;
    Ok(run.end == end && run.left == left)
}

#[test]
fn values_and_ends(rt: HostRuntime) -> Result<(), Fail> {
    let code = code_of::<Cells>(rt.alloc())?;
    let cell = Value::Ref(0);
    let seven = [Value::Int(7), Value::Int(3)];
    let zero = [Value::Int(0), Value::Int(0)];
    let receiver = [cell, Value::Int(5)];
    let null = [Value::Null, Value::Int(5)];
    let one = [cell, Value::Int(1)];
    for (called, values, fuel, end, left) in [
        (MINUS, &seven[..], 1000, gives(Value::Int(4)), 996),
        (MINUS, &seven[..], 4, gives(Value::Int(4)), 0),
        (MINUS, &seven[..], 3, SPENT, 0),
        (
            MINUS,
            &seven[..],
            u64::MAX,
            gives(Value::Int(4)),
            u64::MAX - 4,
        ),
        (SET, &receiver[..], 3, VOID, 0),
        (SET, &null[..], 10, traps(Kind::NullPointerException), 7),
        (OVER, &zero[..1], 4, traps(Kind::ArithmeticException), 0),
        (OVER, &zero[..1], 3, SPENT, 0),
        (COPY, &receiver[..1], 8, gives(Value::Ref(3)), 0),
        (DEEP, &one[..], 15, gives(Value::Int(0)), 0),
        (DEEP, &one[..], 14, SPENT, 0),
        // not as many values as it takes, or no such method
        (MINUS, &seven[..1], 10, STUCK, 10),
        (COPY, &receiver[..], 10, STUCK, 10),
        (COPY, &receiver[..0], 10, STUCK, 10),
        (ABSENT, &seven[..0], 10, STUCK, 10),
    ] {
        assert!(rt;
            ends(rt.alloc(), &code, called, values, fuel, end, left)?,
            "{fuel}"
        );
    }
    Ok(())
}

/// Whether `set` writes the cell's field, and makes no object.
fn sets(alloc: Global, code: &Code) -> Result<bool, NoMemory> {
    let set = executed(alloc, code, SET, &[Value::Ref(0), Value::Int(5)], 10)?;
    Ok(set.heap.read(0, Spot::Field(0)) == Some(Value::Int(5)) && set.heap.len() == 3)
}

/// Whether `copy` makes a cell, with this end and this number in its field.
fn copies(
    alloc: Global,
    code: &Code,
    fuel: u64,
    end: Ending,
    number: i64,
) -> Result<bool, NoMemory> {
    let copy = executed(alloc, code, COPY, &[Value::Ref(0)], fuel)?;
    Ok(
        copy.end == end
            && copy.heap.len() == 4
            && copy.heap.class_of(3) == Class::Object(0)
            && copy.heap.read(3, Spot::Field(0)) == Some(Value::Int(number)),
    )
}

#[test]
fn heaps(rt: HostRuntime) -> Result<(), Fail> {
    let code = code_of::<Cells>(rt.alloc())?;
    assert!(rt; sets(rt.alloc(), &code)?);
    let made = gives(Value::Ref(3));
    assert!(rt; copies(rt.alloc(), &code, 10, made, 3)?);
    // spent before the field of the new object is written
    assert!(rt; copies(rt.alloc(), &code, 5, SPENT, 0)?);
    Ok(())
}

/// Whether list and set are filled.
fn fills(alloc: Global, code: &Code) -> Result<bool, NoMemory> {
    let values = [Value::Ref(1), Value::Ref(2), Value::Ref(0)];
    let run = executed(alloc, code, FILL, &values, 100)?;
    Ok(
        run.end == gives(Value::Int(21))
            && run.left == 76
            && run.heap.size_of(1) == 2
            && run.heap.size_of(2) == 1,
    )
}

#[test]
fn collections(rt: HostRuntime) -> Result<(), Fail> {
    let code = code_of::<Cells>(rt.alloc())?;
    let filled = fills(rt.alloc(), &code)?;
    assert!(rt; filled);
    Ok(())
}

// `f` costs 6 and 9 for each call below it, `repOk` 5 more, `valid` 2 more.
#[test]
fn deep_calls(rt: HostRuntime) -> Result<(), Fail> {
    let code = code_of::<Cells>(rt.alloc())?;
    let receiver = [Value::Ref(0)];
    for (fuel, end, left) in [
        (900_013, gives(Value::Bool(true)), 0),
        (900_012, SPENT, 0),
        (1_000_000_000, gives(Value::Bool(true)), 999_099_987),
    ] {
        assert!(rt;
            ends(rt.alloc(), &code, VALID, &receiver, fuel, end, left)?,
            "{fuel}"
        );
    }
    Ok(())
}
