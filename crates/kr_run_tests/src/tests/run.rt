// Small pieces of code, run by the machine.

use crate::tests::codes::{NONE, Parts, Written, code_of, int_operation, push_row};
use kr_ast::{BinaryOperator, StepOperator};
use kr_base::NoMemory;
use kr_code::{
    Callee, ClassCode, Code, CollectionCall, Declarator, Expression, MethodCode, Node, Nodes,
    Statement, Variable,
};
use kr_heap::Heap;
use kr_mean::{Kind, StepOperation, Stop};
use kr_run::evaluate;
use kr_run_state::{Halt, Local, Reads, World};
use kr_value::{Class, Value, Width};
use std::alloc::Global;
use std::test::Fail;

fn int(number: i64) -> Node {
    Node::Expression(Expression::Literal(Value::Int(number)))
}

fn local(number: u32) -> Node {
    Node::Expression(Expression::Local(number))
}

// boolean below(int n) { int k = 0; while (k < n) k++; return k == n; }  ·  a list's size() { return next == null ? 1 : 1 + next.size(); }
fn push_nodes(nodes: &mut Vec<Node>) -> Result<(), NoMemory> {
    for node in [
        int(0),
        Node::Declarator(Declarator {
            local: 1,
            default: Value::Int(0),
            initial: Some(0),
        }),
        local(0),
        local(1),
        Node::Expression(Expression::Binary {
            operation: int_operation(BinaryOperator::Less),
            left: 3,
            right: 2,
        }),
        Node::Expression(Expression::Step {
            operation: StepOperation {
                operator: StepOperator::IncrementBehind,
                width: Width::Bits32,
            },
            variable: Variable::Local(1),
        }),
        Node::Statement(Statement::Evaluate(5)),
        Node::Statement(Statement::While {
            condition: 4,
            body: 6,
        }),
        Node::Expression(Expression::Binary {
            operation: int_operation(BinaryOperator::Equal),
            left: 3,
            right: 2,
        }),
        Node::Statement(Statement::Return(8)),
        Node::Statement(Statement::Declare(Nodes { first: 0, count: 1 })),
        // 11: below(7)
        int(7),
        Node::Expression(Expression::Call {
            callee: Callee::Static(0),
            arguments: Nodes { first: 4, count: 1 },
        }),
        // 13: this.next, null, next == null
        Node::Expression(Expression::OwnField(1)),
        Node::Expression(Expression::Literal(Value::Null)),
        Node::Expression(Expression::Binary {
            operation: int_operation(BinaryOperator::Equal),
            left: 13,
            right: 14,
        }),
        int(1),
        Node::Expression(Expression::CallOn {
            object: 13,
            method: 1,
            arguments: NONE,
        }),
        Node::Expression(Expression::Binary {
            operation: int_operation(BinaryOperator::Add),
            left: 16,
            right: 17,
        }),
        Node::Expression(Expression::Conditional {
            condition: 15,
            then: 16,
            otherwise: 18,
        }),
        Node::Statement(Statement::Return(19)),
        // 21: this.size()
        Node::Expression(Expression::Call {
            callee: Callee::Own(1),
            arguments: NONE,
        }),
        // 22: null.next
        Node::Expression(Expression::FieldOf {
            object: 14,
            name: 1,
        }),
        // 23: new C()
        Node::Expression(Expression::Call {
            callee: Callee::New(0),
            arguments: NONE,
        }),
    ] {
        nodes.push(node)?;
    }
    Ok(())
}

/// The methods and the class.
fn push_declarations(parts: &mut Parts) -> Result<(), NoMemory> {
    parts.links.extend_from_slice(&[1, 10, 7, 9, 11, 20, 0])?;
    parts.values.push(Value::Null)?;
    parts.methods.push(MethodCode {
        parameters: Nodes { first: 0, count: 1 },
        is_void: false,
        body: Nodes { first: 1, count: 3 },
    })?;
    parts.methods.push(MethodCode {
        parameters: Nodes { first: 0, count: 0 },
        is_void: false,
        body: Nodes { first: 5, count: 1 },
    })?;
    parts.classes.push(ClassCode {
        defaults: Nodes { first: 0, count: 1 },
        line: Nodes { first: 6, count: 1 },
        initialisers: NONE,
        constructor: None,
    })?;
    Ok(())
}

/// The methods and the class that are worked here.
struct Counting;

impl Written for Counting {
    fn write(alloc: Global, parts: &mut Parts) -> Result<(), NoMemory> {
        push_nodes(&mut parts.nodes)?;
        push_declarations(parts)?;
        push_row(alloc, &mut parts.positions, &[])?;
        push_row(alloc, &mut parts.positions, &[Some(0)])?;
        push_row(alloc, &mut parts.dispatch, &[])?;
        push_row(alloc, &mut parts.dispatch, &[Some(1)])
    }
}

fn world(alloc: Global, this: Value, candidates: Heap, fuel: u64) -> World {
    World {
        this,
        locals: Vec::new(alloc),
        result: None,
        olds: Vec::new(alloc),
        thrown: None,
        candidates,
        made: Heap::new(alloc),
        is_frozen: false,
        fuel,
        reads: Reads::new(alloc),
    }
}

/// Whether a loop runs, and spends its fuel.
fn counts(alloc: Global, code: &Code) -> bool {
    let mut world = world(alloc, Value::Null, Heap::new(alloc), 1000);
    let said = evaluate(alloc, code, &mut world, 12);
    // the call and its argument 2, the declarator and its value 2, 8 tests of 4 units, 7 bodies of 2, the loop 1, return 4
    matches!(&said, Ok(Value::Bool(true))) && world.locals.len() == 0 && world.fuel == 1000 - 55
}

/// Adds objects, each with the one before it in its field.
fn push_chain(alloc: Global, heap: &mut Heap, count: u32) -> Result<(), NoMemory> {
    for number in 0..count {
        let next = if number == 0 {
            Value::Null
        } else {
            Value::Ref(number - 1)
        };
        let fields = vec![in alloc; next]?;
        let _ = heap.allocate(Class::Object(0), fields)?;
    }
    Ok(())
}

/// A heap of so many such objects.
fn chain(alloc: Global, count: u32) -> Result<Heap, NoMemory> {
    let mut heap = Heap::new(alloc);
    push_chain(alloc, &mut heap, count)?;
    Ok(heap)
}

/// Whether a list of ten thousand counts itself, and not without fuel.
fn is_counted(alloc: Global, code: &Code, heap: Heap) -> bool {
    let mut world = world(alloc, Value::Ref(9999), heap, 1000000);
    let said = evaluate(alloc, code, &mut world, 21);
    world.fuel = 10;
    let ended = evaluate(alloc, code, &mut world, 21);
    matches!(&said, Ok(Value::Int(10000))) && matches!(&ended, Err(Halt::Ended(Stop::OutOfFuel)))
}

fn calls_deep(alloc: Global, code: &Code) -> Result<bool, NoMemory> {
    let heap = chain(alloc, 10000)?;
    Ok(is_counted(alloc, code, heap))
}

/// Whether a field is read, an object is made, and null traps.
fn is_read(alloc: Global, code: &Code, heap: Heap) -> bool {
    let mut world = world(alloc, Value::Ref(0), heap, 100);
    let said = evaluate(alloc, code, &mut world, 21);
    let read = world.reads.as_slice().len() == 1;
    let made = evaluate(alloc, code, &mut world, 23);
    let trapped = evaluate(alloc, code, &mut world, 22);
    read && matches!(&said, Ok(Value::Int(1)))
        && matches!(&made, Ok(Value::Ref(1)))
        && traps(&trapped, Kind::NullPointerException)
}

fn reads_and_traps(alloc: Global, code: &Code) -> Result<bool, NoMemory> {
    let heap = chain(alloc, 1)?;
    Ok(is_read(alloc, code, heap))
}

#[test]
fn methods(rt: HostRuntime) -> Result<(), Fail> {
    let alloc = rt.alloc();
    let code = code_of::<Counting>(alloc)?;
    assert!(rt; counts(alloc, &code));
    assert!(rt; matches!(&calls_deep(alloc, &code), Ok(true)));
    assert!(rt; matches!(&reads_and_traps(alloc, &code), Ok(true)));
    Ok(())
}

// A list, a set, null, and calls on them: the locals are the list and the set.
fn push_collection_nodes(nodes: &mut Vec<Node>) -> Result<(), NoMemory> {
    for node in [
        local(0),
        local(1),
        Node::Expression(Expression::Literal(Value::Null)),
        created(Callee::NewList),
        created(Callee::NewSet),
        called(0, CollectionCall::Add, 1),
        called(1, CollectionCall::Add, 1),
        called(0, CollectionCall::Size, 0),
        called(1, CollectionCall::Contains, 1),
        called(0, CollectionCall::RemoveFirst, 0),
        called(0, CollectionCall::IsEmpty, 0),
        called(1, CollectionCall::Remove, 1),
        called(2, CollectionCall::Size, 0),
    ] {
        nodes.push(node)?;
    }
    Ok(())
}

/// The calls on collections that are worked here.
struct Collecting;

impl Written for Collecting {
    fn write(_alloc: Global, parts: &mut Parts) -> Result<(), NoMemory> {
        push_collection_nodes(&mut parts.nodes)?;
        parts.links.push(2)?;
        Ok(())
    }
}

fn created(callee: Callee) -> Node {
    Node::Expression(Expression::Call {
        callee,
        arguments: NONE,
    })
}

// A call with null as its argument, or with none.
fn called(object: u32, call: CollectionCall, count: u32) -> Node {
    Node::Expression(Expression::CallCollection {
        object,
        call,
        arguments: Nodes { first: 0, count },
    })
}

fn traps(said: &Result<Value, Halt>, kind: Kind) -> bool {
    match said {
        Err(Halt::Ended(Stop::Trapped(trapped))) => *trapped == kind,
        _ => false,
    }
}

/// Whether the calls, one after another, give these values; the first two are the locals from then on.
fn are_answered(alloc: Global, code: &Code, world: &mut World) -> Result<bool, NoMemory> {
    for (node, expected) in [
        (3, Value::Ref(0)),
        (4, Value::Ref(1)),
        (5, Value::Bool(true)),
        (5, Value::Bool(true)),
        (6, Value::Bool(true)),
        (6, Value::Bool(false)),
        (7, Value::Int(2)),
        (8, Value::Bool(true)),
        (9, Value::Null),
        (10, Value::Bool(false)),
        (9, Value::Null),
        (10, Value::Bool(true)),
        (11, Value::Bool(true)),
        (8, Value::Bool(false)),
    ] {
        let said = evaluate(alloc, code, world, node);
        if !matches!(&said, Ok(value) if *value == expected) {
            return Ok(false);
        }
        if node < 5 {
            world.locals.push(Local {
                value: expected,
                parameter: None,
            })?;
        }
    }
    Ok(true)
}

/// Whether the calls trap that do: of an empty list its first member, of null its size.
fn are_trapped(alloc: Global, code: &Code, world: &mut World) -> bool {
    let empty = evaluate(alloc, code, world, 9);
    let null = evaluate(alloc, code, world, 12);
    traps(&empty, Kind::NoSuchElementException) && traps(&null, Kind::NullPointerException)
}

fn calls_collections(alloc: Global, code: &Code) -> bool {
    let mut world = world(alloc, Value::Null, Heap::new(alloc), 1000);
    matches!(&are_answered(alloc, code, &mut world), Ok(true))
        && are_trapped(alloc, code, &mut world)
}

#[test]
fn collections(rt: HostRuntime) -> Result<(), Fail> {
    let alloc = rt.alloc();
    let code = code_of::<Collecting>(alloc)?;
    assert!(rt; calls_collections(alloc, &code));
    Ok(())
}
