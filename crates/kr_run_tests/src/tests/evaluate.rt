// Expressions of a contract, worked by hand:
//
//     class Cell {
//         int v;
//         //@ ensures v == \old(v) + 1;
//         //@ ensures \result > n && \old(n) == n;
//         int inc(int n) { .. }
//     }

use crate::tests::codes::{Parts, Written, code_of, push_row};
use kr_ast::BinaryOperator;
use kr_base::{NoMemory, Place};
use kr_code::{Code, Expression};
use kr_heap::Heap;
use kr_mean::Stop;
use kr_run_method::{Env, Executed, evaluate};
use kr_value::{Class, Value};
use std::alloc::Global;
use std::test::Fail;

const FIRST_OLD: Place = Place {
    file: 0,
    line: 3,
    col: 22,
};

const SECOND_OLD: Place = Place {
    file: 0,
    line: 4,
    col: 36,
};

// the nodes of the postconditions
const GROWN: u32 = 4;

const GREATER: u32 = 10;

struct Inc;

impl Written for Inc {
    fn write(alloc: Global, parts: &mut Parts) -> Result<(), NoMemory> {
        let field = parts.put(Expression::OwnField(1))?;
        let old = parts.put(Expression::Old(FIRST_OLD))?;
        let one = parts.int(1)?;
        let sum = parts.binary(BinaryOperator::Add, old, one)?;
        let _grown = parts.binary(BinaryOperator::Equal, field, sum)?;
        let value = parts.put(Expression::Result)?;
        let number = parts.put(Expression::Local(0))?;
        let greater = parts.binary(BinaryOperator::Greater, value, number)?;
        let before = parts.put(Expression::Old(SECOND_OLD))?;
        let same = parts.binary(BinaryOperator::Equal, before, number)?;
        let _both = parts.put(Expression::And {
            left: greater,
            right: same,
        })?;
        push_row(alloc, &mut parts.positions, &[])?;
        push_row(alloc, &mut parts.positions, &[Some(0)])
    }
}

/// Adds a cell.
fn push_cell(alloc: Global, heap: &mut Heap, number: i64) -> Result<(), NoMemory> {
    let fields = vec![in alloc; Value::Int(number)]?;
    let _ = heap.allocate(Class::Object(0), fields)?;
    Ok(())
}

/// A heap of a cell.
fn heap(alloc: Global, number: i64) -> Result<Heap, NoMemory> {
    let mut heap = Heap::new(alloc);
    push_cell(alloc, &mut heap, number)?;
    Ok(heap)
}

/// Fills what the expressions see beside the cell, which is `this`.
fn see(env: &mut Env, numbers: &[i64]) -> Result<(), NoMemory> {
    env.arguments.push(Value::Int(2))?;
    for number in numbers {
        env.olds.push(Value::Int(*number))?;
    }
    Ok(())
}

fn env(alloc: Global, given: Option<Value>, numbers: &[i64]) -> Result<Env, NoMemory> {
    let mut env = Env {
        this: Value::Ref(0),
        arguments: Vec::new(alloc),
        thrown: None,
        result: given,
        olds: Vec::new(alloc),
    };
    see(&mut env, numbers)?;
    Ok(env)
}

fn evaluated(
    alloc: Global,
    code: &Code,
    node: u32,
    env: &Env,
    fuel: u64,
) -> Result<Executed, NoMemory> {
    let heap = heap(alloc, 3)?;
    evaluate(alloc, code, heap, node, &[FIRST_OLD, SECOND_OLD], env, fuel)
}

/// Whether an evaluation ends so, with so much fuel left.
fn ends(
    alloc: Global,
    code: &Code,
    node: u32,
    number: Option<i64>,
    olds: &[i64],
    fuel: u64,
    end: Result<Option<Value>, Stop>,
    left: u64,
) -> Result<bool, NoMemory> {
    let given = match number {
        Some(number) => Some(Value::Int(number)),
        None => None,
    };
    let env = env(alloc, given, olds)?;
    let run = evaluated(alloc, code, node, &env, fuel)?;
    Ok(run.end == end && run.left == left && run.heap.len() == 1)
}

#[test]
fn postconditions(rt: HostRuntime) -> Result<(), Fail> {
    let code = code_of::<Inc>(rt.alloc())?;
    let yes = Ok(Some(Value::Bool(true)));
    let no = Ok(Some(Value::Bool(false)));
    for (node, given, olds, fuel, end, left) in [
        (GROWN, None, &[2, 2][..], 5, yes, 0),
        (GROWN, None, &[3, 2][..], 9, no, 4),
        (GROWN, None, &[2, 2][..], 4, Err(Stop::OutOfFuel), 0),
        (GREATER, Some(7), &[3, 2][..], 10, yes, 3),
        (GREATER, Some(7), &[2, 3][..], 10, no, 3),
        (GREATER, Some(1), &[2, 2][..], 10, no, 6),
        // no value for the `\old`, or no result
        (GROWN, None, &[][..], 9, Err(Stop::Stuck), 5),
        (GREATER, None, &[2, 2][..], 9, Err(Stop::Stuck), 6),
    ] {
        assert!(rt;
            ends(rt.alloc(), &code, node, given, olds, fuel, end, left)?,
            "{fuel}"
        );
    }
    Ok(())
}
