// A class whose methods throw and catch, worked by hand:
//
//     class Cell {
//         static int over(int n) {
//             try { return 1 / n; } catch (Broken b) { return 2; } catch (ArithmeticException e) { return 3; }
//         }
//         static boolean same(Broken b) { try { throw b; } catch (Broken c) { return b == c; } }
//         static int loose(Broken b) { throw b; }
//         static int around(Broken b) {
//             try { return loose(b); } catch (ArithmeticException e) { return 4; } catch (Broken c) { return 5; }
//         }
//         static int anew(int n) { try { return 1 / n; } catch (ArithmeticException e) { throw e; } }
//     }
//     class Broken extends RuntimeException {}

use crate::tests::codes::{NONE, Parts, Written, code_of};
use kr_ast::BinaryOperator;
use kr_base::NoMemory;
use kr_code::{Callee, Catch, ClassCode, Code, Expression, Node, Nodes, Statement};
use kr_heap::Heap;
use kr_mean::{Kind, Stop};
use kr_run_method::{Executed, Method, execute};
use kr_value::{Class, Value};
use std::alloc::Global;
use std::test::Fail;

const BROKEN: u32 = 1;

const ARITHMETIC: u32 = 2;

const OVER: u32 = 0;

const SAME: u32 = 1;

const LOOSE: u32 = 2;

const AROUND: u32 = 3;

const ANEW: u32 = 4;

/// A block of one statement.
fn block(parts: &mut Parts, statement: u32) -> Result<u32, NoMemory> {
    let listed = parts.list(&[statement])?;
    parts.statement(Statement::Block(listed))
}

/// A block that returns a value.
fn returned(parts: &mut Parts, value: u32) -> Result<u32, NoMemory> {
    let statement = parts.statement(Statement::Return(value))?;
    block(parts, statement)
}

/// A clause that catches objects of a class.
fn catch(parts: &mut Parts, caught: u32, body: u32) -> Result<u32, NoMemory> {
    parts.node(Node::Catch(Catch { caught, body }))
}

/// A clause that returns a number.
fn clause(parts: &mut Parts, caught: u32, number: i64) -> Result<u32, NoMemory> {
    let value = parts.int(number)?;
    let body = returned(parts, value)?;
    catch(parts, caught, body)
}

/// A static method that is one `try`.
fn attempt(parts: &mut Parts, body: u32, clauses: &[u32]) -> Result<(), NoMemory> {
    let catches = parts.list(clauses)?;
    let attempted = parts.statement(Statement::Try { body, catches })?;
    parts.method(1, false, &[attempted])
}

/// One divided by the argument.
fn quotient(parts: &mut Parts) -> Result<u32, NoMemory> {
    let one = parts.int(1)?;
    let argument = parts.put(Expression::Local(0))?;
    let value = parts.binary(BinaryOperator::Divide, one, argument)?;
    returned(parts, value)
}

fn write_over(parts: &mut Parts) -> Result<(), NoMemory> {
    let body = quotient(parts)?;
    let first = clause(parts, BROKEN, 2)?;
    let second = clause(parts, ARITHMETIC, 3)?;
    attempt(parts, body, &[first, second])
}

fn write_same(parts: &mut Parts) -> Result<(), NoMemory> {
    let argument = parts.put(Expression::Local(0))?;
    let caught = parts.put(Expression::Local(1))?;
    let statement = parts.statement(Statement::Throw(argument))?;
    let body = block(parts, statement)?;
    let is_same = parts.binary(BinaryOperator::Equal, argument, caught)?;
    let answer = returned(parts, is_same)?;
    let first = catch(parts, BROKEN, answer)?;
    attempt(parts, body, &[first])
}

fn write_loose(parts: &mut Parts) -> Result<(), NoMemory> {
    let argument = parts.put(Expression::Local(0))?;
    let statement = parts.statement(Statement::Throw(argument))?;
    parts.method(1, false, &[statement])
}

fn write_around(parts: &mut Parts) -> Result<(), NoMemory> {
    let argument = parts.put(Expression::Local(0))?;
    let arguments = parts.list(&[argument])?;
    let called = parts.put(Expression::Call {
        callee: Callee::Static(LOOSE),
        arguments,
    })?;
    let body = returned(parts, called)?;
    let first = clause(parts, ARITHMETIC, 4)?;
    let second = clause(parts, BROKEN, 5)?;
    attempt(parts, body, &[first, second])
}

fn write_anew(parts: &mut Parts) -> Result<(), NoMemory> {
    let body = quotient(parts)?;
    let caught = parts.put(Expression::Local(1))?;
    let statement = parts.statement(Statement::Throw(caught))?;
    let again = block(parts, statement)?;
    let first = catch(parts, ARITHMETIC, again)?;
    attempt(parts, body, &[first])
}

/// Classes without fields; each is an instance of itself alone.
fn write_classes(alloc: Global, parts: &mut Parts) -> Result<(), NoMemory> {
    for number in 0..3u32 {
        let line = parts.list(&[number])?;
        parts.classes.push(ClassCode {
            defaults: NONE,
            line,
            initialisers: NONE,
            constructor: None,
        })?;
        let mut row = Vec::new(alloc);
        for other in 0..3u32 {
            row.push(other == number)?;
        }
        parts.instances.push(row)?;
    }
    parts.trap_classes.push(None)?;
    parts.trap_classes.push(Some(ARITHMETIC))?;
    Ok(())
}

/// The class that is worked here.
struct Cells;

impl Written for Cells {
    fn write(alloc: Global, parts: &mut Parts) -> Result<(), NoMemory> {
        write_over(parts)?;
        write_same(parts)?;
        write_loose(parts)?;
        write_around(parts)?;
        write_anew(parts)?;
        write_classes(alloc, parts)
    }
}

/// A run of a method on one value, in a heap with one object that can be thrown.
fn executed(
    alloc: Global,
    code: &Code,
    number: u32,
    value: Value,
    fuel: u64,
) -> Result<Executed, NoMemory> {
    let mut heap = Heap::new(alloc);
    let _ = heap.allocate(Class::Object(BROKEN), Vec::new(alloc))?;
    let method = Method {
        number,
        is_static: true,
    };
    execute(alloc, code, heap, method, &[value], fuel)
}

/// How a run ends.
type Ending = Result<Option<Value>, Stop>;

const SPENT: Ending = Err(Stop::OutOfFuel);

fn gives(number: i64) -> Ending {
    Ok(Some(Value::Int(number)))
}

fn traps(kind: Kind) -> Ending {
    Err(Stop::Trapped(kind))
}

/// Whether a run ends so, with so much fuel left, and with this thrown.
fn ends(
    alloc: Global,
    code: &Code,
    number: u32,
    value: Value,
    fuel: u64,
    end: Ending,
    left: u64,
    thrown: Option<Value>,
) -> Result<bool, NoMemory> {
    let run = executed(alloc, code, number, value, fuel)?;
    Ok(run.end == end && run.left == left && run.thrown == thrown)
}

#[test]
fn thrown_and_caught(rt: HostRuntime) -> Result<(), Fail> {
    let code = code_of::<Cells>(rt.alloc())?;
    let zero = Value::Int(0);
    let object = Value::Ref(0);
    let made = Value::Ref(1);
    let truth: Ending = Ok(Some(Value::Bool(true)));
    let own = traps(Kind::Thrown(BROKEN));
    let null = traps(Kind::NullPointerException);
    let again = traps(Kind::ArithmeticException);
    for (number, value, fuel, end, left, thrown) in [
        (OVER, Value::Int(1), 6, gives(1), 0, None),
        (OVER, zero, 10, gives(3), 0, None),
        (OVER, zero, 9, SPENT, 0, None),
        // nobody catches that fuel is spent, also where it is the unit of a clause
        (OVER, zero, 6, SPENT, 0, None),
        (OVER, zero, 5, SPENT, 0, None),
        (SAME, object, 20, truth, 10, None),
        (SAME, Value::Null, 20, null, 16, None),
        (LOOSE, object, 2, own, 0, Some(object)),
        (LOOSE, Value::Null, 2, null, 0, None),
        (AROUND, object, 11, gives(5), 0, None),
        (AROUND, object, 10, SPENT, 0, None),
        // the object of the trap was made by the clause
        (ANEW, zero, 20, again, 10, Some(made)),
    ] {
        assert!(rt;
            ends(rt.alloc(), &code, number, value, fuel, end, left, thrown)?,
            "{number} {fuel}"
        );
    }
    Ok(())
}
