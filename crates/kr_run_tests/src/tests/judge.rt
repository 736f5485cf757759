// A class of one field, `class Cell { int v; boolean repOk() { return v > 0; } }`, worked by hand.
ghost use Rattle.std.specs.Prelude.{◌≡◌, ◌<◌, ◌^◌, ◌∷◌, [], IfOk, length};
ghost use Rattle.kr_mean.specs.Problem.{slots};
ghost use Rattle.kr_mean.specs.Space.{IsVector, space_of};
ghost use Rattle.kr_mean.specs.WellFormed.{IsWellFormed};
ghost use Rattle.kr_space_layout.specs.Bounds.{bare};
ghost use Rattle.kr_run_tests.specs.OneCell.{cells as cell_domain, item_lists, one_cell};

use crate::tests::codes::{NONE, Parts, Written, code_of, int_operation, push_row};
use crate::tests::problems::{class_domain, listed};
use kr_ast::BinaryOperator;
use kr_base::{NoMemory, Steps};
use kr_code::{Expression, MethodCode, Node, Nodes, Statement};
use kr_fin::Listed;
use kr_judge::{Judge, Predicate};
use kr_mean::{Mode, Stop};
use kr_space_layout::{ClassDomain, DomainEntry, Layout, Spotted};
use kr_value::{Class, Spot, Value};
use kr_vector::{Slot, Vector};
use std::alloc::Global;
use std::marker::Brand;
use std::process::Abort;
use std::sync::ledger::{Blank, Ledger};
use std::test::Fail;

/// `return v > 0;` and the call `this.repOk()`.
fn push_nodes(nodes: &mut Vec<Node>) -> Result<(), NoMemory> {
    nodes.extend_from_slice(&[
        Node::Expression(Expression::OwnField(1)),
        Node::Expression(Expression::Literal(Value::Int(0))),
        Node::Expression(Expression::Binary {
            operation: int_operation(BinaryOperator::Greater),
            left: 0,
            right: 1,
        }),
        Node::Statement(Statement::Return(2)),
        Node::Expression(Expression::This),
        Node::Expression(Expression::CallOn {
            object: 4,
            method: 0,
            arguments: NONE,
        }),
    ])?;
    Ok(())
}

/// The class; the name of the number 1 is `v`, the method of the number 0 is `repOk`.
struct OneField;

impl Written for OneField {
    fn write(alloc: Global, parts: &mut Parts) -> Result<(), NoMemory> {
        push_nodes(&mut parts.nodes)?;
        parts.links.push(3)?;
        parts.methods.push(MethodCode {
            parameters: Nodes { first: 0, count: 0 },
            is_void: false,
            body: Nodes { first: 0, count: 1 },
        })?;
        push_row(alloc, &mut parts.positions, &[])?;
        push_row(alloc, &mut parts.positions, &[Some(0)])?;
        push_row(alloc, &mut parts.dispatch, &[Some(0)])
    }
}

fn predicate(alloc: Global) -> Result<Predicate, NoMemory> {
    let conditions = vec![in alloc; 5]?;
    let code = code_of::<OneField>(alloc)?;
    Ok(Predicate { code, conditions })
}

fn cells(alloc: Global) -> Result<ClassDomain, NoMemory>
    ensures { IfOk result (λ domain. domain ≡ cell_domain) }
{
    let spots = [Spotted {
        spot: Spot::Field(0),
        domain: 0,
    }];
    class_domain(
        alloc,
        b"Cell".as_slice(),
        Class::Object(0),
        1,
        spots.as_slice(),
    )
}

fn layout_over(
    alloc: Global,
    fuel: u64,
    domains: &[Listed<DomainEntry>],
) -> Result<Layout, NoMemory>
    requires { domains.now ≡ item_lists }
    ensures { IfOk result (λ layout. layout ≡ one_cell fuel) }
{
    let mut classes = Listed::new(alloc);
    classes.push(cells(alloc)?)?;
    let parameters = Listed::new(alloc);
    Layout::new(alloc, 0, Mode::List, fuel, parameters, classes, domains)
}

fn layout(alloc: Global, fuel: u64) -> Result<Layout, NoMemory>
    ensures { IfOk result (λ layout. layout ≡ one_cell fuel) }
{
    let items = listed(alloc, [DomainEntry::Integers(0, 2)].as_slice())?;
    layout_over(alloc, fuel, [items].as_slice())
}

fn candidate(alloc: Global, value: u32) -> Result<Vector, NoMemory>
    ensures { IfOk result (λ vector. vector ≡ 0 ∷ value ∷ []) }
{
    let mut vector = Vector::zero(alloc, 2)?;
    vector.set(Slot(1), value);
    Ok(vector)
}

fn judged<L: Ledger>(
    blank: Blank,
    judge: &mut Judge,
    layout: &Layout,
    predicate: &Predicate,
    vector: &Vector,
) -> Result<Result<bool, Stop>, NoMemory>
    requires ledger { blank.name ≡ L.name }
    requires parts { blank.parts ≡ L.parts }
    requires some { 0 < L.parts }
    requires well { IsWellFormed (bare layout.now) }
    requires vector { IsVector (space_of (bare layout.now)) vector.now }
    requires small { length (slots (bare layout.now)) < 2 ^ 31 }
{
    let mut runs = Steps::<L>::start(blank);
    judge.judge(layout, predicate, vector, &mut runs)
}

/// Whether a run in this layout ends so, and reads these slots.
fn ends_in(
    alloc: Global,
    predicate: &Predicate,
    layout: &Layout,
    fuel: u64,
    value: u32,
    wanted: Result<bool, Stop>,
    order: &[u32],
) -> Result<bool, NoMemory>
    requires value { value < 3 }
    requires layout { layout.now ≡ one_cell fuel }
{
    let vector = candidate(alloc, value)?;
    let mut judge = Judge::new(alloc);
    let said = judged::<Brand>(Blank::new(1), &mut judge, layout, predicate, &vector);
    Ok(matches!(&said, Ok(end) if *end == wanted) && judge.order() == order)
}

/// Whether a run with so much fuel ends so, and reads these slots.
fn ends(
    alloc: Global,
    predicate: &Predicate,
    fuel: u64,
    value: u32,
    wanted: Result<bool, Stop>,
    order: &[u32],
) -> Result<bool, NoMemory>
    requires { value < 3 }
{
    let layout = layout(alloc, fuel)?;
    ends_in(alloc, predicate, &layout, fuel, value, wanted, order)
}

const HOLDS: Result<bool, Stop> = Ok(true);

const FAILS: Result<bool, Stop> = Ok(false);

const SPENT: Result<bool, Stop> = Err(Stop::OutOfFuel);

// A run of this predicate takes six units: the call, `this`, `return`, `>`, `v` and `0`.
fn judge_all(rt: &impl Abort, alloc: Global, predicate: &Predicate) {
    for (fuel, value, wanted, length) in [
        (1000, 0, FAILS, 2),
        (1000, 1, HOLDS, 2),
        (6, 2, HOLDS, 2),
        (5, 2, SPENT, 2),
        (4, 2, SPENT, 1),
    ] {
        let order = &[0, 1][..length];
        let said = ends(alloc, predicate, fuel, value, wanted, order);
        assert!(rt; matches!(&said, Ok(true)), "{fuel} {value}");
    }
}

#[test]
fn one_field(rt: HostRuntime) -> Result<(), Fail> {
    let predicate = predicate(rt.alloc())?;
    judge_all(&rt, rt.alloc(), &predicate);
    Ok(())
}
