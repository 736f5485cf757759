// A candidate of two nodes and an array, worked by hand.
ghost use Rattle.std.specs.Prelude.{◌≡◌, ◌<◌, ◌^◌, ◌∷◌, [], IfOk, OnOk, length};
ghost use Rattle.kr_mean.specs.Problem.{slots};
ghost use Rattle.kr_mean.specs.Space.{IsVector, space_of};
ghost use Rattle.kr_mean.specs.WellFormed.{IsWellFormed};
ghost use Rattle.kr_space_layout.specs.Bounds.{bare};
ghost use Rattle.kr_run_tests.specs.TwoNodes.{arrays as array_domain, from_second, item_lists, nodes as node_domain, two_nodes};

use crate::tests::problems::{class_domain, listed};
use kr_base::NoMemory;
use kr_build::{Walk, build};
use kr_fin::Listed;
use kr_heap::Heap;
use kr_mean::Mode;
use kr_space_layout::{ClassDomain, DomainEntry, Layout, Spotted};
use kr_value::{Class, Spot, Value};
use kr_vector::{Slot, Vector};
use std::alloc::Global;
use std::test::Fail;

// Nodes with another node and an array, or null.
fn nodes(alloc: Global) -> Result<ClassDomain, NoMemory>
    ensures { IfOk result (λ domain. domain ≡ node_domain) }
{
    let spots = [
        Spotted {
            spot: Spot::Field(0),
            domain: 0,
        },
        Spotted {
            spot: Spot::Field(1),
            domain: 1,
        },
    ];
    class_domain(
        alloc,
        b"N".as_slice(),
        Class::Object(0),
        2,
        spots.as_slice(),
    )
}

// An array of up to two elements.
fn arrays(alloc: Global) -> Result<ClassDomain, NoMemory>
    ensures { IfOk result (λ domain. domain ≡ array_domain) }
{
    let spots = [
        Spotted {
            spot: Spot::Length,
            domain: 2,
        },
        Spotted {
            spot: Spot::Element(0),
            domain: 3,
        },
        Spotted {
            spot: Spot::Element(1),
            domain: 3,
        },
    ];
    class_domain(
        alloc,
        b"int[]".as_slice(),
        Class::Array(0),
        1,
        spots.as_slice(),
    )
}

fn push_classes(alloc: Global, classes: &mut Listed<ClassDomain>) -> Result<(), NoMemory>
    requires { classes.old ≡ [] }
    ensures { OnOk result (classes.new ≡ node_domain ∷ array_domain ∷ []) }
{
    classes.push(nodes(alloc)?)?;
    classes.push(arrays(alloc)?)?;
    Ok(())
}

// A node or null, the array or null, up to two elements, and seven.
fn push_domains(alloc: Global, domains: &mut Listed<Listed<DomainEntry>>) -> Result<(), NoMemory>
    requires { domains.old ≡ [] }
    ensures { OnOk result (domains.new ≡ item_lists) }
{
    let null = DomainEntry::Plain(Value::Null);
    domains.push(listed(alloc, [null, DomainEntry::Objects(0)].as_slice())?)?;
    domains.push(listed(alloc, [null, DomainEntry::Objects(1)].as_slice())?)?;
    domains.push(listed(alloc, [DomainEntry::Integers(0, 2)].as_slice())?)?;
    domains.push(listed(alloc, [DomainEntry::Plain(Value::Int(7))].as_slice())?)?;
    Ok(())
}

fn layout_over(alloc: Global, domains: &[Listed<DomainEntry>]) -> Result<Layout, NoMemory>
    requires { domains.now ≡ item_lists }
    ensures { IfOk result (λ layout. layout ≡ two_nodes) }
{
    let mut classes = Listed::new(alloc);
    push_classes(alloc, &mut classes)?;
    let parameters = Listed::new(alloc);
    Layout::new(alloc, 0, Mode::List, 9, parameters, classes, domains)
}

fn layout(alloc: Global) -> Result<Layout, NoMemory>
    ensures { IfOk result (λ layout. layout ≡ two_nodes) }
{
    let mut domains = Listed::new(alloc);
    push_domains(alloc, &mut domains)?;
    layout_over(alloc, domains.as_slice())
}

fn candidate(alloc: Global) -> Result<Vector, NoMemory>
    ensures { IfOk result (λ vector. vector ≡ from_second) }
{
    let mut vector = Vector::zero(alloc, 8)?;
    vector.set(Slot(0), 1);
    vector.set(Slot(2), 1);
    vector.set(Slot(3), 1);
    vector.set(Slot(4), 1);
    vector.set(Slot(5), 1);
    Ok(vector)
}

/// Whether a walk, made twice, meets the slots in this order.
fn walks_alike(walk: &mut Walk, layout: &Layout, vector: &Vector) -> Result<bool, NoMemory>
    requires well { IsWellFormed (bare layout.now) }
    requires vector { IsVector (space_of (bare layout.now)) vector.now }
    requires small { length (slots (bare layout.now)) < 2 ^ 31 }
{
    walk.walk(layout, vector)?;
    let first = walk.slots() == [0, 3, 4, 1, 2, 5, 6].as_slice();
    walk.walk(layout, vector)?;
    Ok(first && walk.slots() == [0, 3, 4, 1, 2, 5, 6].as_slice())
}

/// Whether the nodes and the array are there, with what their fields and elements have.
fn are_nodes(heap: &Heap) -> bool {
    for (object, spot, value) in [
        (0, Spot::Field(0), Some(Value::Null)),
        (0, Spot::Field(1), Some(Value::Ref(2))),
        (1, Spot::Field(0), Some(Value::Ref(0))),
        (1, Spot::Field(1), Some(Value::Ref(2))),
        (1, Spot::Field(2), None),
        (2, Spot::Length, Some(Value::Int(1))),
        (2, Spot::Element(0), Some(Value::Int(7))),
        (2, Spot::Element(1), None),
    ] {
        if heap.read(object, spot) != value {
            return false;
        }
    }
    heap.len() == 3 && heap.class_of(1) == Class::Object(0) && heap.class_of(2) == Class::Array(0)
}

fn walks(alloc: Global, layout: &Layout, vector: &Vector) -> bool
    requires well { IsWellFormed (bare layout.now) }
    requires vector { IsVector (space_of (bare layout.now)) vector.now }
    requires small { length (slots (bare layout.now)) < 2 ^ 31 }
{
    let mut walk = Walk::new(alloc);
    matches!(&walks_alike(&mut walk, layout, vector), Ok(true))
}

fn builds(alloc: Global, layout: &Layout, vector: &Vector) -> bool
    requires well { IsWellFormed (bare layout.now) }
    requires vector { IsVector (space_of (bare layout.now)) vector.now }
    requires small { length (slots (bare layout.now)) < 2 ^ 31 }
{
    match build(alloc, layout, vector) {
        Ok(heap) => are_nodes(&heap),
        Err(_) => false,
    }
}

/// Whether the candidate is walked and built.
fn is_candidate(alloc: Global, layout: &Layout) -> Result<bool, NoMemory>
    requires { layout.now ≡ two_nodes }
{
    let vector = candidate(alloc)?;
    Ok(walks(alloc, layout, &vector) && builds(alloc, layout, &vector))
}

#[test]
fn from_the_second_node(rt: HostRuntime) -> Result<(), Fail> {
    let layout = layout(rt.alloc())?;
    assert!(rt; matches!(&is_candidate(rt.alloc(), &layout), Ok(true)));
    Ok(())
}
