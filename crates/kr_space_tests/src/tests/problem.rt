// Small problems, worked by hand.

use kr_base::NoMemory;
use kr_fin::Listed;
use kr_iso::{Object, Slots};
use kr_mean::Mode;
use kr_space_layout::{ClassDomain, DomainEntry, Layout, Spotted, any_program_law};
use kr_value::{Class, SlotPlace, Spot, Value};
use std::alloc::Global;

fn listed<T: Drop + Copy>(alloc: Global, items: &[T]) -> Result<Listed<T>, NoMemory> {
    let mut list = Listed::new(alloc);
    for item in items {
        list.push(*item)?;
    }
    Ok(list)
}

fn spotted(alloc: Global, spots: &[(Spot, u32)]) -> Result<Listed<Spotted>, NoMemory> {
    let mut list = Listed::new(alloc);
    for (spot, domain) in spots {
        list.push(Spotted {
            spot: *spot,
            domain: *domain,
        })?;
    }
    Ok(list)
}

fn class_domain(
    alloc: Global,
    name: &str,
    class: Class,
    count: u32,
    spots: &[(Spot, u32)],
) -> Result<ClassDomain, NoMemory> {
    let name = listed(alloc, name.as_bytes())?;
    let spots = spotted(alloc, spots)?;
    Ok(ClassDomain {
        name,
        class,
        count,
        spots,
    })
}

// A slot's place and owner, if there is one.
fn slot_at(layout: &Layout, slot: u32) -> Option<(SlotPlace, Option<Object>, u32)> {
    if slot < Layout::slots(layout) {
        Some((
            layout.place(slot),
            layout.owner(slot),
            Layout::size(layout, slot),
        ))
    } else {
        None
    }
}

// The value at an index of a slot, if there is such a one.
fn value_at(layout: &Layout, slot: u32, index: u32) -> Option<(Value, Option<Object>)> {
    if slot < Layout::slots(layout) && index < Layout::size(layout, slot) {
        Some((layout.value(slot, index), layout.choice(slot, index).object))
    } else {
        None
    }
}

// The object at a slot's first index, if there is one.
fn first_object<S: Slots>(slots: &S, slot: u32) -> Option<Object> {
    if slot < slots.slots() && 0 < slots.size(slot) {
        slots.object_at(slot, 0)
    } else {
        None
    }
}

// An object's number and first slot, if there is such an object.
fn object_at(layout: &Layout, object: Object) -> Option<(u32, u32)> {
    if (object.domain as usize) < layout.domains() && object.number < layout.count(object.domain) {
        Some((layout.heap_number(object), layout.first_slot(object)))
    } else {
        None
    }
}

/// A class domain, if it is there.
pub(crate) fn domain_at(layout: &Layout, domain: u32) -> Option<(&[u8], Class, u32, usize)> {
    if (domain as usize) < layout.domains() {
        Some((
            layout.name(domain),
            layout.class(domain),
            layout.count(domain),
            layout.width(domain),
        ))
    } else {
        None
    }
}

fn add_domain(
    alloc: Global,
    domains: &mut Listed<Listed<DomainEntry>>,
    items: &[DomainEntry],
) -> Result<(), NoMemory> {
    let domain = listed(alloc, items)?;
    domains.push(domain)
}

fn add_domains(alloc: Global, domains: &mut Listed<Listed<DomainEntry>>) -> Result<(), NoMemory> {
    add_domain(
        alloc,
        domains,
        [DomainEntry::Plain(Value::Null), DomainEntry::Objects(1)].as_slice(),
    )?;
    add_domain(
        alloc,
        domains,
        [
            DomainEntry::Integers(-1, 1),
            DomainEntry::Integers(5, 4),
            DomainEntry::Plain(Value::Int(7)),
        ]
        .as_slice(),
    )?;
    add_domain(
        alloc,
        domains,
        [
            DomainEntry::Objects(0),
            DomainEntry::Objects(2),
            DomainEntry::Objects(9),
        ]
        .as_slice(),
    )?;
    add_domain(alloc, domains, [DomainEntry::Integers(0, 2)].as_slice())
}

fn add_class(
    alloc: Global,
    classes: &mut Listed<ClassDomain>,
    name: &str,
    class: Class,
    count: u32,
    spots: &[(Spot, u32)],
) -> Result<(), NoMemory> {
    let domain = class_domain(alloc, name, class, count, spots)?;
    classes.push(domain)
}

fn add_classes(alloc: Global, classes: &mut Listed<ClassDomain>) -> Result<(), NoMemory> {
    add_class(
        alloc,
        classes,
        "List",
        Class::Object(0),
        1,
        [(Spot::Field(0), 0), (Spot::Field(1), 2)].as_slice(),
    )?;
    add_class(
        alloc,
        classes,
        "Node",
        Class::Object(1),
        2,
        [(Spot::Field(0), 1), (Spot::Field(1), 0)].as_slice(),
    )?;
    add_class(
        alloc,
        classes,
        "Node[]",
        Class::Array(0),
        1,
        [
            (Spot::Length, 3),
            (Spot::Element(0), 0),
            (Spot::Element(1), 0),
        ]
        .as_slice(),
    )
}

fn class_domains(alloc: Global) -> Result<Listed<ClassDomain>, NoMemory> {
    let mut classes = Listed::new(alloc);
    add_classes(alloc, &mut classes)?;
    Ok(classes)
}

fn layout_over(alloc: Global, domains: &[Listed<DomainEntry>]) -> Result<Layout, NoMemory> {
    let parameters = listed(alloc, [1, 8].as_slice())?;
    let classes = class_domains(alloc)?;
    Layout::new(alloc, 0, Mode::List, 100, parameters, classes, domains)
}

// A list of up to two nodes with a number each, and an array of up to two nodes.
fn lists(alloc: Global) -> Result<Layout, NoMemory> {
    let mut domains = Listed::new(alloc);
    add_domains(alloc, &mut domains)?;
    layout_over(alloc, domains.as_slice())
}

const ROOT: Object = Object {
    domain: 0,
    number: 0,
};

const FIRST: Object = Object {
    domain: 1,
    number: 0,
};

const SECOND: Object = Object {
    domain: 1,
    number: 1,
};

const NODES: Object = Object {
    domain: 2,
    number: 0,
};

// The first slot that isn't as it should be.
fn wrong_slot(layout: &Layout) -> Option<u32> {
    for (slot, place, owner, size) in [
        (0, SlotPlace::This, None, 1),
        (1, SlotPlace::Parameter(0), None, 4),
        (2, SlotPlace::Parameter(1), None, 0),
        (3, SlotPlace::At(0, Spot::Field(0)), Some(ROOT), 3),
        (4, SlotPlace::At(0, Spot::Field(1)), Some(ROOT), 2),
        (5, SlotPlace::At(1, Spot::Field(0)), Some(FIRST), 4),
        (6, SlotPlace::At(1, Spot::Field(1)), Some(FIRST), 3),
        (7, SlotPlace::At(2, Spot::Field(0)), Some(SECOND), 4),
        (8, SlotPlace::At(2, Spot::Field(1)), Some(SECOND), 3),
        (9, SlotPlace::At(3, Spot::Length), Some(NODES), 3),
        (10, SlotPlace::At(3, Spot::Element(0)), Some(NODES), 3),
        (11, SlotPlace::At(3, Spot::Element(1)), Some(NODES), 3),
    ] {
        if slot_at(layout, slot) != Some((place, owner, size)) {
            return Some(slot);
        }
    }
    None
}

fn numbers_fit(layout: &Layout) -> bool {
    Layout::slots(layout) == 12
        && slot_at(layout, 12).is_none()
        && layout.parameters() == 2
        && layout.root() == 0
        && layout.fuel() == 100
        && matches!(layout.mode(), Mode::List)
}

// The first slot and index whose value isn't as it should be.
fn wrong_value(layout: &Layout) -> Option<(u32, u32)> {
    for (slot, index, value, object) in [
        (0, 0, Value::Ref(0), Some(ROOT)),
        (1, 0, Value::Int(-1), None),
        (1, 2, Value::Int(1), None),
        (1, 3, Value::Int(7), None),
        (3, 0, Value::Null, None),
        (3, 1, Value::Ref(1), Some(FIRST)),
        (3, 2, Value::Ref(2), Some(SECOND)),
        (4, 0, Value::Ref(0), Some(ROOT)),
        (4, 1, Value::Ref(3), Some(NODES)),
        (9, 2, Value::Int(2), None),
    ] {
        if value_at(layout, slot, index) != Some((value, object)) {
            return Some((slot, index));
        }
    }
    None
}

fn first_objects_fit(layout: &Layout) -> bool {
    value_at(layout, 2, 0).is_none()
        && first_object(layout, 0) == Some(ROOT)
        && first_object(layout, 1).is_none()
        && first_object(layout, 2).is_none()
}

fn domains_fit(layout: &Layout) -> bool {
    layout.domains() == 3
        && domain_at(layout, 1) == Some((b"Node".as_slice(), Class::Object(1), 2, 2))
        && domain_at(layout, 2) == Some((b"Node[]".as_slice(), Class::Array(0), 1, 3))
        && domain_at(layout, 3).is_none()
}

fn objects_fit(layout: &Layout) -> bool {
    object_at(layout, ROOT) == Some((0, 3))
        && object_at(layout, SECOND) == Some((2, 7))
        && object_at(layout, NODES) == Some((3, 9))
}

#[test]
fn the_layout_of_lists(rt: HostRuntime) -> Result<(), NoMemory> {
    let layout = lists(rt.alloc())?;
    let slot = wrong_slot(&layout);
    let value = wrong_value(&layout);
    let numbers = numbers_fit(&layout);
    let first = first_objects_fit(&layout);
    let domains = domains_fit(&layout);
    let objects = objects_fit(&layout);
    assert_eq!(rt; slot, None);
    assert_eq!(rt; value, None);
    assert!(rt; numbers);
    assert!(rt; first);
    assert!(rt; domains);
    assert!(rt; objects);
    any_program_law();
    Ok(())
}
