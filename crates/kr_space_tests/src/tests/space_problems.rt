// The problem of `class A { int v; }` and `class B extends A { boolean repOk() { return true; } }`, worked by hand.
ghost use Rattle.kr_space_meaning.specs.Limits.{IsWithinLimits};

use crate::tests::files::document_of;
use crate::tests::problem::domain_at;
use kr_fin::FinDoc;
use kr_mean::Mode;
use kr_sources::{Unread, program_of};
use kr_space::problem;
use kr_space_layout::Layout;
use kr_space_problem::Problem;
use kr_value::{Class, SlotPlace, Spot};
use std::alloc::Global;

const SOURCE: &str = "class A { int v; } class B extends A { boolean repOk() { return true; } }";

const FIN: &str =
    "root='B'\nfuel=100\n[objects]\nA=1\nB=2\n[arrays]\n'A[]'={count=1,lengths=[{from=0,to=2}]}\n[fields]\n'A.v'=[{from=0,to=3}]\n'A[].*'=['null','A','B']";

// A slot's place, and how many values its domain has, if there is one.
fn slot_at(layout: &Layout, slot: u32) -> Option<(SlotPlace, u32)> {
    if slot < Layout::slots(layout) {
        Some((layout.place(slot), Layout::size(layout, slot)))
    } else {
        None
    }
}

fn numbers_fit(layout: &Layout) -> bool {
    layout.root() == 1 && layout.fuel() == 100 && layout.parameters() == 0
}

fn domains_fit(layout: &Layout) -> bool {
    domain_at(layout, 0) == Some((b"A".as_slice(), Class::Object(0), 1, 1))
        && domain_at(layout, 1) == Some((b"B".as_slice(), Class::Object(1), 2, 1))
        && domain_at(layout, 2) == Some((b"A[]".as_slice(), Class::Array(0), 1, 3))
}

fn slots_fit(layout: &Layout) -> bool {
    slot_at(layout, 0) == Some((SlotPlace::This, 2))
        && slot_at(layout, 1) == Some((SlotPlace::At(0, Spot::Field(0)), 4))
        && slot_at(layout, 3) == Some((SlotPlace::At(2, Spot::Field(0)), 4))
        && slot_at(layout, 4) == Some((SlotPlace::At(3, Spot::Length), 3))
        && slot_at(layout, 6) == Some((SlotPlace::At(3, Spot::Element(1)), 4))
        && slot_at(layout, 7).is_none()
}

fn problem_fits(problem: &Problem) -> bool {
    let layout = &problem.layout;
    problem.arrays.len() == 1 && numbers_fit(layout) && domains_fit(layout) && slots_fit(layout)
}

// Whether the problem of the classes with a document is that.
fn is_posed(alloc: Global, document: &FinDoc) -> Result<bool, Unread>
    requires { IsWithinLimits document.now }
{
    let program = program_of(alloc, SOURCE)?;
    match problem(alloc, program, document, Mode::List) {
        Err(_) => Ok(false),
        Ok(found) => Ok(problem_fits(&found)),
    }
}

#[test]
fn two_classes_and_an_array(rt: HostRuntime) -> Result<(), Unread> {
    match document_of(rt.alloc(), FIN) {
        Err(_) => assert!(rt; false),
        Ok(document) => {
            let is_posed = is_posed(rt.alloc(), &document)?;
            assert!(rt; is_posed);
        }
    }
    Ok(())
}
