// Problems of one class whose `repOk` writes its own field, or calls what does, or leaves it alone.
ghost use Rattle.kr_code_members.specs.Nodes.{AreShaped};
ghost use Rattle.kr_space_problem.specs.Posed.{IsPosed};

use kr_base::NoMemory;
use kr_fin::Listed;
use kr_mean::Mode;
use kr_pure::{PureRefusal, pure};
use kr_sources::{Unread, program_of};
use kr_space_layout::{ClassDomain, Layout};
use kr_space_problem::Problem;
use kr_value::Class;
use std::alloc::Global;

/// One object of the first class, whose fields have no values.
fn layout(alloc: Global) -> Result<Layout, NoMemory> {
    let mut domains = Listed::new(alloc);
    domains.push(ClassDomain {
        name: Listed::new(alloc),
        class: Class::Object(0),
        count: 1,
        spots: Listed::new(alloc),
    })?;
    Layout::new(alloc, 0, Mode::List, 100, Listed::new(alloc), domains, &[])
}

/// Whether the first place that isn't pure is in that column, or no place is where there is none.
fn is_impure_at(alloc: Global, problem: &Problem, column: Option<u32>) -> bool
    requires posed { IsPosed problem.now }
    requires shaped { AreShaped problem.now.program }
{
    match pure(alloc, problem) {
        Ok(_) => column.is_none(),
        Err(PureRefusal::Impure { place }) => column == Some(place.col),
        Err(PureRefusal::NoMemory(_)) => false,
    }
}

/// Likewise of the problem of one object of a source's first class.
fn is_source_impure_at(alloc: Global, source: &str, column: Option<u32>) -> Result<bool, Unread> {
    let layout = layout(alloc)?;
    let program = program_of(alloc, source)?;
    let problem = Problem {
        program,
        arrays: Vec::new(alloc),
        layout,
    };
    Ok(is_impure_at(alloc, &problem, column))
}

#[test]
fn writes(rt: HostRuntime) -> Result<(), Unread> {
    for (source, column) in [
        (
            "class Cell { int v; boolean repOk() { v = 1; return true; } }",
            Some(39),
        ),
        (
            "class Cell { int v; boolean repOk() { return set(); } boolean set() { v++; return v == 1; } void free() { v = 2; } }",
            Some(71),
        ),
        (
            "class Cell { int v; boolean repOk() { return v == 1; } void set() { v = 1; } }",
            None,
        ),
    ] {
        let fits = is_source_impure_at(rt.alloc(), source, column)?;
        assert!(rt; fits, "{source}");
    }
    Ok(())
}
