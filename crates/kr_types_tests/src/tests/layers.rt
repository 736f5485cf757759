// Two small files, and each layer's answers.

use crate::tests::{
    classes, constants, expressions, members, names, roster, statements, type_numbers,
};
use kr_base::NoMemory;
use kr_sources::{Check, Sources, Unread, holds_of};
use std::alloc::Global;

/// A layer to test.
#[derive(Clone, Copy)]
enum Layer {
    Names,
    Members,
    Roster,
    Constants,
    NodeTypes,
    Sets,
    Calls,
    Hierarchy,
    Table,
}

impl Check for Layer {
    fn holds(&self, alloc: Global, sources: &Sources<'_>) -> Result<bool, NoMemory> {
        match self {
            Layer::Names => names::fit(alloc, sources),
            Layer::Members => members::fit(alloc, sources.members),
            Layer::Roster => roster::fit(alloc, sources.members),
            Layer::Constants => constants::fit(alloc, sources),
            Layer::NodeTypes => type_numbers::fit(alloc, sources),
            Layer::Sets => statements::set_fits(alloc, sources),
            Layer::Calls => expressions::calls_fit(alloc, sources),
            Layer::Hierarchy => Ok(classes::hierarchy_fits(alloc, sources.trees)),
            Layer::Table => Ok(classes::table_fits(alloc, sources.trees)),
        }
    }
}

#[test]
fn two_files(rt: HostRuntime) -> Result<(), Unread> {
    for (layer, first, second) in [
        (
            Layer::Names,
            "class Above extends Object { }",
            "class Below extends Above { }",
        ),
        (
            Layer::Members,
            "class Higher extends Object { int first; }",
            "class Deeper extends Higher { int second; }",
        ),
        (
            Layer::Roster,
            "class Higher extends Object { int first; }",
            "class Deeper extends Higher { int second; }",
        ),
        (
            Layer::Constants,
            "class Half { static final int VALUE = 7 / 2; }",
            "class None { static final int VALUE = 7 / 0; }",
        ),
        (Layer::NodeTypes, "class A { int[] v; }", ""),
        (Layer::Sets, "class A { HashSet<int[]> v; }", ""),
        (Layer::Calls, "", ""),
        (
            Layer::Hierarchy,
            "class Above extends Object { }",
            "class Below extends Above { }",
        ),
        (
            Layer::Table,
            "class Above { }",
            "class Below extends Above { }",
        ),
    ] {
        let fits = holds_of(rt.alloc(), &layer, first, second)?;
        assert!(rt; fits, "{first} {second}");
    }
    Ok(())
}
