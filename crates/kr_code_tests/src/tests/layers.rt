// Two small files, and what is made of their members.

use crate::tests::{runnable, tables};
use kr_base::NoMemory;
use kr_sources::{Check, Sources, Unread, holds_of};
use std::alloc::Global;

/// The layers under test.
#[derive(Clone, Copy)]
enum Layer {
    Tables,
    Runnable,
    Created,
}

impl Check for Layer {
    fn holds(&self, alloc: Global, sources: &Sources<'_>) -> Result<bool, NoMemory> {
        match self {
            Layer::Tables => tables::fit(alloc, sources),
            Layer::Runnable => runnable::methods_fit(alloc, sources),
            Layer::Created => runnable::classes_fit(alloc, sources.members),
        }
    }
}

#[test]
fn two_files(rt: HostRuntime) -> Result<(), Unread> {
    for (layer, first, second) in [
        (
            Layer::Tables,
            "class Above extends Object { int first; int run() { } }",
            "class Below extends Above { int second; int run() { } }",
        ),
        (Layer::Runnable, "class A { int m() { } }", ""),
        (Layer::Created, "class A { int m() { } }", ""),
    ] {
        let fits = holds_of(rt.alloc(), &layer, first, second)?;
        assert!(rt; fits, "{first} {second}");
    }
    Ok(())
}
