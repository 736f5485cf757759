// The classes of two sources, and checks of them.
ghost use Rattle.std.specs.Prelude.{◌<◌, length};
ghost use Rattle.kr_classes_names.specs.Shown.{AreHeads};
ghost use Rattle.kr_sources.specs.Sources.{AreSources};

use crate::{Unread, two_trees};
use kr_ast::Tree;
use kr_base::NoMemory;
use kr_classes_members::Members;
use kr_classes_names::Heads;
use std::alloc::Global;

/// Trees, the heads of their classes, and the members.
#[derive(Clone, Copy)]
pub struct Sources<'a> {
    pub trees: &'a [Tree],
    pub heads: &'a Heads,
    pub members: &'a Members,
}

/// What a test says of sources.
pub trait Check {
    fn holds(&self, alloc: Global, sources: &Sources<'_>) -> Result<bool, NoMemory>
        requires { AreSources sources.now };
}

fn holds_beside<C: Check>(
    alloc: Global,
    check: &C,
    trees: &[Tree],
    heads: &Heads,
) -> Result<bool, NoMemory>
    requires few { length trees.now < 65 }
    requires heads { AreHeads trees.now heads.now }
{
    let members = Members::read(alloc, trees, heads)?;
    let sources = Sources {
        trees,
        heads,
        members: &members,
    };
    check.holds(alloc, &sources)
}

fn holds_among<C: Check>(alloc: Global, check: &C, trees: &[Tree]) -> Result<bool, NoMemory>
    requires { length trees.now < 65 }
{
    let heads = Heads::read(alloc, trees)?;
    holds_beside(alloc, check, trees, &heads)
}

/// Whether a check holds of two sources.
pub fn holds_of<C: Check>(
    alloc: Global,
    check: &C,
    first: &str,
    second: &str,
) -> Result<bool, Unread> {
    let trees = two_trees(alloc, first, second)?;
    Ok(holds_among(alloc, check, &trees)?)
}
