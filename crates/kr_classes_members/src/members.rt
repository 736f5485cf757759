// The classes with their members.
ghost use Rattle.std.specs.Prelude.{◌≡◌, ◌<◌, IfOk};
ghost use Rattle.kr_classes_table.specs.Table.{class_of};
ghost use Rattle.kr_classes_names.specs.Shown.{AreHeads, IsHeading, heading_shown};
ghost use Rattle.kr_classes_members.specs.Shown.{headings_in};
ghost use Rattle.kr_classes_members.specs.Kept.{AreMembers, IsClass, class_shown};

use crate::fields::{Field, field_index, own_fields};
use crate::methods::{Constructor, Method, method_index, own_constructors, own_methods};
use kr_ast::{Tree, tree_of};
use kr_base::NoMemory;
use kr_classes_names::{Heading, Heads, Index, items};
use kr_classes_table::ClassId;
use std::alloc::Global;

/// A class with what it declares itself, each in source order.
#[derive(Drop)]
pub(crate) struct ClassMembers {
    pub(crate) heading: Heading,
    pub(crate) superclass: Option<ClassId>,
    pub(crate) fields: Vec<Field>,
    pub(crate) methods: Vec<Method>,
    pub(crate) constructors: Vec<Constructor>,
    pub(crate) field_index: Index,
    pub(crate) method_index: Index,
}

/// The classes by their numbers, with their members.
#[derive(Drop)]
pub struct Members {
    pub(crate) classes: Vec<ClassMembers>,
}

/// The class of a head.
fn class_members(
    alloc: Global,
    trees: &[Tree],
    heads: &Heads,
    class: ClassId,
    heading: Heading,
) -> Result<ClassMembers, NoMemory>
    requires heads { AreHeads trees.now heads.now }
    requires heading { IsHeading trees.now heading }
    ensures stands { IfOk result (λ members. IsClass trees.now members) }
    ensures shown { IfOk result (λ members. class_shown trees.now members ≡ class_of (headings_in trees.now) class (heading_shown trees.now heading)) }
{
    let file = heading.file;
    let superclass = heads.class_named(trees, file, heading.extended);
    let members = items(alloc, tree_of(trees, file), heading.members)?;
    let fields = own_fields(alloc, trees, file, class, &members)?;
    let methods = own_methods(alloc, trees, file, class, &members)?;
    let constructors = own_constructors(alloc, trees, file, class, &members)?;
    let field_index = field_index(alloc, trees, &fields)?;
    let method_index = method_index(alloc, trees, &methods)?;
    Ok(ClassMembers {
        heading,
        superclass,
        fields,
        methods,
        constructors,
        field_index,
        method_index,
    })
}

impl Members {
    /// The classes of these files with their members.
    pub fn read(alloc: Global, trees: &[Tree], heads: &Heads) -> Result<Members, NoMemory>
        requires { AreHeads trees.now heads.now }
        ensures { IfOk result (λ members. AreMembers trees.now members) }
    {
        let mut classes = Vec::new(alloc);
        for (class, heading) in heads.headings().iter().enumerate() {
            let members = class_members(alloc, trees, heads, class as u32, *heading)?;
            classes.push(members)?;
        }
        Ok(Members { classes })
    }
}
