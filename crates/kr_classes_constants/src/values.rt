// The values of all constants, one after another.
ghost use Rattle.std.specs.Prelude.{◌<◌, List, IfOk};
ghost use Rattle.kr_classes_table.specs.Constants.{Known, values_of, with_constant};
ghost use Rattle.kr_classes_names.specs.Shown.{AreHeads};
ghost use Rattle.kr_classes_members.specs.Kept.{AreMembers};
ghost use Rattle.kr_classes_members.specs.Shown.{IsField, field_shown, table_in};
ghost use Rattle.kr_classes_constants.specs.Kept.{AreValues};

use crate::expressions::note_of;
use crate::known::Values;
use crate::names::Site;
use crate::order::ordered_constants;
use kr_ast::Tree;
use kr_base::NoMemory;
use kr_classes_members::{Field, Members};
use kr_classes_names::Heads;
use std::alloc::Global;

/// Adds the value of a constant to those that are declared before it.
fn add_constant(
    alloc: Global,
    trees: &[Tree],
    heads: &Heads,
    members: &Members,
    values: &mut Values,
    constant: Field,
) -> Result<(), NoMemory>
    requires heads { AreHeads trees.now heads.now }
    requires members { AreMembers trees.now members.now }
    requires constant { IsField trees.now constant }
    ensures { IfOk result (λ none. (known : List Known) → AreValues known values.old → AreValues (with_constant (table_in trees.now) known (field_shown trees.now constant)) values.new) }
{
    let site = Site {
        file: constant.file,
        class: constant.class,
    };
    let found = note_of(alloc, trees, heads, members, values, site, constant.initial)?;
    values.note(constant.place, found.note)
}

impl Values {
    /// The values of the constants of these files: each evaluated after those that are declared before it.
    pub fn read(
        alloc: Global,
        trees: &[Tree],
        heads: &Heads,
        members: &Members,
    ) -> Result<Values, NoMemory>
        requires heads { AreHeads trees.now heads.now }
        requires members { AreMembers trees.now members.now }
        ensures { IfOk result (λ values. AreValues (values_of (table_in trees.now)) values) }
    {
        let constants = ordered_constants(alloc, members)?;
        let mut values = Values::new(alloc);
        for constant in constants.iter() {
            add_constant(alloc, trees, heads, members, &mut values, *constant)?;
        }
        Ok(values)
    }
}
