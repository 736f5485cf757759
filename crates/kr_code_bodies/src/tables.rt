// All tables of a program's code.
ghost use Rattle.std.specs.Prelude.{◌≡◌, ◌<◌, Some, IfOk, All, codes, map, slice_get};
ghost use Rattle.kr_code_bodies.specs.Vocabulary.{AreApart, AreHeads, AreMembers, count, IsRoster, row_items, type_at};
ghost use Rattle.kr_code_bodies.specs.Tabled.{AreTabled};

use crate::dispatch::dispatch;
use crate::field_lists::ObjectFields;
use crate::instances::{array_types, instances};
use crate::positions::positions;
use crate::spots::spots;
use crate::trap_classes::trap_classes;
use kr_ast::Tree;
use kr_base::NoMemory;
use kr_classes_members::{Members, Roster};
use kr_classes_names::{Heads, Types};
use kr_classes_table::{ClassId, MethodId, TypeId};
use std::alloc::Global;

/// Rows by number: where the objects of each class have the field of a name, where they have a field, which method they run in place
/// of one; which classes are instances of a type; of each class of arrays the type that they are instances of; and the
/// classes of the kinds of traps.
#[derive(Drop)]
pub struct Tables {
    pub positions: Vec<Vec<Option<u32>>>,
    pub spots: Vec<Vec<Option<u32>>>,
    pub dispatch: Vec<Vec<Option<MethodId>>>,
    pub instances: Vec<Vec<bool>>,
    pub array_types: Vec<Option<TypeId>>,
    pub trap_classes: Vec<Option<ClassId>>,
}

impl Tables {
    /// The tables of the classes, with these names of fields and these array types by number.
    pub fn read(
        alloc: Global,
        trees: &[Tree],
        heads: &Heads,
        members: &Members,
        types: &Types,
        roster: &Roster,
        arrays: &[TypeId],
        names: &[Vec<u8>],
    ) -> Result<Tables, NoMemory>
        requires heads { AreHeads trees.now heads.now }
        requires members { AreMembers trees.now members.now }
        requires roster { IsRoster trees.now roster.now }
        requires arrays { All (λ t. t < count types.now) arrays.now }
        requires apart { AreApart (map row_items names.now) }
        requires first { slice_get (map row_items names.now) 0 ≡ Some (codes "length") }
        ensures { IfOk result (AreTabled trees.now types.now (map (type_at types.now) arrays.now) (map row_items names.now)) }
    {
        let fields = ObjectFields::read(alloc, members)?;
        Ok(Tables {
            positions: positions(alloc, trees, &fields, names)?,
            spots: spots(alloc, trees, members, &fields, roster)?,
            dispatch: dispatch(alloc, trees, members, roster)?,
            instances: instances(alloc, members, types)?,
            array_types: array_types(alloc, types, arrays)?,
            trap_classes: trap_classes(alloc, heads)?,
        })
    }
}
