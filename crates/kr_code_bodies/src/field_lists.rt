// The fields of the objects of each class.
ghost use Rattle.std.specs.Prelude.{◌≡◌, ◌<◌, ◌^◌, List, IfOk, length, map, All};
ghost use Rattle.kr_code_bodies.specs.Vocabulary.{AreMembers, Arena, field_shown, IsField, position_from};
ghost use Rattle.kr_code_bodies.specs.Tabled.{AreObjectFields, IsPosition, fields_at};

use kr_ast::{Tree, tree_of};
use kr_base::NoMemory;
use kr_classes_members::{Field, Members};
use kr_classes_table::ClassId;
use std::alloc::Global;

/// The fields of the objects of each class, inherited ones first.
#[derive(Drop)]
pub(crate) struct ObjectFields {
    pub(crate) classes: Vec<Vec<Field>>,
}

/// The position of the first field of a name.
fn position_among(trees: &[Tree], fields: &[Field], name: &[u8]) -> Option<u32>
    requires stand { All (IsField trees.now) fields.now }
    requires few { length fields.now < 2 ^ 32 }
    ensures { result ≡ position_from 0 (map (field_shown trees.now) fields.now) name.now }
{
    for (number, field) in fields.iter().enumerate() {
        if tree_of(trees, field.file).name(field.name) == name {
            return Some(number as u32);
        }
    }
    None
}

impl ObjectFields {
    /// Err: out of memory, or 2^32 of something.
    pub(crate) fn read(alloc: Global, members: &Members) -> Result<ObjectFields, NoMemory>
        ensures { (files : List Arena) → AreMembers files members.now → IfOk result (AreObjectFields files) }
    {
        let count = members.len();
        if count > 0xffff_ffff {
            return Err(members.at_limit());
        }
        let mut classes = Vec::new(alloc);
        for class in 0..count as u32 {
            let fields = members.fields_of(alloc, class)?;
            if fields.len() > 0xffff_ffff {
                return Err(NoMemory::at_limit(fields.as_slice()));
            }
            classes.push(fields)?;
        }
        Ok(ObjectFields { classes })
    }

    /// The fields of a class's objects.
    fn fields(&self, class: ClassId) -> &[Field]
        ensures { result.now ≡ fields_at self.now class }
    {
        match self.classes.get(class as usize) {
            None => &[],
            Some(fields) => fields.as_slice(),
        }
    }

    /// Where the objects of a class have the field of a name.
    pub(crate) fn position(&self, trees: &[Tree], class: ClassId, name: &[u8]) -> Option<u32>
        requires { AreObjectFields trees.now self.now }
        ensures { IsPosition trees.now name.now class result }
    {
        position_among(trees, self.fields(class), name)
    }
}
