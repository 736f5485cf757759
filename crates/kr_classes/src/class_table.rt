// The class table of files that break no class rule.
ghost use Rattle.std.specs.Prelude.{◌<◌, Some, None, IfOk, IfErr, length};
ghost use Rattle.kr_classes_names.specs.Shown.{AreHeads};
ghost use Rattle.kr_classes.specs.ClassTables.{IsClassTable, IsTableOf};
ghost use Rattle.kr_classes.specs.Refusals.{IsRefusal};

use crate::hierarchy::hierarchy_of;
use crate::member_rules::first_broken_member;
use crate::refusal::ClassRefusal;
use kr_ast::Tree;
use kr_base::NoMemory;
use kr_classes_constants::Values;
use kr_classes_members::Members;
use kr_classes_names::{Heads, NodeTypes, Types};
use std::alloc::Global;

/// The classes of a program: the meaning of their names, their members, the types that nodes name, and the values of
/// constants.
#[derive(Drop)]
pub struct ClassTable {
    pub heads: Heads,
    pub members: Members,
    pub types: Types,
    pub numbers: NodeTypes,
    pub values: Values,
}

/// The class table of the files of these heads.
fn read_table(alloc: Global, trees: &[Tree], heads: Heads) -> Result<ClassTable, NoMemory>
    requires few { length trees.now < 65 }
    requires heads { AreHeads trees.now heads }
    ensures { IfOk result (λ table. IsTableOf trees.now table) }
{
    let members = Members::read(alloc, trees, &heads)?;
    let mut types = Types::new(alloc)?;
    let numbers = NodeTypes::read(alloc, trees, &heads, &mut types)?;
    let values = Values::read(alloc, trees, &heads, &members)?;
    Ok(ClassTable {
        heads,
        members,
        types,
        numbers,
        values,
    })
}

/// The class table of these files; or the first place of the least broken class rule.
pub fn classes(alloc: Global, trees: &[Tree]) -> Result<ClassTable, ClassRefusal>
    requires { length trees.now < 65 }
    ensures read { IfOk result (λ table. IsClassTable trees.now table) }
    ensures refused { IfErr result (λ refusal. IsRefusal trees.now refusal) }
{
    let hierarchy = hierarchy_of(alloc, trees)?;
    let table = read_table(alloc, trees, hierarchy.heads)?;
    let broken = match first_broken_member(
        alloc,
        trees,
        &table.heads,
        &table.members,
        &table.types,
        &table.numbers,
    ) {
        Err(why) => return Err(ClassRefusal::NoMemory(why)),
        Ok(broken) => broken,
    };
    match broken {
        Some(found) => Err(ClassRefusal::Broken {
            place: found.place,
            rule: found.rule,
        }),
        None => Ok(table),
    }
}
