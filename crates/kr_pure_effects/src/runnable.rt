// The methods that a call of a method may run.
ghost use Rattle.std.specs.Prelude.{◌≡◌, ◌<◌, IfOk, IfSome, All, length, map, option_map};
ghost use Rattle.kr_pure_effects.specs.Vocabulary.{all_methods, AreMembers, IsMethod, IsRoster, method_numbered, method_shown, Object, overriders, overriding, Program, table_in};

use kr_ast::{Tree, tree_of};
use kr_base::{NoMemory, add_found};
use kr_classes_members::{Members, Method, Roster};
use kr_classes_table::MethodId;
use std::alloc::Global;

/// The method that a call of a method runs on an object of a class; none where the class has it not.
fn overrider(
    trees: &[Tree],
    members: &Members,
    roster: &Roster,
    method: Method,
    class: u32,
) -> Option<MethodId>
    requires members { AreMembers trees.now members.now }
    requires roster { IsRoster trees.now roster.now }
    requires method { IsMethod trees.now method }
    ensures within { IfSome result (λ k. k < length (all_methods (table_in trees.now))) }
    ensures shown { (program : Program) → program.table ≡ table_in trees.now → option_map (method_numbered (table_in trees.now)) result ≡ overriding program (method_shown trees.now method) (Object class) }
{
    if members.is_below(class, method.class) {
        roster.method_named(
            members,
            class,
            tree_of(trees, method.file).name(method.name),
        )
    } else {
        None
    }
}

/// Those of all classes, in the order of the class table; a method that several classes have is there for each.
pub fn overriders(
    alloc: Global,
    trees: &[Tree],
    members: &Members,
    roster: &Roster,
    method: Method,
) -> Result<Vec<MethodId>, NoMemory>
    requires members { AreMembers trees.now members.now }
    requires roster { IsRoster trees.now roster.now }
    requires method { IsMethod trees.now method }
    ensures within { IfOk result (λ found. All (λ k. k < length (all_methods (table_in trees.now))) found.items) }
    ensures shown { IfOk result (λ found. (program : Program) → program.table ≡ table_in trees.now → map (method_numbered (table_in trees.now)) found.items ≡ overriders program (method_shown trees.now method)) }
{
    let classes = members.len();
    if classes > 0xffff_ffff {
        return Err(members.at_limit());
    }
    let mut found = Vec::new(alloc);
    for class in 0..classes as u32 {
        add_found(&mut found, overrider(trees, members, roster, method, class))?;
    }
    Ok(found)
}
