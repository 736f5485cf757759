// Which method objects run in place of one.
ghost use Rattle.std.specs.Prelude.{IfOk, None};
ghost use Rattle.kr_code_bodies.specs.Vocabulary.{AreMembers, IsMethod, IsRoster, method_numbered, method_shown, table_in};
ghost use Rattle.kr_code_bodies.specs.Rows.{AreRows, IsRow};
ghost use Rattle.kr_code_bodies.specs.Tabled.{IsOverrider};

use kr_ast::{Tree, tree_of};
use kr_base::NoMemory;
use kr_classes_members::{Members, Method, Roster};
use kr_classes_table::{ClassId, MethodId};
use std::alloc::Global;

/// The number of the method that a call of a method runs on objects of a class: of the class that declares it, or of one below.
fn overrider(
    trees: &[Tree],
    members: &Members,
    roster: &Roster,
    method: Method,
    class: ClassId,
) -> Option<MethodId>
    requires members { AreMembers trees.now members.now }
    requires roster { IsRoster trees.now roster.now }
    requires method { IsMethod trees.now method }
    ensures { IsOverrider trees.now (method_shown trees.now method) class result }
{
    if members.is_below(class, method.class) {
        let name = tree_of(trees, method.file).name(method.name);
        roster.method_named(members, class, name)
    } else {
        None
    }
}

/// The methods that objects of each class run.
fn dispatch_row(
    alloc: Global,
    trees: &[Tree],
    members: &Members,
    roster: &Roster,
    method: Method,
) -> Result<Vec<Option<MethodId>>, NoMemory>
    requires members { AreMembers trees.now members.now }
    requires roster { IsRoster trees.now roster.now }
    requires method { IsMethod trees.now method }
    ensures { IfOk result (λ row. IsRow None (IsOverrider trees.now (method_shown trees.now method)) row.items) }
{
    let count = members.len();
    if count > 0xffff_ffff {
        return Err(members.at_limit());
    }
    let mut row = Vec::new(alloc);
    for class in 0..count as u32 {
        row.push(overrider(trees, members, roster, method, class))?;
    }
    Ok(row)
}

/// A row for each method.
pub(crate) fn dispatch(
    alloc: Global,
    trees: &[Tree],
    members: &Members,
    roster: &Roster,
) -> Result<Vec<Vec<Option<MethodId>>>, NoMemory>
    requires members { AreMembers trees.now members.now }
    requires roster { IsRoster trees.now roster.now }
    ensures { IfOk result (λ rows. AreRows None (λ k. IsOverrider trees.now (method_numbered (table_in trees.now) k)) rows.items) }
{
    let mut rows = Vec::new(alloc);
    for method in roster.methods.iter() {
        rows.push(dispatch_row(alloc, trees, members, roster, *method)?)?;
    }
    Ok(rows)
}
