// The first method of a class that doesn't share what it has to with the one that it overrides.
ghost use Rattle.std.specs.Prelude.{◌≡◌, ◌<◌, Some, None, IfOk, flat_map};
ghost use Rattle.kr_classes_table.specs.Table.{own_methods};
ghost use Rattle.kr_classes_table.specs.Rules.{C5, C7, least, overrides};
ghost use Rattle.kr_classes_members.specs.Shown.{table_in, IsMethod, method_shown};
ghost use Rattle.kr_classes_members.specs.Kept.{AreMembers, class_count};
ghost use Rattle.kr_classes_names.specs.Numbers.{AreNodeTypes};
ghost use Rattle.kr_classes.specs.Faults.{class_in, fault_at};
ghost use Rattle.kr_classes.specs.Overriding.{is_shared, rule_for};

use crate::method_rules::repeated_method;
use crate::overriding::{Shared, same_kind, same_parameters};
use crate::places::{earlier, if_broken};
use kr_ast::{Tree, tree_of};
use kr_base::{NoMemory, Place};
use kr_classes_members::{Members, Method};
use kr_classes_names::{NodeTypes, Types};
use kr_classes_table::ClassId;
use std::alloc::Global;

/// Whether a method shares this with the one that it overrides.
fn shares(
    alloc: Global,
    trees: &[Tree],
    members: &Members,
    types: &Types,
    numbers: &NodeTypes,
    shared: Shared,
    method: Method,
    above: Method,
) -> Result<bool, NoMemory>
    requires method { IsMethod trees.now method }
    requires above { IsMethod trees.now above }
    requires members { AreMembers trees.now members.now }
    requires numbers { AreNodeTypes trees.now types.now numbers.now }
    ensures { IfOk result (λ same. same ≡ is_shared shared (table_in trees.now) (method_shown trees.now method) (method_shown trees.now above)) }
{
    match shared {
        Shared::Parameters => same_parameters(alloc, trees, types, numbers, method, above),
        Shared::ResultType => Ok(same_kind(trees, members, types, numbers, method, above)),
    }
}

/// The place of a method that doesn't share this with the one that it overrides.
fn override_place(
    alloc: Global,
    trees: &[Tree],
    members: &Members,
    types: &Types,
    numbers: &NodeTypes,
    shared: Shared,
    class: ClassId,
    method: Method,
) -> Result<Option<Place>, NoMemory>
    requires method { IsMethod trees.now method }
    requires members { AreMembers trees.now members.now }
    requires numbers { AreNodeTypes trees.now types.now numbers.now }
    ensures { IfOk result (λ place. fault_at (rule_for shared) place ≡ least (overrides (table_in trees.now) class (rule_for shared) (is_shared shared (table_in trees.now)) (method_shown trees.now method))) }
{
    let name = tree_of(trees, method.file).name(method.name);
    match members.inherited_method(class, name) {
        None => Ok(None),
        Some(above) => {
            let same = shares(alloc, trees, members, types, numbers, shared, method, above)?;
            Ok(if_broken(!same, method.place))
        }
    }
}

/// The first method of a class that doesn't share this with the one that it overrides.
fn first_override(
    alloc: Global,
    trees: &[Tree],
    members: &Members,
    types: &Types,
    numbers: &NodeTypes,
    shared: Shared,
    class: ClassId,
) -> Result<Option<Place>, NoMemory>
    requires members { AreMembers trees.now members.now }
    requires numbers { AreNodeTypes trees.now types.now numbers.now }
    ensures { IfOk result (λ place. fault_at (rule_for shared) place ≡ least (flat_map (overrides (table_in trees.now) class (rule_for shared) (is_shared shared (table_in trees.now))) (own_methods (table_in trees.now) class))) }
{
    let mut first = None;
    for method in members.methods(class) {
        let place = override_place(
            alloc, trees, members, types, numbers, shared, class, *method,
        )?;
        first = earlier(first, place);
    }
    Ok(first)
}

/// Where rule C5 is broken first in a class.
pub(crate) fn other_parameters(
    alloc: Global,
    trees: &[Tree],
    members: &Members,
    types: &Types,
    numbers: &NodeTypes,
    class: ClassId,
) -> Result<Option<Place>, NoMemory>
    requires members { AreMembers trees.now members.now }
    requires numbers { AreNodeTypes trees.now types.now numbers.now }
    requires class { class < class_count members.now }
    ensures { IfOk result (λ place. fault_at 5 place ≡ least (C5 (table_in trees.now) class (class_in (table_in trees.now) class))) }
{
    let repeated = repeated_method(trees, members, class);
    let shared = Shared::Parameters;
    let overriding = first_override(alloc, trees, members, types, numbers, shared, class)?;
    Ok(earlier(repeated, overriding))
}

/// Where rule C7 is broken first in a class.
pub(crate) fn other_result(
    alloc: Global,
    trees: &[Tree],
    members: &Members,
    types: &Types,
    numbers: &NodeTypes,
    class: ClassId,
) -> Result<Option<Place>, NoMemory>
    requires members { AreMembers trees.now members.now }
    requires numbers { AreNodeTypes trees.now types.now numbers.now }
    requires class { class < class_count members.now }
    ensures { IfOk result (λ place. fault_at 7 place ≡ least (C7 (table_in trees.now) class (class_in (table_in trees.now) class))) }
{
    let shared = Shared::ResultType;
    let overriding = first_override(alloc, trees, members, types, numbers, shared, class)?;
    Ok(overriding)
}
