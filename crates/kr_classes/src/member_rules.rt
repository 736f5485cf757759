// The class rules on members, one after another, each class by class.
ghost use Rattle.std.specs.Prelude.{◌≡◌, ◌<◌, Some, None, IfOk};
ghost use Rattle.kr_classes_table.specs.Rules.{least};
ghost use Rattle.kr_classes_names.specs.Shown.{AreHeads};
ghost use Rattle.kr_classes_members.specs.Kept.{AreMembers, class_count};
ghost use Rattle.kr_classes_names.specs.Numbers.{AreNodeTypes};
ghost use Rattle.kr_classes.specs.Faults.{class_in, fault_at, first_of_rule};
ghost use Rattle.kr_classes_members.specs.Shown.{table_in};
ghost use Rattle.kr_classes.specs.Refusals.{rule_number};
ghost use Rattle.kr_classes.specs.MemberRules.{IsMembersFault, member_number, rule_of};

use crate::field_rules::{repeated_member, too_many};
use crate::method_rules::object_method;
use crate::overridden::{other_parameters, other_result};
use crate::places::earlier;
use crate::refusal::{ClassRule, Found};
use kr_ast::Tree;
use kr_base::{NoMemory, Place};
use kr_classes_members::Members;
use kr_classes_names::{Heads, NodeTypes, Types};
use kr_classes_table::ClassId;
use std::alloc::Global;

/// A class rule on members.
#[derive(Clone, Copy)]
pub(crate) enum MemberRule {
    RepeatedMember,
    OtherParameters,
    ObjectMethod,
    OtherResult,
    TooMany,
}

impl MemberRule {
    /// The class rule that it is.
    fn class_rule(self) -> ClassRule
        ensures { rule_number result ≡ member_number self }
    {
        match self {
            MemberRule::RepeatedMember => ClassRule::RepeatedMember,
            MemberRule::OtherParameters => ClassRule::OtherParameters,
            MemberRule::ObjectMethod => ClassRule::ObjectMethod,
            MemberRule::OtherResult => ClassRule::OtherResult,
            MemberRule::TooMany => ClassRule::TooMany,
        }
    }
}

/// Where a rule is broken first in a class.
fn place_in_class(
    alloc: Global,
    trees: &[Tree],
    members: &Members,
    types: &Types,
    numbers: &NodeTypes,
    rule: MemberRule,
    class: ClassId,
) -> Result<Option<Place>, NoMemory>
    requires members { AreMembers trees.now members.now }
    requires numbers { AreNodeTypes trees.now types.now numbers.now }
    requires class { class < class_count members.now }
    ensures { IfOk result (λ place. fault_at (member_number rule) place ≡ least (rule_of rule (table_in trees.now) class (class_in (table_in trees.now) class))) }
{
    match rule {
        MemberRule::RepeatedMember => Ok(repeated_member(trees, members, class)),
        MemberRule::OtherParameters => {
            other_parameters(alloc, trees, members, types, numbers, class)
        }
        MemberRule::ObjectMethod => Ok(object_method(trees, members, class)),
        MemberRule::OtherResult => other_result(alloc, trees, members, types, numbers, class),
        MemberRule::TooMany => Ok(too_many(members, class)),
    }
}

/// Where a rule is broken first.
fn first_place(
    alloc: Global,
    trees: &[Tree],
    heads: &Heads,
    members: &Members,
    types: &Types,
    numbers: &NodeTypes,
    rule: MemberRule,
) -> Result<Option<Place>, NoMemory>
    requires heads { AreHeads trees.now heads.now }
    requires members { AreMembers trees.now members.now }
    requires numbers { AreNodeTypes trees.now types.now numbers.now }
    ensures { IfOk result (λ place. fault_at (member_number rule) place ≡ first_of_rule (rule_of rule) (table_in trees.now)) }
{
    let mut first = None;
    for (class, _) in heads.headings().iter().enumerate() {
        let place = place_in_class(alloc, trees, members, types, numbers, rule, class as u32)?;
        first = earlier(first, place);
    }
    Ok(first)
}

/// The first broken rule of those on members.
pub(crate) fn first_broken_member(
    alloc: Global,
    trees: &[Tree],
    heads: &Heads,
    members: &Members,
    types: &Types,
    numbers: &NodeTypes,
) -> Result<Option<Found>, NoMemory>
    requires heads { AreHeads trees.now heads.now }
    requires members { AreMembers trees.now members.now }
    requires numbers { AreNodeTypes trees.now types.now numbers.now }
    ensures { IfOk result (IsMembersFault (table_in trees.now)) }
{
    let rules = [
        MemberRule::RepeatedMember,
        MemberRule::OtherParameters,
        MemberRule::ObjectMethod,
        MemberRule::OtherResult,
        MemberRule::TooMany,
    ];
    for rule in rules {
        let place = first_place(alloc, trees, heads, members, types, numbers, rule)?;
        if let Some(place) = place {
            let rule = rule.class_rule();
            return Ok(Some(Found { place, rule }));
        }
    }
    Ok(None)
}
