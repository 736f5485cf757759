// Rules on calls of collections, and on creations of arrays: T25, T27, T39.
ghost use Rattle.std.specs.Prelude.{◌≡◌, ◌<◌, ◌||◌, ◌&&◌, not, map, All, bytes_eq, codes};
ghost use Rattle.kr_types_meaning.specs.Rules as rules;
ghost use Rattle.kr_types_judging.specs.Vocabulary.{count, is_collection, is_element, is_reference, type_at};
ghost use Rattle.kr_types_judging.specs.Shown.{IsVerdictWithin, Says, verdict_shown};

use crate::known::Judgement;
use crate::relations::is_assignable;
use crate::rules::TypingRule;
use kr_classes_members::Members;
use kr_classes_names::Types;
use kr_classes_table::TypeId;
use kr_types_scopes::Within;

/// Whether the call removes the first member of a list.
fn removes_first(types: &Types, is_list: bool, member: TypeId, name: &[u8]) -> bool
    requires { member < count types.now }
    ensures { result ≡ (bytes_eq name.now (codes "removeFirst") && is_list && is_element (type_at types.now member)) }
{
    name == b"removeFirst".as_slice() && is_list && types.is_element(member)
}

/// T25: what a collection has without arguments.
fn plain_call_rule(types: &Types, is_list: bool, member: TypeId, name: &[u8]) -> Judgement
    requires { member < count types.now }
    ensures within { IsVerdictWithin types.now result }
    ensures says { verdict_shown types.now result ≡ rules.plain_call_rule is_list (type_at types.now member) name.now }
{
    if name == b"size".as_slice() {
        return Judgement::value(types.int());
    }
    if name == b"isEmpty".as_slice() {
        return Judgement::value(types.boolean());
    }
    Judgement::value_if(
        removes_first(types, is_list, member, name),
        TypingRule::CollectionCall,
        member,
    )
}

/// Whether it looks for a member, which may be null or of any class or array type.
fn looks_for(types: &Types, name: &[u8], argument: TypeId) -> bool
    requires { argument < count types.now }
    ensures { result ≡ ((bytes_eq name.now (codes "contains") || bytes_eq name.now (codes "remove")) && is_reference (type_at types.now argument) && not (is_collection (type_at types.now argument))) }
{
    (name == b"contains".as_slice() || name == b"remove".as_slice())
        && types.is_reference(argument)
        && !types.is_collection(argument)
}

/// T25 with an argument: `add` accepts values assignable to the type of the members.
fn member_call_rule(
    types: &Types,
    members: &Members,
    here: Within,
    member: TypeId,
    name: &[u8],
    argument: TypeId,
) -> Judgement
    requires member { member < count types.now }
    requires argument { argument < count types.now }
    ensures within { IsVerdictWithin types.now result }
    ensures says { Says members.now types.now here result (λ s. rules.member_call_rule s (type_at types.now member) name.now (type_at types.now argument)) }
{
    if name == b"add".as_slice() {
        return Judgement::value_if(
            is_assignable(types, members, argument, member),
            TypingRule::CollectionCall,
            types.boolean(),
        );
    }
    Judgement::value_if(
        looks_for(types, name, argument),
        TypingRule::CollectionCall,
        types.boolean(),
    )
}

/// T25: a call of a collection.
pub(crate) fn collection_rule(
    types: &Types,
    members: &Members,
    here: Within,
    is_list: bool,
    member: TypeId,
    name: &[u8],
    arguments: &[TypeId],
) -> Judgement
    requires member { member < count types.now }
    requires arguments { All (λ t. t < count types.now) arguments.now }
    ensures within { IsVerdictWithin types.now result }
    ensures says { Says members.now types.now here result (λ s. rules.collection_rule s is_list (type_at types.now member) name.now (map (type_at types.now) arguments.now)) }
{
    match arguments {
        [] => plain_call_rule(types, is_list, member, name),
        [argument] => member_call_rule(types, members, here, member, name, *argument),
        _ => Judgement::Breaks(TypingRule::CollectionCall),
    }
}
