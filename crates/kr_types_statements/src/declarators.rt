// The notes of declarators and parameters.
ghost use Rattle.std.specs.Prelude.{◌≡◌, ◌<◌, ℕ, List, Option, IfSome, length, option_map, is_some};
ghost use Rattle.kr_types_meaning.specs.Rules as rules;
ghost use Rattle.kr_types_statements.specs.Vocabulary.{AreClassTypes, AreMembers, Arena, AreScopes, AreValues, concluded, count, declaring_of, file_at, HasNoRest, IsLinked, IsNoteWithin, IsVerdictWithin, Known, maybe, meant, note_shown, scope_at, setting, table_in, type_at, value_at, verdict_shown};
ghost use Rattle.kr_types_statements.specs.Declared.{declares};
ghost use Rattle.kr_types_statements.specs.Maybe.{types_in, with_maybe};

use crate::parts::maybe_type;
use kr_ast::{Tree, tree_of};
use kr_base::Place;
use kr_classes_constants::Values;
use kr_classes_members::Members;
use kr_classes_names::Types;
use kr_classes_table::TypeId;
use kr_types_judging::{
    ClassTypes, Judgement, Note, TypingRule, conclude, constant_initial_rule, field_initial_rule,
    local_rule, type_of_node,
};
use kr_types_scopes::{Declaring, Scopes};

/// Whether no local or parameter that is in scope at a node has this name.
fn is_new(trees: &[Tree], scopes: &Scopes, file: u32, node: u32, name: &[u8]) -> bool
    requires file { file < length trees.now }
    requires node { node < length (file_at trees.now file).entries }
    requires scopes { AreScopes (file_at trees.now file) scopes.now.bindings.items scopes.now.within.items }
    ensures { (known : List Known) → let s = scope_at (setting (table_in trees.now) known (file_at trees.now file)) scopes.now.bindings.items scopes.now.within.items node in result ≡ rules.is_new s name.now (meant s name.now) }
{
    let tree = tree_of(trees, file);
    scopes.local(tree, node, name).is_none()
}

/// The verdict of T4, T29 and T35 to T37 on a declared name, by the kind of declaration and whether its constant has a
/// value.
fn declared_rule(
    types: &Types,
    members: &Members,
    declaring: Declaring,
    declared: TypeId,
    is_new: bool,
    has_value: bool,
    initial: Option<TypeId>,
) -> Judgement
    requires declared { declared < count types.now }
    requires initial { IfSome initial (λ t. t < count types.now) }
    ensures within { IsVerdictWithin types.now result }
    ensures says { (files : List Arena) → AreMembers files members.now → verdict_shown types.now result ≡ declares (table_in files) (declaring_of declaring) (type_at types.now declared) is_new has_value (option_map (type_at types.now) initial) }
{
    match declaring {
        Declaring::Locals => local_rule(types, members, declared, is_new, initial),
        Declaring::Fields => field_initial_rule(types, members, declared, initial),
        Declaring::Constants(is_final) => {
            constant_initial_rule(types, members, declared, is_final, has_value, initial)
        }
    }
}

/// Their verdict, if the initial value is absent or has a type.
fn declarator_verdict(
    types: &Types,
    members: &Members,
    declaring: Declaring,
    declared: TypeId,
    is_new: bool,
    has_value: bool,
    initial: Option<Option<TypeId>>,
) -> Judgement
    requires declared { declared < count types.now }
    requires initial { IfSome initial (λ o. IfSome o (λ t. t < count types.now)) }
    ensures within { IsVerdictWithin types.now result }
    ensures says { (files : List Arena) → AreMembers files members.now → verdict_shown types.now result ≡ with_maybe (declares (table_in files) (declaring_of declaring) (type_at types.now declared) is_new has_value) (types_in types.now initial) }
{
    match initial {
        None => Judgement::fine(),
        Some(initial) => declared_rule(
            types, members, declaring, declared, is_new, has_value, initial,
        ),
    }
}

/// A declared name with its initial value, which may be absent (Java Language Specification 8.3, 14.4). The node is the
/// declarator, and the place that of the name.
pub fn declarator_note(
    classes: &ClassTypes<'_>,
    values: &Values,
    scopes: &Scopes,
    file: u32,
    node: u32,
    place: Place,
    name: &[u8],
    x: Note,
) -> Note
    requires classes { AreClassTypes classes.now }
    requires file { file < length classes.now.trees.now }
    requires node { node < length (file_at classes.now.trees.now file).entries }
    requires scopes { AreScopes (file_at classes.now.trees.now file) scopes.now.bindings.items scopes.now.within.items }
    requires initial { IsNoteWithin classes.now.types.now x }
    ensures within { IsNoteWithin classes.now.types.now result }
    ensures no_rest { HasNoRest result.known }
    ensures shown { (known : List Known) (look : ℕ → rules.Typed) → AreValues known values.now → IsLinked look x.known → let s = scope_at (setting (table_in classes.now.trees.now) known (file_at classes.now.trees.now file)) scopes.now.bindings.items scopes.now.within.items node in note_shown classes.now.types.now look result ≡ maybe place (rules.declaration_rule s s.declaring place name.now) (note_shown classes.now.types.now look x) }
{
    let here = scopes.at(node);
    let declared = type_of_node(
        classes.trees,
        classes.types,
        classes.node_types,
        file,
        here.declared,
    );
    let is_new_name = is_new(classes.trees, scopes, file, node, name);
    let has_value = values.value_at(place).is_some();
    let initial = maybe_type(x.known);
    let verdict = declarator_verdict(
        classes.types,
        classes.members,
        here.declaring,
        declared,
        is_new_name,
        has_value,
        initial,
    );
    conclude(place, verdict, x.least)
}

/// A parameter, from the note of its type (Java Language Specification 8.4.1).
pub fn parameter_note(
    trees: &[Tree],
    types: &Types,
    scopes: &Scopes,
    file: u32,
    node: u32,
    place: Place,
    name: &[u8],
    x: Note,
) -> Note
    requires file { file < length trees.now }
    requires node { node < length (file_at trees.now file).entries }
    requires scopes { AreScopes (file_at trees.now file) scopes.now.bindings.items scopes.now.within.items }
    ensures within { IsNoteWithin types.now result }
    ensures no_rest { HasNoRest result.known }
    ensures shown { (known : List Known) (look : ℕ → rules.Typed) → let s = scope_at (setting (table_in trees.now) known (file_at trees.now file)) scopes.now.bindings.items scopes.now.within.items node in note_shown types.now look result ≡ concluded place (rules.parameter_rule s name.now) (note_shown types.now look x).least }
{
    let verdict = Judgement::fine_if(
        is_new(trees, scopes, file, node, name),
        TypingRule::RepeatedLocal,
    );
    conclude(place, verdict, x.least)
}
