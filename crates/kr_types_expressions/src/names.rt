// T3 and T5 on names and `this`, and their notes.
ghost use Rattle.std.specs.Prelude.{◌≡◌, ◌<◌, ℕ, List, IfOk, IfSome, length};
ghost use Rattle.kr_types_meaning.specs.Rules as rules;
ghost use Rattle.kr_types_expressions.specs.Vocabulary.{AreClassTypes, AreHeads, AreScopes, Binding, class_there, Extends, file_at, HasNoRest, IsNoteWithin, IsVerdictWithin, Known, leaf, meant, note_shown, scope_at, scope_in, Setting, setting, table_in, verdict_shown};

use kr_ast::{Node, Tree, tree_of};
use kr_base::{NoMemory, Place};
use kr_classes_names::{Heads, TypeForm, Types};
use kr_classes_table::ClassId;
use kr_types_judging::{
    ClassTypes, Judgement, Note, TypingRule, conclude, field_name_rule, type_of_node, variable_of,
};
use kr_types_scopes::{Scopes, Within};

/// The class whose code a scope is in; the first one outside of classes.
pub fn class_of(trees: &[Tree], heads: &Heads, file: u32, node: Option<u32>) -> ClassId
    requires heads { AreHeads trees.now heads.now }
    requires file { file < length trees.now }
    requires node { IfSome node (λ k. k < length (file_at trees.now file).entries) }
    ensures { (known : List Known) → class_there (setting (table_in trees.now) known (file_at trees.now file)) node ≡ result }
{
    match node {
        None => 0,
        Some(node) => {
            let tree = tree_of(trees, file);
            match tree.entry(node).node {
                Node::Class { name, .. } => match heads.number_of(tree.name(name)) {
                    None => 0,
                    Some(class) => class,
                },
                _ => 0,
            }
        }
    }
}

/// T3: a name means something; T5: no instance field in static code.
pub fn variable_rule(
    classes: &ClassTypes<'_>,
    scopes: &Scopes,
    file: u32,
    node: u32,
    class: ClassId,
    name: &[u8],
) -> Judgement
    requires classes { AreClassTypes classes.now }
    requires file { file < length classes.now.trees.now }
    requires node { node < length (file_at classes.now.trees.now file).entries }
    requires scopes { AreScopes (file_at classes.now.trees.now file) scopes.now.bindings.items scopes.now.within.items }
    ensures within { IsVerdictWithin classes.now.types.now result }
    ensures says { (known : List Known) → let s = scope_at (setting (table_in classes.now.trees.now) known (file_at classes.now.trees.now file)) scopes.now.bindings.items scopes.now.within.items node in s.class ≡ class → verdict_shown classes.now.types.now result ≡ rules.name_rule s (meant s name.now) }
{
    let tree = tree_of(classes.trees, file);
    match scopes.local(tree, node, name) {
        Some(local) => {
            let number = type_of_node(
                classes.trees,
                classes.types,
                classes.node_types,
                file,
                local.declared,
            );
            variable_of(classes.types, number)
        }
        None => match classes.members.field_meant(class, name) {
            None => Judgement::Breaks(TypingRule::UnknownName),
            Some(field) => {
                let here = scopes.at(node);
                field_name_rule(classes, here, field)
            }
        },
    }
}

/// A name.
pub fn variable_note(
    classes: &ClassTypes<'_>,
    scopes: &Scopes,
    file: u32,
    node: u32,
    place: Place,
    class: ClassId,
    name: &[u8],
) -> Note
    requires classes { AreClassTypes classes.now }
    requires file { file < length classes.now.trees.now }
    requires node { node < length (file_at classes.now.trees.now file).entries }
    requires scopes { AreScopes (file_at classes.now.trees.now file) scopes.now.bindings.items scopes.now.within.items }
    ensures within { IsNoteWithin classes.now.types.now result }
    ensures no_rest { HasNoRest result.known }
    ensures shown { (known : List Known) (look : ℕ → rules.Typed) → let s = scope_at (setting (table_in classes.now.trees.now) known (file_at classes.now.trees.now file)) scopes.now.bindings.items scopes.now.within.items node in s.class ≡ class → note_shown classes.now.types.now look result ≡ leaf place (rules.name_rule s (meant s name.now)) }
{
    let verdict = variable_rule(classes, scopes, file, node, class, name);
    conclude(place, verdict, None)
}

/// T5: `this` isn't used in static code.
fn this_rule(types: &mut Types, here: Within, class: ClassId) -> Result<Judgement, NoMemory>
    ensures extends { Extends types.old types.new }
    ensures within { IfOk result (λ v. IsVerdictWithin types.new v) }
    ensures says { IfOk result (λ v. (g : Setting) (bs : List Binding) → class_there g here.class ≡ class → verdict_shown types.new v ≡ rules.this_rule (scope_in g bs here)) }
{
    let number = types.number(TypeForm::Class(class))?;
    Ok(Judgement::value_if(!here.is_static, TypingRule::StaticCode, number))
}

/// `this`
pub fn this_note(
    types: &mut Types,
    here: Within,
    place: Place,
    class: ClassId,
) -> Result<Note, NoMemory>
    ensures extends { Extends types.old types.new }
    ensures within { IfOk result (λ n. IsNoteWithin types.new n) }
    ensures no_rest { IfOk result (λ n. HasNoRest n.known) }
    ensures shown { IfOk result (λ n. (g : Setting) (bs : List Binding) (look : ℕ → rules.Typed) → class_there g here.class ≡ class → note_shown types.new look n ≡ leaf place (rules.this_rule (scope_in g bs here))) }
{
    let verdict = this_rule(types, here, class)?;
    Ok(conclude(place, verdict, None))
}
