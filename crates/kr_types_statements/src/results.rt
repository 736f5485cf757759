// The notes of `return` and `\result`.
ghost use Rattle.std.specs.Prelude.{◌≡◌, ◌<◌, ℕ, List, IfSome};
ghost use Rattle.kr_types_meaning.specs.Rules as rules;
ghost use Rattle.kr_types_statements.specs.Vocabulary.{AreClassTypes, AreMembers, Arena, AreNodeTypes, Binding, count, file_at, HasNoRest, IsLinked, IsNoteWithin, IsVerdictWithin, leaf, maybe, note_shown, scope_in, Setting, table_in, type_at, type_there, verdict_shown};
ghost use Rattle.kr_types_statements.specs.Maybe.{types_in, with_maybe};

use crate::parts::maybe_type;
use kr_base::Place;
use kr_classes_members::Members;
use kr_classes_names::Types;
use kr_classes_table::TypeId;
use kr_types_judging::{
    ClassTypes, Judgement, Note, conclude, result_value_rule, return_rule, type_of_node,
};
use kr_types_scopes::Within;

/// `\result`
pub fn result_note(classes: &ClassTypes<'_>, file: u32, here: Within, place: Place) -> Note
    requires { AreNodeTypes classes.now.trees.now classes.now.types.now classes.now.node_types.now }
    ensures within { IsNoteWithin classes.now.types.now result }
    ensures no_rest { HasNoRest result.known }
    ensures shown { (g : Setting) (bs : List Binding) (look : ℕ → rules.Typed) → g.table ≡ table_in classes.now.trees.now → g.tree ≡ file_at classes.now.trees.now file → note_shown classes.now.types.now look result ≡ leaf place (rules.result_value_rule (scope_in g bs here)) }
{
    let number = type_of_node(
        classes.trees,
        classes.types,
        classes.node_types,
        file,
        here.result,
    );
    let verdict = result_value_rule(classes.types, here, number);
    conclude(place, verdict, None)
}

/// The verdict of T30, if the value is absent or has a type.
fn return_verdict(
    types: &Types,
    members: &Members,
    here: Within,
    result_type: TypeId,
    value: Option<Option<TypeId>>,
) -> Judgement
    requires result_type { result_type < count types.now }
    requires value { IfSome value (λ o. IfSome o (λ t. t < count types.now)) }
    ensures within { IsVerdictWithin types.now result }
    ensures says { (files : List Arena) (g : Setting) (bs : List Binding) → AreMembers files members.now → g.table ≡ table_in files → type_at types.now result_type ≡ type_there g here.result → verdict_shown types.now result ≡ with_maybe (rules.return_rule (scope_in g bs here)) (types_in types.now value) }
{
    match value {
        None => Judgement::fine(),
        Some(value) => return_rule(types, members, result_type, value),
    }
}

/// `return`, with or without a value (Java Language Specification 14.17).
pub fn return_note(classes: &ClassTypes<'_>, file: u32, here: Within, place: Place, x: Note) -> Note
    requires classes { AreClassTypes classes.now }
    requires value { IsNoteWithin classes.now.types.now x }
    ensures within { IsNoteWithin classes.now.types.now result }
    ensures no_rest { HasNoRest result.known }
    ensures shown { (g : Setting) (bs : List Binding) (look : ℕ → rules.Typed) → g.table ≡ table_in classes.now.trees.now → g.tree ≡ file_at classes.now.trees.now file → IsLinked look x.known → note_shown classes.now.types.now look result ≡ maybe place (rules.return_rule (scope_in g bs here)) (note_shown classes.now.types.now look x) }
{
    let number = type_of_node(
        classes.trees,
        classes.types,
        classes.node_types,
        file,
        here.result,
    );
    let value = maybe_type(x.known);
    let verdict = return_verdict(classes.types, classes.members, here, number, value);
    conclude(place, verdict, x.least)
}
