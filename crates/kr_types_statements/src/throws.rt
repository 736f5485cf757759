// The notes of `throw`, `catch` and `signals`, from those of their parts.
ghost use Rattle.std.specs.Prelude.{◌≡◌, ◌<◌, ℕ, List, length};
ghost use Rattle.kr_types_meaning.specs.Rules as rules;
ghost use Rattle.kr_types_statements.specs.Vocabulary.{AreClassTypes, AreNodeTypes, Binding, class_caught, concluded, count, file_at, HasNoRest, IsNoteWithin, IsThrowable, note_shown, one, Scope, scope_in, Setting, signals, sooner, table_in, tree_in, type_at, written};

use kr_ast::{Node, Tree, tree_of};
use kr_base::Place;
use kr_classes_table::TypeId;
use kr_types_expressions::part_type;
use kr_types_judging::{
    ClassTypes, Note, TypingRule, caught_rule, conclude, contract_rule, earlier, plain, throw_rule,
    type_of_node,
};
use kr_types_scopes::Within;

/// `throw` (Java Language Specification 14.18): T41, if the thrown value has a type.
pub fn throw_note(classes: &ClassTypes<'_>, throwable: TypeId, place: Place, x: Note) -> Note
    requires classes { AreClassTypes classes.now }
    requires throwable { IsThrowable classes.now.trees.now classes.now.types.now throwable }
    requires thrown { IsNoteWithin classes.now.types.now x }
    ensures within { IsNoteWithin classes.now.types.now result }
    ensures no_rest { HasNoRest result.known }
    ensures shown { (s : Scope) (look : ℕ → rules.Typed) → s.table ≡ table_in classes.now.trees.now → note_shown classes.now.types.now look result ≡ one place (rules.throw_rule s) (note_shown classes.now.types.now look x) }
{
    match part_type(x.known) {
        None => plain(x.least),
        Some(a) => conclude(place, throw_rule(classes, throwable, a), x.least),
    }
}

/// The node of the class that a `catch` or a `signals` names, by the node of what it declares.
fn class_node(tree: &Tree, declared: u32) -> u32
    requires { declared < length tree.now.entries }
    ensures { (s : Scope) → written s (tree_in tree.now result) ≡ class_caught s (tree_in tree.now declared) }
{
    match tree.entry(declared).node {
        Node::Parameter {
            declared: class,
            ..
        } => class,
        _ => declared,
    }
}

/// Its type.
fn caught_type(classes: &ClassTypes<'_>, file: u32, declared: u32) -> TypeId
    requires numbers { AreNodeTypes classes.now.trees.now classes.now.types.now classes.now.node_types.now }
    requires file { file < length classes.now.trees.now }
    requires declared { declared < length (file_at classes.now.trees.now file).entries }
    ensures within { result < count classes.now.types.now }
    ensures is { (s : Scope) → s.table ≡ table_in classes.now.trees.now → type_at classes.now.types.now result ≡ class_caught s (tree_in (file_at classes.now.trees.now file) declared) }
{
    let node = class_node(tree_of(classes.trees, file), declared);
    type_of_node(
        classes.trees,
        classes.types,
        classes.node_types,
        file,
        Some(node),
    )
}

/// `catch`, from the notes of what it declares and of its block (Java Language Specification 14.20).
pub fn catch_note(
    classes: &ClassTypes<'_>,
    throwable: TypeId,
    file: u32,
    declared: u32,
    place: Place,
    x: Note,
    y: Note,
) -> Note
    requires classes { AreClassTypes classes.now }
    requires throwable { IsThrowable classes.now.trees.now classes.now.types.now throwable }
    requires file { file < length classes.now.trees.now }
    requires declared { declared < length (file_at classes.now.trees.now file).entries }
    ensures within { IsNoteWithin classes.now.types.now result }
    ensures no_rest { HasNoRest result.known }
    ensures shown { (s : Scope) (look : ℕ → rules.Typed) → s.table ≡ table_in classes.now.trees.now → note_shown classes.now.types.now look result ≡ concluded place (rules.caught_rule s 42 (class_caught s (tree_in (file_at classes.now.trees.now file) declared))) (sooner (note_shown classes.now.types.now look x).least (note_shown classes.now.types.now look y).least) }
{
    let caught = caught_type(classes, file, declared);
    let verdict = caught_rule(classes, throwable, TypingRule::Catch, caught);
    conclude(place, verdict, earlier(x.least, y.least))
}

/// `signals`, from the notes of what it declares and of its condition: T28, T40 and T43, if the condition has a type.
pub fn signals_note(
    classes: &ClassTypes<'_>,
    throwable: TypeId,
    file: u32,
    declared: u32,
    here: Within,
    place: Place,
    x: Note,
    y: Note,
) -> Note
    requires classes { AreClassTypes classes.now }
    requires throwable { IsThrowable classes.now.trees.now classes.now.types.now throwable }
    requires file { file < length classes.now.trees.now }
    requires declared { declared < length (file_at classes.now.trees.now file).entries }
    requires condition { IsNoteWithin classes.now.types.now y }
    ensures within { IsNoteWithin classes.now.types.now result }
    ensures no_rest { HasNoRest result.known }
    ensures shown { (g : Setting) (bs : List Binding) (look : ℕ → rules.Typed) → g.table ≡ table_in classes.now.trees.now → note_shown classes.now.types.now look result ≡ signals place (scope_in g bs here) (tree_in (file_at classes.now.trees.now file) declared) (note_shown classes.now.types.now look x) (note_shown classes.now.types.now look y) }
{
    let caught = caught_type(classes, file, declared);
    let least = earlier(x.least, y.least);
    match part_type(y.known) {
        None => plain(least),
        Some(a) => {
            let condition = contract_rule(classes.types, classes.members, here, a);
            let class = caught_rule(classes, throwable, TypingRule::Signals, caught);
            conclude(place, condition.and(class), least)
        }
    }
}
