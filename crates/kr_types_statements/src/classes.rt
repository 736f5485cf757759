// The notes of classes and constructors with an implicit call of the superclass's constructor.
ghost use Rattle.std.specs.Prelude.{◌≡◌, ℕ};
ghost use Rattle.kr_types_meaning.specs.Rules as rules;
ghost use Rattle.kr_types_statements.specs.Vocabulary.{AreClassTypes, AreHeads, AreSingle, class_rule, concluded, has_constructor, HasNoRest, in_class, IsLinked, IsNoteWithin, IsVerdictWithin, note_shown, on_maybe, Scope, sooner, table_in, verdict_shown};

use crate::parts::maybe_type;
use kr_ast::Tree;
use kr_base::Place;
use kr_classes_names::Heads;
use kr_classes_table::ClassId;
use kr_types_expressions::implied_rule;
use kr_types_judging::{ClassTypes, Judgement, Note, conclude, earlier};

/// The class of a name; the first one where no class has it.
fn class_named(trees: &[Tree], heads: &Heads, name: &[u8]) -> ClassId
    requires { AreHeads trees.now heads.now }
    ensures { (s : Scope) → s.table ≡ table_in trees.now → (in_class name.now s).class ≡ result }
{
    match heads.number_of(name) {
        None => 0,
        Some(class) => class,
    }
}

/// The verdict of T34 on a class: only one without a constructor calls that of its superclass implicitly.
fn class_verdict(classes: &ClassTypes<'_>, class: ClassId) -> Judgement
    requires classes { AreClassTypes classes.now }
    ensures within { IsVerdictWithin classes.now.types.now result }
    ensures says { (s : Scope) → s.table ≡ table_in classes.now.trees.now → AreSingle s.table → s.class ≡ class → verdict_shown classes.now.types.now result ≡ class_rule (has_constructor s) s }
{
    if classes.members.constructors(class).is_empty() {
        return implied_rule(classes, class);
    }
    Judgement::fine()
}

/// A class, from the notes of its members (Java Language Specification 8.8.9).
pub fn class_note(
    classes: &ClassTypes<'_>,
    heads: &Heads,
    place: Place,
    name: &[u8],
    x: Note,
) -> Note
    requires heads { AreHeads classes.now.trees.now heads.now }
    requires classes { AreClassTypes classes.now }
    ensures within { IsNoteWithin classes.now.types.now result }
    ensures no_rest { HasNoRest result.known }
    ensures shown { (s : Scope) (look : ℕ → rules.Typed) → s.table ≡ table_in classes.now.trees.now → AreSingle s.table → note_shown classes.now.types.now look result ≡ concluded place (class_rule (has_constructor (in_class name.now s)) (in_class name.now s)) (note_shown classes.now.types.now look x).least }
{
    let class = class_named(classes.trees, heads, name);
    let verdict = class_verdict(classes, class);
    conclude(place, verdict, x.least)
}

/// The verdict of T34 on a constructor of a class, by whether the call of the superclass's constructor is absent.
fn constructor_verdict(classes: &ClassTypes<'_>, class: ClassId, call: Note) -> Judgement
    requires classes { AreClassTypes classes.now }
    ensures within { IsVerdictWithin classes.now.types.now result }
    ensures says { (s : Scope) (look : ℕ → rules.Typed) → s.table ≡ table_in classes.now.trees.now → AreSingle s.table → s.class ≡ class → IsLinked look call.known → verdict_shown classes.now.types.now result ≡ on_maybe (λ t. rules.implied_rule s) (note_shown classes.now.types.now look call).typed }
{
    match maybe_type(call.known) {
        None => Judgement::fine(),
        Some(_) => implied_rule(classes, class),
    }
}

/// A constructor of a class: its parameters, the call of the superclass's constructor, which may be absent, and its body
/// (Java Language Specification 8.8.7).
pub fn constructor_note(
    classes: &ClassTypes<'_>,
    class: ClassId,
    place: Place,
    parameters: Note,
    call: Note,
    body: Note,
) -> Note
    requires classes { AreClassTypes classes.now }
    ensures within { IsNoteWithin classes.now.types.now result }
    ensures no_rest { HasNoRest result.known }
    ensures shown { (s : Scope) (look : ℕ → rules.Typed) → s.table ≡ table_in classes.now.trees.now → AreSingle s.table → s.class ≡ class → IsLinked look call.known → note_shown classes.now.types.now look result ≡ concluded place (on_maybe (λ t. rules.implied_rule s) (note_shown classes.now.types.now look call).typed) (sooner (sooner (note_shown classes.now.types.now look parameters).least (note_shown classes.now.types.now look call).least) (note_shown classes.now.types.now look body).least) }
{
    let verdict = constructor_verdict(classes, class, call);
    let head = earlier(parameters.least, call.least);
    conclude(place, verdict, earlier(head, body.least))
}
