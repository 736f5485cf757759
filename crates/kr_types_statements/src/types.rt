// The notes of types as written.
ghost use Rattle.std.specs.Prelude.{◌≡◌, ℕ, IfOk};
ghost use Rattle.kr_types_meaning.specs.Rules as rules;
ghost use Rattle.kr_types_statements.specs.Vocabulary.{applied, AreNodeTypes, Extends, file_at, HasNoRest, IsNoteWithin, leaf, note_shown, one, Scope, table_in, tree_in, written};

use kr_ast::Tree;
use kr_base::{NoMemory, Place};
use kr_classes_names::{NodeTypes, TypeForm, Types};
use kr_types_expressions::part_type;
use kr_types_judging::{Judgement, Note, conclude, diamond_rule, plain, type_of_node, type_rule};

/// A primitive type or the name of a class (Java Language Specification 4.2, 4.3).
pub fn named_type_note(
    trees: &[Tree],
    types: &Types,
    node_types: &NodeTypes,
    file: u32,
    node: u32,
    place: Place,
) -> Note
    requires { AreNodeTypes trees.now types.now node_types.now }
    ensures within { IsNoteWithin types.now result }
    ensures no_rest { HasNoRest result.known }
    ensures shown { (s : Scope) (look : ℕ → rules.Typed) → s.table ≡ table_in trees.now → note_shown types.now look result ≡ leaf place (rules.type_rule (written s (tree_in (file_at trees.now file) node))) }
{
    let number = type_of_node(trees, types, node_types, file, Some(node));
    let verdict = type_rule(types, number);
    conclude(place, verdict, None)
}

/// `Head<>` (Java Language Specification 15.9).
pub fn diamond_type_note(
    trees: &[Tree],
    types: &Types,
    node_types: &NodeTypes,
    file: u32,
    node: u32,
    place: Place,
) -> Note
    requires { AreNodeTypes trees.now types.now node_types.now }
    ensures within { IsNoteWithin types.now result }
    ensures no_rest { HasNoRest result.known }
    ensures shown { (s : Scope) (look : ℕ → rules.Typed) → s.table ≡ table_in trees.now → note_shown types.now look result ≡ leaf place (rules.diamond_rule (written s (tree_in (file_at trees.now file) node))) }
{
    let number = type_of_node(trees, types, node_types, file, Some(node));
    let verdict = diamond_rule(types, number);
    conclude(place, verdict, None)
}

/// `Head<Argument>`, by the node of its head (Java Language Specification 4.5): T1, if the argument has a type.
pub fn generic_type_note(
    trees: &[Tree],
    types: &mut Types,
    node_types: &NodeTypes,
    file: u32,
    head: u32,
    place: Place,
    x: Note,
) -> Result<Note, NoMemory>
    requires numbers { AreNodeTypes trees.now types.old node_types.now }
    requires argument { IsNoteWithin types.old x }
    ensures extends { Extends types.old types.new }
    ensures within { IfOk result (λ note. IsNoteWithin types.new note) }
    ensures no_rest { IfOk result (λ note. HasNoRest note.known) }
    ensures shown { IfOk result (λ note. (s : Scope) (look : ℕ → rules.Typed) → s.table ≡ table_in trees.now → note_shown types.new look note ≡ one place (λ t. rules.type_rule (applied (written s (tree_in (file_at trees.now file) head)) t)) (note_shown types.old look x)) }
{
    let number = type_of_node(trees, types, node_types, file, Some(head));
    match part_type(x.known) {
        None => Ok(plain(x.least)),
        Some(a) => {
            let made = types.applied(number, a)?;
            Ok(conclude(place, type_rule(types, made), x.least))
        }
    }
}

/// `Element[]` (Java Language Specification 10.1), if the elements have a type.
pub fn array_type_note(types: &mut Types, place: Place, x: Note) -> Result<Note, NoMemory>
    requires { IsNoteWithin types.old x }
    ensures extends { Extends types.old types.new }
    ensures within { IfOk result (λ note. IsNoteWithin types.new note) }
    ensures no_rest { IfOk result (λ note. HasNoRest note.known) }
    ensures shown { IfOk result (λ note. (look : ℕ → rules.Typed) → note_shown types.new look note ≡ one place rules.array_rule (note_shown types.old look x)) }
{
    match part_type(x.known) {
        None => Ok(plain(x.least)),
        Some(a) => {
            let number = types.number(TypeForm::Array(a))?;
            Ok(conclude(place, Judgement::value(number), x.least))
        }
    }
}
