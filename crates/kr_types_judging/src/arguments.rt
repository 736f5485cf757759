// Whether arguments fit parameters, both walked at once.
ghost use Rattle.std.specs.Prelude.{◌≡◌, ◌<◌, ◌∷◌, [], IfSome, MatchOption, length, map, All};
ghost use Rattle.kr_types_judging.specs.Vocabulary.{count, file_at, headings_in, table_in, tree_in, type_at};
ghost use Rattle.kr_types_judging.specs.Classes.{AreClassTypes};
ghost use Rattle.kr_types_judging.specs.Arguments.{arguments_go_into, listed_types, parameter_types_in};

use crate::class_types::ClassTypes;
use crate::relations::takes;
use kr_ast::{Node, Tree, tree_of};
use kr_classes_table::{TypeId, first_item};

/// A parameter's type by its node, and the rest of the list.
#[derive(Clone, Copy)]
pub struct NextParameter {
    pub declared: u32,
    pub rest: u32,
}

/// The node of the type of a parameter.
fn declared_type(tree: &Tree, node: u32) -> Option<u32>
    requires { node < length tree.now.entries }
    ensures { MatchOption result (parameter_types_in tree.now node ≡ []) (λ k. parameter_types_in tree.now node ≡ tree_in tree.now k ∷ []) }
{
    match tree.entry(node).node {
        Node::Parameter { declared, .. } => Some(declared),
        _ => None,
    }
}

/// The next parameter of a list.
pub fn next_parameter(tree: &Tree, list: u32) -> Option<NextParameter>
    requires { list < length tree.now.entries }
    ensures behind { IfSome result (λ p. p.rest < list) }
    ensures shown { MatchOption result (listed_types tree.now list ≡ []) (λ p. listed_types tree.now list ≡ tree_in tree.now p.declared ∷ listed_types tree.now p.rest) }
{
    let mut at = list;
    while let Some((item, rest)) = first_item(tree, at) {
        if let Some(declared) = declared_type(tree, item) {
            return Some(NextParameter { declared, rest });
        }
        at = rest;
    }
    None
}

/// Whether there are as many arguments as parameters, and each goes into its parameter.
pub fn arguments_fit(
    classes: &ClassTypes<'_>,
    arguments: &[TypeId],
    file: u32,
    parameters: u32,
) -> bool
    requires classes { AreClassTypes classes.now }
    requires arguments { All (λ t. t < count classes.now.types.now) arguments.now }
    requires file { file < length classes.now.trees.now }
    requires parameters { parameters < length (file_at classes.now.trees.now file).entries }
    ensures { result ≡ arguments_go_into (table_in classes.now.trees.now) (headings_in classes.now.trees.now) (map (type_at classes.now.types.now) arguments.now) (listed_types (file_at classes.now.trees.now file) parameters) }
{
    let tree = tree_of(classes.trees, file);
    let mut at = parameters;
    for argument in arguments {
        match next_parameter(tree, at) {
            None => return false,
            Some(next) => {
                let to = classes.node_types.number(file, next.declared);
                if !takes(classes.types, classes.members, to, *argument) {
                    return false;
                }
                at = next.rest;
            }
        }
    }
    next_parameter(tree, at).is_none()
}
