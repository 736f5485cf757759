// Names of classes, fields and parameters, as rows have them.
ghost use Rattle.std.specs.Prelude.{◌≡◌, ◌<◌, ◌∷◌, [], All, IfSome, MatchOption, length, map};
ghost use Rattle.std.proofs.Common.{get_or};
ghost use Rattle.kr_ast.specs.Arena.{AreNamesIn, name_in, root, tree_in};
ghost use Rattle.kr_classes_members.specs.Shown.{IsField, IsMethod, field_name as name_of};
ghost use Rattle.kr_classes_names.specs.Shown.{AreHeads};
ghost use Rattle.kr_classes_table.specs.Table.{headings_of, items};
ghost use Rattle.kr_report.specs.Names.{listed_names, name_under, names_of};
ghost use Rattle.kr_report.specs.Texts.{thrown_name};

use kr_ast::{Name, Node, Tree, tree_of};
use kr_classes_members::{Field, Method};
use kr_classes_names::Heads;
use kr_classes_table::{ClassId, first_item};

/// The simple name of a class whose object is thrown.
pub(crate) fn thrown_name<'t>(trees: &'t [Tree], heads: &Heads, class: ClassId) -> &'t [u8]
    requires { AreHeads trees.now heads.now }
    ensures { result.now ≡ thrown_name (headings_of (map root trees.now)) class }
{
    match heads.headings().get(class as usize) {
        None => b"Throwable",
        Some(heading) => tree_of(trees, heading.file).name(heading.name),
    }
}

/// The name of a field by its position; empty where there is none.
pub fn field_name_among<'t>(trees: &'t [Tree], fields: &[Field], position: u32) -> &'t [u8]
    requires { All (IsField trees.now) fields.now }
    ensures { result.now ≡ get_or (map (name_of trees.now) fields.now) position [] }
{
    match fields.get(position as usize) {
        None => b"",
        Some(field) => tree_of(trees, field.file).name(field.name),
    }
}

/// The name of a parameter.
fn name_at(tree: &Tree, node: u32) -> Option<Name>
    requires { node < length tree.now.entries }
    ensures within { IfSome result (λ n. AreNamesIn tree.now.text (n ∷ [])) }
    ensures shown { MatchOption result (name_under (tree_in tree.now node) ≡ []) (λ n. name_under (tree_in tree.now node) ≡ name_in tree.now.text n ∷ []) }
{
    match tree.entry(node).node {
        Node::Parameter { name, .. } => Some(name),
        _ => None,
    }
}

/// The name of the parameter of this number in a list; empty where there is none.
fn listed_name(tree: &Tree, list: u32, number: u32) -> &[u8]
    requires { list < length tree.now.entries }
    ensures { result.now ≡ get_or (listed_names tree.now list) number [] }
{
    let mut at = list;
    let mut left = number;
    while let Some((item, rest)) = first_item(tree, at) {
        match name_at(tree, item) {
            None => {}
            Some(name) => {
                if left == 0 {
                    return tree.name(name);
                }
                left -= 1;
            }
        }
        at = rest;
    }
    b""
}

/// The name of a method's parameter by its number; empty where there is none.
pub fn parameter_name_of(trees: &[Tree], method: Option<Method>, number: u32) -> &[u8]
    requires { IfSome method (IsMethod trees.now) }
    ensures { result.now ≡ get_or (names_of trees.now method) number [] }
{
    match method {
        None => b"",
        Some(method) => listed_name(tree_of(trees, method.file), method.parameters, number),
    }
}
