// Methods of the root, and their parameters.
ghost use Rattle.std.specs.Prelude.{◌≡◌, ◌<◌, All, IfOk, IfSome, flat_map, length, map, option_map, option_to_list};
ghost use Rattle.kr_space_rules.specs.Vocabulary.{file_at, headings_in, instance_alone, IsMethod, method_of, method_shown, parameter_in, parameters_in, tree_in};
ghost use Rattle.kr_space_rules.specs.Classes.{AreClasses, table_of};
ghost use Rattle.kr_space_rules.specs.Parameters.{IsParameter, parameter_shown};

use crate::classes::Classes;
use kr_ast::{Name, Node, Tree, tree_of};
use kr_base::{NoMemory, Place, add_found};
use kr_classes_members::Method;
use kr_classes_names::items;
use std::alloc::Global;

/// A parameter, with the node of its type.
#[derive(Clone, Copy)]
pub struct Parameter {
    pub file: u32,
    pub name: Name,
    pub place: Place,
    pub declared: u32,
}

/// The method of a name that a class has, if there is a class.
pub(crate) fn method_at(classes: &Classes, class: Option<u32>, name: &[u8]) -> Option<Method>
    requires { AreClasses classes.now }
    ensures stands { IfSome result (IsMethod classes.now.trees.now) }
    ensures shown { option_map (method_shown classes.now.trees.now) result ≡ method_of (table_of classes.now) class name.now }
{
    match class {
        None => None,
        Some(class) => classes.members.method_named(class, name),
    }
}

/// The parameter that a node is.
fn parameter_at(trees: &[Tree], file: u32, node: u32) -> Option<Parameter>
    requires file { file < length trees.now }
    requires node { node < length (file_at trees.now file).entries }
    ensures stands { IfSome result (IsParameter trees.now) }
    ensures shown { option_to_list (option_map (parameter_shown trees.now) result) ≡ parameter_in (headings_in trees.now) (tree_in (file_at trees.now file) node) }
{
    let entry = tree_of(trees, file).entry(node);
    match entry.node {
        Node::Parameter { declared, name } => Some(Parameter {
            file,
            name,
            place: entry.place,
            declared,
        }),
        _ => None,
    }
}

/// The parameters that nodes are.
fn parameters_at(
    alloc: Global,
    trees: &[Tree],
    file: u32,
    nodes: &[u32],
) -> Result<Vec<Parameter>, NoMemory>
    requires file { file < length trees.now }
    requires nodes { All (λ n. n < length (file_at trees.now file).entries) nodes.now }
    ensures stand { IfOk result (λ found. All (IsParameter trees.now) found.items) }
    ensures shown { IfOk result (λ found. map (parameter_shown trees.now) found.items ≡ flat_map (λ n. parameter_in (headings_in trees.now) (tree_in (file_at trees.now file) n)) nodes.now) }
{
    let mut found = Vec::new(alloc);
    for node in nodes {
        add_found(&mut found, parameter_at(trees, file, *node))?;
    }
    Ok(found)
}

/// The parameters of a method, in order.
pub(crate) fn parameters_of_method(
    alloc: Global,
    trees: &[Tree],
    method: Method,
) -> Result<Vec<Parameter>, NoMemory>
    requires { IsMethod trees.now method }
    ensures stand { IfOk result (λ found. All (IsParameter trees.now) found.items) }
    ensures shown { IfOk result (λ found. map (parameter_shown trees.now) found.items ≡ (method_shown trees.now method).parameters) }
{
    let file = method.file;
    let nodes = items(alloc, tree_of(trees, file), method.parameters)?;
    parameters_at(alloc, trees, file, &nodes)
}

/// The parameters of the method of a name that a class has, in order; none where there is no such method.
pub(crate) fn parameters_of(
    alloc: Global,
    classes: &Classes,
    class: Option<u32>,
    name: &[u8],
) -> Result<Vec<Parameter>, NoMemory>
    requires { AreClasses classes.now }
    ensures stand { IfOk result (λ found. All (IsParameter classes.now.trees.now) found.items) }
    ensures shown { IfOk result (λ found. map (parameter_shown classes.now.trees.now) found.items ≡ parameters_in (method_of (table_of classes.now) class name.now)) }
{
    match method_at(classes, class, name) {
        None => Ok(Vec::new(alloc)),
        Some(method) => parameters_of_method(alloc, classes.trees, method),
    }
}

/// The parameters of the instance method of a name that a class has, in order; none where there is no such method, or a
/// static one.
pub fn instance_parameters(
    alloc: Global,
    classes: &Classes,
    class: Option<u32>,
    name: &[u8],
) -> Result<Vec<Parameter>, NoMemory>
    requires { AreClasses classes.now }
    ensures stand { IfOk result (λ found. All (IsParameter classes.now.trees.now) found.items) }
    ensures shown { IfOk result (λ found. map (parameter_shown classes.now.trees.now) found.items ≡ parameters_in (instance_alone (method_of (table_of classes.now) class name.now))) }
{
    let Some(method) = method_at(classes, class, name) else {
        return Ok(Vec::new(alloc));
    };
    if method.is_static {
        return Ok(Vec::new(alloc));
    }
    parameters_of_method(alloc, classes.trees, method)
}
