// The array types that nodes name.
ghost use Rattle.std.specs.Prelude.{◌≡◌, ◌<◌, [], All, IfOk, IfSome, MatchOption, OnOk, flat_map, length, map};
ghost use Rattle.kr_space_names.specs.Vocabulary.{AreNodeTypes, array_types_of, arrays_in, arrays_named, count, Extends, file_at, headings_of, nodes, root, tree_in, type_at};
ghost use Rattle.kr_space_names.specs.Collected.{AreNumbers, IsClosed, collected, types_shown};

use crate::inside::add_arrays_in;
use crate::list::Arrays;
use crate::walk::nodes_of;
use kr_ast::{Node, Tree, tree_of};
use kr_base::NoMemory;
use kr_classes_names::{NodeTypes, TypeForm, Types};
use std::alloc::Global;

/// The type that a node names, if it is an array type; `new T[n]` names `T[]`.
fn array_named(
    types: &mut Types,
    trees: &[Tree],
    numbers: &NodeTypes,
    file: u32,
    node: u32,
) -> Result<Option<u32>, NoMemory>
    requires numbers { AreNodeTypes trees.now types.old numbers.now }
    requires file { file < length trees.now }
    requires node { node < length (file_at trees.now file).entries }
    ensures within { IfOk result (λ found. IfSome found (λ n. n < count types.new)) }
    ensures shown { IfOk result (λ found. MatchOption found (arrays_named (headings_of (map root trees.now)) (tree_in (file_at trees.now file) node) ≡ []) (λ n. arrays_named (headings_of (map root trees.now)) (tree_in (file_at trees.now file) node) ≡ arrays_in (type_at types.new n))) }
    ensures extends { Extends types.old types.new }
{
    match tree_of(trees, file).entry(node).node {
        Node::ArrayType { .. } => Ok(Some(numbers.number(file, node))),
        Node::ArrayCreation { element, .. } => {
            let element = numbers.number(file, element);
            Ok(Some(types.number(TypeForm::Array(element))?))
        }
        _ => Ok(None),
    }
}

/// Adds the array types that a node names.
#[tactic(auto, using(crate::proofs::Collecting::collected_kept, crate::proofs::Collecting::shown_kept, crate::proofs::Collecting::numbers_kept, crate::proofs::Closed::closed_kept))]
fn add_named(
    alloc: Global,
    types: &mut Types,
    arrays: &mut Arrays,
    trees: &[Tree],
    numbers: &NodeTypes,
    file: u32,
    node: u32,
) -> Result<(), NoMemory>
    requires numbers { AreNodeTypes trees.now types.old numbers.now }
    requires file { file < length trees.now }
    requires node { node < length (file_at trees.now file).entries }
    requires arrays { AreNumbers types.old arrays.old }
    requires closed { IsClosed (types_shown types.old arrays.old) }
    ensures arrays { OnOk result (AreNumbers types.new arrays.new) }
    ensures closed { OnOk result (IsClosed (types_shown types.new arrays.new)) }
    ensures shown { OnOk result (types_shown types.new arrays.new ≡ collected (types_shown types.old arrays.old) (arrays_named (headings_of (map root trees.now)) (tree_in (file_at trees.now file) node))) }
    ensures extends { Extends types.old types.new }
{
    match array_named(types, trees, numbers, file, node)? {
        None => Ok(()),
        Some(number) => {
            add_arrays_in(alloc, &*types, arrays, number)?;
            Ok(())
        }
    }
}

/// Adds the array types that some nodes name.
#[tactic(auto, using(crate::proofs::Collecting::flat_next, crate::proofs::Collecting::node_types_kept, kr_classes_names::proofs::Growing::extends_on))]
fn add_all_named(
    alloc: Global,
    types: &mut Types,
    arrays: &mut Arrays,
    trees: &[Tree],
    numbers: &NodeTypes,
    file: u32,
    nodes: &[u32],
) -> Result<(), NoMemory>
    requires numbers { AreNodeTypes trees.now types.old numbers.now }
    requires file { file < length trees.now }
    requires nodes { All (λ n. n < length (file_at trees.now file).entries) nodes.now }
    requires arrays { AreNumbers types.old arrays.old }
    requires closed { IsClosed (types_shown types.old arrays.old) }
    ensures arrays { OnOk result (AreNumbers types.new arrays.new) }
    ensures closed { OnOk result (IsClosed (types_shown types.new arrays.new)) }
    ensures shown { OnOk result (types_shown types.new arrays.new ≡ collected (types_shown types.old arrays.old) (flat_map (arrays_named (headings_of (map root trees.now))) (map (tree_in (file_at trees.now file)) nodes.now))) }
    ensures extends { Extends types.old types.new }
{
    for node in nodes {
        add_named(alloc, types, arrays, trees, numbers, file, *node)?;
    }
    Ok(())
}

/// Adds the array types that a file names.
fn add_file(
    alloc: Global,
    types: &mut Types,
    arrays: &mut Arrays,
    trees: &[Tree],
    numbers: &NodeTypes,
    file: u32,
) -> Result<(), NoMemory>
    requires numbers { AreNodeTypes trees.now types.old numbers.now }
    requires file { file < length trees.now }
    requires arrays { AreNumbers types.old arrays.old }
    requires closed { IsClosed (types_shown types.old arrays.old) }
    ensures arrays { OnOk result (AreNumbers types.new arrays.new) }
    ensures closed { OnOk result (IsClosed (types_shown types.new arrays.new)) }
    ensures shown { OnOk result (types_shown types.new arrays.new ≡ collected (types_shown types.old arrays.old) (flat_map (arrays_named (headings_of (map root trees.now))) (nodes (root (file_at trees.now file))))) }
    ensures extends { Extends types.old types.new }
{
    let found = nodes_of(alloc, tree_of(trees, file))?;
    add_all_named(alloc, types, arrays, trees, numbers, file, &found)
}

/// The array types that these files name, in file and source order, each once; those of elements first.
pub fn array_types(
    alloc: Global,
    types: &mut Types,
    trees: &[Tree],
    numbers: &NodeTypes,
) -> Result<Arrays, NoMemory>
    requires few { length trees.now < 65 }
    requires numbers { AreNodeTypes trees.now types.old numbers.now }
    ensures arrays { IfOk result (λ arrays. AreNumbers types.new arrays) }
    ensures closed { IfOk result (λ arrays. IsClosed (types_shown types.new arrays)) }
    ensures shown { IfOk result (λ arrays. types_shown types.new arrays ≡ array_types_of (map root trees.now)) }
    ensures extends { Extends types.old types.new }
{
    let mut arrays = Arrays::new(alloc);
    let count = trees.len() as u32;
    for file in 0..count {
        add_file(alloc, types, &mut arrays, trees, numbers, file)?;
    }
    Ok(arrays)
}
