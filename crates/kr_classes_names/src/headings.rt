// The heads of all classes, in file and source order.
ghost use Rattle.std.specs.Prelude.{◌≡◌, List, ◌<◌, ◌++◌, ◌∷◌, [], None, Some, IfOk, IfSome, length, map, flat_map, All, option_map, option_to_list};
ghost use Rattle.kr_ast.specs.Arena.{Arena, root, tree_in};
ghost use Rattle.kr_classes_table.specs.Table.{items as listed, heading_of, headings_of, with_nested};
ghost use Rattle.kr_classes_names.specs.Shown.{IsHeading, heading_shown};
ghost use Rattle.kr_ast.specs.Files.{IsNode, file_at, tree_of_node};

use crate::lists::items;
use kr_ast::{Name, Node, NodeId, Tree, tree_of};
use kr_base::{NoMemory, Place};
use kr_classes_table::ClassId;
use std::alloc::Global;

/// The head of a class, by nodes of its file's tree: the extended class, and the list of its members.
#[derive(Clone, Copy)]
pub struct Heading {
    pub file: u32,
    pub name: Name,
    pub place: Place,
    pub outer: Option<ClassId>,
    pub extended: u32,
    pub members: u32,
}

/// The head of the class that a node is.
fn class_heading(trees: &[Tree], file: u32, outer: Option<ClassId>, node: u32) -> Option<Heading>
    requires file { file < length trees.now }
    requires node { node < length (file_at trees.now file).entries }
    ensures stands { IfSome result (λ h. IsHeading trees.now h) }
    ensures shown { option_to_list (option_map (heading_shown trees.now) result) ≡ heading_of outer (tree_in (file_at trees.now file) node) }
{
    let entry = tree_of(trees, file).entry(node);
    match entry.node {
        Node::Class {
            name,
            extended,
            members,
        } => Some(Heading {
            file,
            name,
            place: entry.place,
            outer,
            extended,
            members,
        }),
        _ => None,
    }
}

/// Adds the head that was found, if any.
fn add_found(headings: &mut Vec<Heading>, found: Option<Heading>) -> Result<(), NoMemory>
    ensures stands { (files : List Arena) → IfOk result (λ none. All (IsHeading files) headings.old.items → IfSome found (IsHeading files) → All (IsHeading files) headings.new.items) }
    ensures shown { (files : List Arena) → IfOk result (λ none. map (heading_shown files) headings.new.items ≡ map (heading_shown files) headings.old.items ++ option_to_list (option_map (heading_shown files) found)) }
{
    match found {
        None => Ok(()),
        Some(heading) => {
            headings.push(heading)?;
            Ok(())
        }
    }
}

/// Adds the heads of the classes among a class's members.
fn add_nested(
    trees: &[Tree],
    file: u32,
    outer: ClassId,
    members: &[u32],
    headings: &mut Vec<Heading>,
) -> Result<(), NoMemory>
    requires file { file < length trees.now }
    requires members { All (λ n. n < length (file_at trees.now file).entries) members.now }
    requires stands { All (IsHeading trees.now) headings.old.items }
    ensures stands { IfOk result (λ none. All (IsHeading trees.now) headings.new.items) }
    ensures shown { IfOk result (λ none. map (heading_shown trees.now) headings.new.items ≡ map (heading_shown trees.now) headings.old.items ++ flat_map (λ n. heading_of (Some outer) (tree_in (file_at trees.now file) n)) members.now) }
{
    for member in members {
        let found = class_heading(trees, file, Some(outer), *member);
        add_found(headings, found)?;
    }
    Ok(())
}

/// Adds the head of a class, and those of the classes within it.
fn add_class(
    alloc: Global,
    trees: &[Tree],
    at: NodeId,
    headings: &mut Vec<Heading>,
) -> Result<(), NoMemory>
    requires node { IsNode trees.now at }
    requires stands { All (IsHeading trees.now) headings.old.items }
    ensures stands { IfOk result (λ none. All (IsHeading trees.now) headings.new.items) }
    ensures shown { IfOk result (λ none. map (heading_shown trees.now) headings.new.items ≡ map (heading_shown trees.now) headings.old.items ++ with_nested (length headings.old.items) (heading_of None (tree_of_node trees.now at))) }
{
    let number = headings.len();
    if number >= 0xffff_ffff {
        return Err(NoMemory::at_limit(headings.as_slice()));
    }
    match class_heading(trees, at.file, None, at.node) {
        None => Ok(()),
        Some(class) => {
            headings.push(class)?;
            let members = items(alloc, tree_of(trees, class.file), class.members)?;
            add_nested(trees, class.file, number as u32, &members, headings)?;
            Ok(())
        }
    }
}

/// Adds the nodes of a file's items.
fn add_items(
    alloc: Global,
    trees: &[Tree],
    file: u32,
    nodes: &mut Vec<NodeId>,
) -> Result<(), NoMemory>
    requires file { file < length trees.now }
    requires nodes { All (IsNode trees.now) nodes.old.items }
    ensures nodes { IfOk result (λ none. All (IsNode trees.now) nodes.new.items) }
    ensures shown { IfOk result (λ none. map (tree_of_node trees.now) nodes.new.items ≡ map (tree_of_node trees.now) nodes.old.items ++ listed (root (file_at trees.now file))) }
{
    let tree = tree_of(trees, file);
    let last = tree.nodes() - 1;
    let found = items(alloc, tree, last)?;
    for node in found.iter() {
        nodes.push(NodeId { file, node: *node })?;
    }
    Ok(())
}

/// The items of all files.
pub(crate) fn file_items(alloc: Global, trees: &[Tree]) -> Result<Vec<NodeId>, NoMemory>
    requires { length trees.now < 65 }
    ensures nodes { IfOk result (λ nodes. All (IsNode trees.now) nodes.items) }
    ensures shown { IfOk result (λ nodes. map (tree_of_node trees.now) nodes.items ≡ flat_map listed (map root trees.now)) }
{
    let mut nodes = Vec::new(alloc);
    let files = trees.len() as u32;
    for file in 0..files {
        add_items(alloc, trees, file, &mut nodes)?;
    }
    Ok(nodes)
}

/// The heads of all classes, an outer class before those within it.
pub(crate) fn all_headings(alloc: Global, trees: &[Tree]) -> Result<Vec<Heading>, NoMemory>
    requires { length trees.now < 65 }
    ensures stands { IfOk result (λ headings. All (IsHeading trees.now) headings.items) }
    ensures shown { IfOk result (λ headings. map (heading_shown trees.now) headings.items ≡ headings_of (map root trees.now)) }
{
    let tops = file_items(alloc, trees)?;
    let mut headings = Vec::new(alloc);
    for top in tops.iter() {
        add_class(alloc, trees, *top, &mut headings)?;
    }
    Ok(headings)
}
