// The nodes of all classes, in file and source order.
ghost use Rattle.std.specs.Prelude.{◌≡◌, ◌++◌, ◌<◌, [], ℕ, List, Option, None, All, IfOk, MatchOption, flat_map, map, length, option_to_list};
ghost use Rattle.kr_ast.specs.Arena.{root};
ghost use Rattle.kr_ast.specs.Tree.{Tree};
ghost use Rattle.kr_classes_table.specs.Table.{Heading, heading_of, headings_from, items as listed, with_nested};
ghost use Rattle.std.specs.List.{AllZip};
ghost use Rattle.kr_types.specs.Programs.{IsProgram};
ghost use Rattle.kr_code_members.specs.Nodes.{AreShaped, arena_at, node_tree, table};
ghost use Rattle.kr_code_members.specs.Walk.{HasHeading, IsItem, IsMemberList, members_of};

use crate::nodes::{entry, tree_at};
use kr_ast::{Node, NodeId};
use kr_base::{NoMemory, add_found};
use kr_classes_names::items;
use kr_types::Program;
use std::alloc::Global;

/// The list of the members of the class that a node is.
#[tactic(auto, using(crate::proofs::Nested::is_member_list))]
pub(crate) fn member_list(program: &Program, file: u32, node: u32) -> Option<u32>
    requires program { IsProgram program.now }
    requires node { IsItem program.now file node }
    ensures { MatchOption result ((o : Option ℕ) → heading_of o (node_tree program.now file node) ≡ []) (λ l. IsMemberList program.now file node l) }
{
    match entry(program, file, node).node {
        Node::Class { members, .. } => Some(members),
        _ => None,
    }
}

/// A node that is a class.
fn class_node(program: &Program, file: u32, node: u32) -> Option<NodeId>
    requires { IsItem program.now file node }
    ensures { (o : Option ℕ) → AllZip (HasHeading program.now) (heading_of o (node_tree program.now file node)) (option_to_list result) }
{
    match entry(program, file, node).node {
        Node::Class { .. } => Some(NodeId { file, node }),
        _ => None,
    }
}

/// The members of the class that a node is; none if it is no class.
fn nested(alloc: Global, program: &Program, file: u32, node: u32) -> Result<Vec<u32>, NoMemory>
    requires program { IsProgram program.now }
    requires node { IsItem program.now file node }
    ensures stand { IfOk result (λ nodes. All (IsItem program.now file) nodes.items) }
    ensures shown { (o : Option ℕ) → IfOk result (λ nodes. flat_map members_of (heading_of o (node_tree program.now file node)) ≡ map (node_tree program.now file) nodes.items) }
{
    match member_list(program, file, node) {
        None => Ok(Vec::new(alloc)),
        Some(list) => {
            let found = items(alloc, tree_at(program, file), list)?;
            Ok(found)
        }
    }
}

/// Adds the class that a node is, and those among its members.
fn add_class(
    alloc: Global,
    program: &Program,
    file: u32,
    node: u32,
    classes: &mut Vec<NodeId>,
) -> Result<(), NoMemory>
    requires program { IsProgram program.now }
    requires node { IsItem program.now file node }
    ensures { (k : ℕ) (before : List Heading) → IfOk result (λ none. AllZip (HasHeading program.now) before classes.old.items → AllZip (HasHeading program.now) (before ++ with_nested k (heading_of None (node_tree program.now file node))) classes.new.items) }
{
    add_found(classes, class_node(program, file, node))?;
    let members = nested(alloc, program, file, node)?;
    for member in members.iter() {
        add_found(classes, class_node(program, file, *member))?;
    }
    Ok(())
}

/// The items of a file.
#[tactic(auto, using(crate::proofs::Nested::file_items_are, crate::proofs::Nested::last_items))]
fn file_items(alloc: Global, program: &Program, file: u32) -> Result<Vec<u32>, NoMemory>
    requires shaped { AreShaped program.now }
    requires file { file < length program.now.trees.items }
    ensures stand { IfOk result (λ nodes. All (IsItem program.now file) nodes.items) }
    ensures shown { IfOk result (λ nodes. map (node_tree program.now file) nodes.items ≡ listed (root (arena_at program.now file))) }
{
    let tree = tree_at(program, file);
    let found = items(alloc, tree, tree.nodes() - 1)?;
    Ok(found)
}

/// Adds the classes of a file.
fn add_file(
    alloc: Global,
    program: &Program,
    file: u32,
    classes: &mut Vec<NodeId>,
) -> Result<(), NoMemory>
    requires program { IsProgram program.now }
    requires shaped { AreShaped program.now }
    requires file { file < length program.now.trees.items }
    ensures { (before : List Tree) → IfOk result (λ none. AllZip (HasHeading program.now) (headings_from 0 before) classes.old.items → AllZip (HasHeading program.now) (headings_from 0 (before ++ listed (root (arena_at program.now file)))) classes.new.items) }
{
    let tops = file_items(alloc, program, file)?;
    for top in tops.iter() {
        add_class(alloc, program, file, *top, classes)?;
    }
    Ok(())
}

/// The classes by their numbers.
pub(crate) fn class_nodes(alloc: Global, program: &Program) -> Result<Vec<NodeId>, NoMemory>
    requires program { IsProgram program.now }
    requires shaped { AreShaped program.now }
    ensures { IfOk result (λ classes. AllZip (HasHeading program.now) (table program.now).headings classes.items) }
{
    let mut classes = Vec::new(alloc);
    let files = program.trees.len() as u32;
    for file in 0..files {
        add_file(alloc, program, file, &mut classes)?;
    }
    Ok(classes)
}
