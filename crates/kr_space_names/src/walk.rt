// The nodes of a tree in source order.
ghost use Rattle.std.specs.Prelude.{◌≡◌, ◌<◌, ◌++◌, All, IfOk, OnOk, length, map, reverse};
ghost use Rattle.kr_space_names.specs.Vocabulary.{nodes, root, tree_in};
ghost use Rattle.kr_space_names.specs.Walks.{is_link as links, own};

use kr_ast::{Node, Tree};
use kr_base::NoMemory;
use std::alloc::Global;

/// Adds items, the last of them first.
#[inline(always)]
fn add_reversed(left: &mut Vec<u32>, items: &[u32]) -> Result<(), NoMemory>
    ensures { OnOk result (left.new.items ≡ left.old.items ++ reverse items.now) }
{
    left.reserve(items.len())?;
    let mut next = items.len();
    while next > 0 {
        next -= 1;
        left.push_reserved(items[next]);
    }
    Ok(())
}

/// Whether a node only holds a list together.
fn is_link(node: Node) -> bool
    ensures { result ≡ links node }
{
    match node {
        Node::Nil => true,
        Node::Cons { .. } => true,
        _ => false,
    }
}

/// Adds a node's number, where it is a node of its own.
fn add_own(found: &mut Vec<u32>, node: Node, number: u32) -> Result<(), NoMemory>
    ensures { OnOk result (found.new.items ≡ found.old.items ++ own node number) }
{
    if is_link(node) {
        return Ok(());
    }
    found.push(number)?;
    Ok(())
}

/// The nodes of a tree, each before those of its parts.
pub(crate) fn nodes_of(alloc: Global, tree: &Tree) -> Result<Vec<u32>, NoMemory>
    ensures within { IfOk result (λ found. All (λ n. n < length tree.now.entries) found.items) }
    ensures shown { IfOk result (λ found. map (tree_in tree.now) found.items ≡ nodes (root tree.now)) }
{
    let mut found = Vec::new(alloc);
    let mut left = Vec::new(alloc);
    left.push(tree.nodes() - 1)?;
    while let Some(node) = left.pop() {
        let entry = tree.entry(node);
        add_own(&mut found, entry.node, node)?;
        let parts = entry.node.parts();
        add_reversed(&mut left, parts.as_slice())?;
    }
    Ok(found)
}
