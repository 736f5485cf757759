// Nodes of files that are found one after another, each once.
ghost use Rattle.std.specs.Prelude.{◌≡◌, ◌<◌, ◌^◌, ◌∷◌, [], All, IfOk, length};
ghost use Rattle.kr_ast.specs.Arena.{IsArena};
ghost use Rattle.kr_ast.specs.Files.{IsNode};
ghost use Rattle.kr_pure.specs.Found.{AreFound, IsAdded, number_of};
ghost use Rattle.kr_types.specs.Programs.{all_entries};

use crate::node_list::NodeList;
use kr_ast::{NodeId, Tree, tree_of};
use kr_base::NoMemory;
use std::alloc::Global;

/// The number of a node among those of all files. Those of the first file come first.
fn number_of(trees: &[Tree], at: NodeId) -> usize
    requires few { length (all_entries trees.now) < 2 ^ 32 }
    requires node { IsNode trees.now at }
    ensures number { result ≡ number_of trees.now at }
    ensures within { result < length (all_entries trees.now) }
{
    let mut before = 0;
    for file in 0..at.file {
        before += tree_of(trees, file).nodes() as usize;
    }
    before + at.node as usize
}

/// How many nodes all files have.
pub fn count_nodes(trees: &[Tree]) -> usize
    requires { length (all_entries trees.now) < 2 ^ 32 }
    ensures count { result ≡ length (all_entries trees.now) }
    ensures arenas { All (λ a. IsArena a.text a.entries) trees.now }
{
    let mut count = 0;
    for tree in trees {
        count += tree.nodes() as usize;
    }
    count
}

/// The nodes in the order in which they were found, and which of all nodes these are.
#[derive(Drop)]
pub struct Found {
    pub nodes: NodeList,
    marks: Vec<bool>,
}

impl Found {
    /// None of the files' nodes.
    pub fn none(alloc: Global, trees: &[Tree], count: usize) -> Result<Found, NoMemory>
        requires { count ≡ length (all_entries trees.now) }
        ensures none { IfOk result (λ found. found.nodes.items ≡ []) }
        ensures found { IfOk result (λ found. AreFound trees.now found) }
    {
        let marks = vec![in alloc; false; count]?;
        let nodes = NodeList::with_room(alloc, count)?;
        Ok(Found { nodes, marks })
    }

    /// Adds a node that wasn't found before.
    pub fn add(&mut self, trees: &[Tree], at: NodeId) -> Result<(), NoMemory>
        requires few { length (all_entries trees.now) < 2 ^ 32 }
        requires node { IsNode trees.now at }
        requires found { AreFound trees.now self.old }
        ensures found { IfOk result (λ done. AreFound trees.now self.new) }
        ensures added { IfOk result (λ done. IsAdded self.old.nodes.items (at ∷ []) self.new.nodes.items) }
    {
        let number = number_of(trees, at);
        if self.marks[number] {
            return Ok(());
        }
        self.nodes.push(at)?;
        self.marks[number] = true;
        Ok(())
    }

    /// Adds those of these nodes that weren't found before.
    pub fn add_all(&mut self, trees: &[Tree], nodes: &[NodeId]) -> Result<(), NoMemory>
        requires few { length (all_entries trees.now) < 2 ^ 32 }
        requires nodes { All (IsNode trees.now) nodes.now }
        requires found { AreFound trees.now self.old }
        ensures found { IfOk result (λ done. AreFound trees.now self.new) }
        ensures added { IfOk result (λ done. IsAdded self.old.nodes.items nodes.now self.new.nodes.items) }
    {
        for at in nodes {
            self.add(trees, *at)?;
        }
        Ok(())
    }

    /// The nodes that were found. It takes no memory.
    pub fn into_nodes(self) -> NodeList
        ensures { result.items ≡ self.nodes.items }
    {
        self.nodes
    }
}
