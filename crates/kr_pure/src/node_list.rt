// Nodes in the order in which they were found, in few bytes each as long as they are of the first file.
ghost use Rattle.std.specs.Prelude.{◌≡◌, ◌<◌, ◌++◌, ◌∷◌, [], IfOk, OnOk, Some, length, slice_get};

use kr_ast::NodeId;
use kr_base::NoMemory;
use std::alloc::Global;
use std::marker::Model;

/// Nodes in order. Those before the first one of another file than the first are kept by their numbers in it. Contracts see the
/// list of the nodes.
#[derive(Drop)]
pub struct NodeList {
    near: Vec<u32>,
    others: Vec<NodeId>,
}

impl Model for NodeList {
    ghost use Rattle.kr_pure.specs.NodeLists.{Nodes, all_nodes};

    ghost Value = { Nodes };

    ghost view = { λ l. record { items = all_nodes l.near.items l.others.items } };
}

impl NodeList {
    /// No nodes, with room for so many of the first file.
    pub(crate) fn with_room(alloc: Global, count: usize) -> Result<NodeList, NoMemory>
        ensures { IfOk result (λ nodes. nodes.items ≡ []) }
    {
        Ok(NodeList {
            near: Vec::with_capacity(alloc, count)?,
            others: Vec::new(alloc),
        })
    }

    /// How many nodes there are.
    #[inline(always)]
    pub fn len(&self) -> usize
        ensures { result ≡ length self.now.items }
    {
        self.near.len() + self.others.len()
    }

    /// The node at an index.
    #[inline(always)]
    pub(crate) fn at(&self, index: usize) -> NodeId
        requires { index < length self.now.items }
        ensures { slice_get self.now.items index ≡ Some result }
    {
        let near = self.near.len();
        if index < near {
            NodeId {
                file: 0,
                node: self.near[index],
            }
        } else {
            self.others[index - near]
        }
    }

    /// Adds a node.
    #[inline(always)]
    pub(crate) fn push(&mut self, at: NodeId) -> Result<(), NoMemory>
        ensures { OnOk result (self.new.items ≡ self.old.items ++ at ∷ []) }
    {
        if at.file == 0 && self.others.is_empty() {
            self.near.push(at.node)?;
        } else {
            self.others.push(at)?;
        }
        Ok(())
    }
}
