// The scopes of a tree's nodes, each with the place where the search for the node's own name begins.
ghost use Rattle.std.specs.Prelude.{◌≡◌, ◌<◌, length, slice_index_or};
ghost use Rattle.kr_types_scopes.specs.Kept.{begun};
ghost use Rattle.kr_types_scopes.specs.Scoped.{nowhere};

use crate::within::Within;
use crate::within_list::WithinList;
use std::marker::Model;

/// Scopes of nodes, and of each node where the search for its own name begins. Contracts see the list of the scopes.
#[derive(Drop)]
pub struct NodeScopes {
    list: WithinList,
    starts: Vec<u32>,
}

impl Model for NodeScopes {
    ghost use Rattle.std.specs.Prelude.{◌≡◌, length};
    ghost use Rattle.kr_types_scopes.specs.Kept.{Withins, begun};

    ghost Value = { Withins };

    ghost view = { λ l. record { items = begun l.list.items l.starts.items } };

    ghost invariant = { λ l. length l.starts.items ≡ length l.list.items };
}

impl NodeScopes {
    /// Scopes with the places where searches begin.
    pub(crate) fn new(list: WithinList, starts: Vec<u32>) -> NodeScopes
        requires { length starts.items ≡ length list.items }
        ensures { result.items ≡ begun list.items starts.items }
    {
        NodeScopes { list, starts }
    }

    /// How many nodes there are.
    pub fn len(&self) -> usize
        ensures { result ≡ length self.now.items }
    {
        self.starts.len()
    }

    /// The scope of a node.
    pub(crate) fn at(&self, node: u32) -> Within
        requires { node < length self.now.items }
        ensures { result ≡ slice_index_or self.now.items node nowhere }
    {
        let mut here = self.list.at(node);
        here.start = self.starts[node as usize];
        here
    }
}
