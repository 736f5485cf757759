// The scopes of a tree's nodes, compactly: most nodes have the scope of their parent.
ghost use Rattle.std.specs.Prelude.{◌≡◌, ◌<◌, IfOk, OnOk, length, replicate, set, slice_index_or};
ghost use Rattle.kr_types_scopes.specs.Scoped.{nowhere};

use crate::Within;
use kr_base::NoMemory;
use std::alloc::Global;
use std::marker::Model;

/// The scopes of nodes: the distinct ones, and for each node the number of its own. Contracts see the list of the
/// nodes' scopes.
#[derive(Drop)]
pub struct WithinList {
    made: Vec<Within>,
    numbers: Vec<u32>,
}

impl Model for WithinList {
    ghost use Rattle.std.specs.Prelude.{◌<◌, All, length};
    ghost use Rattle.kr_types_scopes.specs.Kept.{Withins, kept};

    ghost Value = { Withins };

    ghost view = { λ l. record { items = kept l.made.items l.numbers.items } };

    ghost invariant = { λ l. All (λ k. k < length l.made.items) l.numbers.items };
}

impl WithinList {
    /// The scope outside classes, for each of `nodes` nodes.
    pub(crate) fn outside(alloc: Global, nodes: usize) -> Result<WithinList, NoMemory>
        ensures { IfOk result (λ l. l.items ≡ replicate nodes nowhere) }
    {
        let numbers = vec![in alloc; 0; nodes]?;
        let mut made = Vec::new(alloc);
        made.push(Within::outside())?;
        Ok(WithinList { made, numbers })
    }

    /// How many nodes there are.
    pub fn len(&self) -> usize
        ensures { result ≡ length self.now.items }
    {
        self.numbers.len()
    }

    /// The scope of a node.
    pub(crate) fn at(&self, node: u32) -> Within
        requires { node < length self.now.items }
        ensures { result ≡ slice_index_or self.now.items node nowhere }
    {
        self.made[self.numbers[node as usize] as usize]
    }

    /// Sets a node's scope to that of another.
    pub(crate) fn copy(&mut self, node: u32, from: u32)
        requires node { node < length self.old.items }
        requires from { from < length self.old.items }
        ensures { self.new.items ≡ set self.old.items node (slice_index_or self.old.items from nowhere) }
    {
        self.numbers[node as usize] = self.numbers[from as usize];
    }

    /// Sets a node's scope to a new one.
    pub(crate) fn put(&mut self, node: u32, here: Within) -> Result<(), NoMemory>
        requires { node < length self.old.items }
        ensures { OnOk result (self.new.items ≡ set self.old.items node here) }
    {
        let count = self.made.len();
        if count > 0xffff_ffff {
            return Err(NoMemory::at_limit(self.made.as_slice()));
        }
        self.made.push(here)?;
        self.numbers[node as usize] = count as u32;
        Ok(())
    }
}
