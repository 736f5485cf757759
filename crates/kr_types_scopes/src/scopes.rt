// The scopes of all nodes of a tree, from the last to the first: each from that of its parent.
ghost use Rattle.std.specs.Prelude.{◌≡◌, ℕ, ◌+◌, ◌≤◌, ◌<◌, List, [], length, slice_get, slice_index_or, Some, IfOk, IfSome, IfNone, OnOk};
ghost use Rattle.kr_ast.specs.Arena.{IsArena};
ghost use Rattle.kr_types_scopes.specs.declared.within.Binding.{Binding};
ghost use Rattle.kr_types_scopes.specs.Settings.{IsChain};
ghost use Rattle.kr_types_scopes.specs.Newest.{IsStart, MayBegin};
ghost use Rattle.kr_types_scopes.specs.Scoped.{nowhere, AreScopes, IsPlaced};
ghost use Rattle.kr_types_scopes.specs.Lookups.{IsLocalAt, IsNoLocalAt};

use crate::hand::hand_on;
use crate::lookup::{LocalFound, find_local};
use crate::node_scopes::NodeScopes;
use crate::starts::{own_name, starts_of};
use crate::stay::stays;
use crate::tasks::Tasks;
use crate::within::{Binding, Within};
use crate::within_list::WithinList;
use kr_ast::Tree;
use kr_base::NoMemory;
use std::alloc::Global;

/// The scopes of the nodes, and the locals that they name.
#[derive(Drop)]
pub struct Scopes {
    pub bindings: Vec<Binding>,
    pub within: NodeScopes,
}

/// Sets the scope of a part, from that of its parent.
fn add_scope(
    tree: &Tree,
    within: &mut WithinList,
    bindings: &mut Vec<Binding>,
    tasks: &mut Tasks,
    at: u32,
) -> Result<(), NoMemory>
    requires arena { IsArena tree.now.text tree.now.entries }
    requires at { at + 1 < length tree.now.entries }
    requires long { length within.old.items ≡ length tree.now.entries }
    requires tops { (k : ℕ) → (slice_index_or within.old.items k nowhere).top ≤ length bindings.old.items }
    requires chain { IsChain bindings.old.items }
    requires none { tasks.old ≡ [] }
    ensures placed { OnOk result (IsPlaced tree.now bindings.old.items bindings.new.items within.old.items within.new.items at) }
    ensures none { OnOk result (tasks.new ≡ []) }
{
    let entry = tree.entry(at);
    if stays(
        tree,
        within.at(entry.parent).role,
        entry.parent,
        entry.position,
    ) {
        within.copy(at, entry.parent);
        return Ok(());
    }
    let mut here = within.at(entry.parent);
    hand_on(
        tree,
        bindings,
        tasks,
        &mut here,
        entry.parent,
        entry.position,
    )?;
    within.put(at, here)
}

/// The place below which the search for a name begins where a node is: its own name has no local above its start.
fn search_top(tree: &Tree, here: Within, node: u32, name: &[u8]) -> usize
    requires { node < length tree.now.entries }
    ensures { (bs : List Binding) → here.top ≤ length bs → IsStart tree.now bs here.top node here.start → MayBegin tree.now bs here.top name.now result }
{
    match own_name(tree, node) {
        None => here.top,
        Some(own) => {
            if own == name {
                here.start as usize
            } else {
                here.top
            }
        }
    }
}

impl Scopes {
    /// The scopes of a tree's nodes.
    pub fn of(alloc: Global, tree: &Tree) -> Result<Scopes, NoMemory>
        ensures { IfOk result (λ s. AreScopes tree.now s.bindings.items s.within.items) }
    {
        let nodes = tree.nodes();
        let mut within = WithinList::outside(alloc, nodes as usize)?;
        let mut bindings = Vec::new(alloc);
        let mut tasks = Tasks::new(alloc);
        let mut at = nodes - 1;
        while at > 0 {
            at -= 1;
            add_scope(tree, &mut within, &mut bindings, &mut tasks, at)?;
        }
        let starts = starts_of(alloc, tree, &bindings, &within)?;
        let within = NodeScopes::new(within, starts);
        Ok(Scopes { bindings, within })
    }

    /// The scope of a node.
    pub fn at(&self, node: u32) -> Within
        requires { node < length self.now.within.items }
        ensures { result ≡ slice_index_or self.now.within.items node nowhere }
    {
        self.within.at(node)
    }

    /// The local or parameter that a name means at a node of the tree.
    pub fn local(&self, tree: &Tree, node: u32, name: &[u8]) -> Option<LocalFound>
        requires scopes { AreScopes tree.now self.now.bindings.items self.now.within.items }
        requires within { node < length tree.now.entries }
        ensures found { IfSome result (IsLocalAt tree.now self.now.bindings.items self.now.within.items node name.now) }
        ensures none { IfNone result (IsNoLocalAt tree.now self.now.bindings.items self.now.within.items node name.now) }
    {
        let here = self.at(node);
        let top = search_top(tree, here, node, name);
        find_local(tree, &self.bindings, top, name)
    }
}
