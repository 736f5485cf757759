// From where on the search for each node's own name may begin.
ghost use Rattle.std.specs.Prelude.{◌≡◌, ◌<◌, ◌≤◌, ◌^◌, ℕ, IfOk, length, option_map, slice_index_or};
ghost use Rattle.kr_ast.specs.Arena.{IsArena, tree_in};
ghost use Rattle.kr_types_scopes.specs.Settings.{AreNamed, IsChain};
ghost use Rattle.kr_types_scopes.specs.Scoped.{AreStarts, nowhere};
ghost use Rattle.kr_types_scopes.specs.Newest.{IsNoted, IsStart, own_name};

use crate::newest::Newest;
use crate::within::Binding;
use crate::within_list::WithinList;
use kr_ast::{Node, Tree};
use kr_base::NoMemory;
use std::alloc::Global;

/// The name of a local or parameter that a node uses or declares.
#[inline(always)]
pub(crate) fn own_name(tree: &Tree, node: u32) -> Option<&[u8]>
    requires { node < length tree.now.entries }
    ensures { option_map (λ n. n.now) result ≡ own_name (tree_in tree.now node) }
{
    match tree.entry(node).node {
        Node::Variable { name } => Some(tree.name(name)),
        Node::Declarator { name, .. } => Some(tree.name(name)),
        Node::Parameter { name, .. } => Some(tree.name(name)),
        _ => None,
    }
}

/// Where the search for a node's own name may begin.
fn start_of(
    alloc: Global,
    tree: &Tree,
    bindings: &[Binding],
    newest: &mut Newest,
    node: u32,
    top: usize,
) -> Result<usize, NoMemory>
    requires at { node < length tree.now.entries }
    requires few { length bindings.now < 2 ^ 32 }
    requires top { top ≤ length bindings.now }
    requires chain { IsChain bindings.now }
    requires named { AreNamed tree.now bindings.now }
    requires noted { IsNoted tree.now bindings.now newest.old }
    ensures start { IfOk result (IsStart tree.now bindings.now top node) }
    ensures within { IfOk result (λ start. start ≤ length bindings.now) }
    ensures noted { IfOk result (λ start. IsNoted tree.now bindings.now newest.new) }
{
    match own_name(tree, node) {
        None => Ok(top),
        Some(name) => {
            newest.go_to(alloc, tree, bindings, top)?;
            Ok(newest.start(name, top))
        }
    }
}

/// Where the search for the own name of each node may begin, from the last node to the first, as the bindings were made.
pub(crate) fn starts_of(
    alloc: Global,
    tree: &Tree,
    bindings: &[Binding],
    within: &WithinList,
) -> Result<Vec<u32>, NoMemory>
    requires long { length within.now.items ≡ length tree.now.entries }
    requires tops { (k : ℕ) → (slice_index_or within.now.items k nowhere).top ≤ length bindings.now }
    requires chain { IsChain bindings.now }
    requires named { AreNamed tree.now bindings.now }
    ensures count { IfOk result (λ starts. length starts.items ≡ length tree.now.entries) }
    ensures starts { IfOk result (λ starts. AreStarts tree.now bindings.now within.now.items starts.items 0) }
{
    if bindings.len() >= 0xffff_ffff {
        return Err(NoMemory::at_limit(bindings));
    }
    let nodes = tree.nodes();
    let mut starts = vec![in alloc; 0; nodes as usize]?;
    let mut newest = Newest::new(alloc);
    let mut at = nodes;
    while at > 0 {
        at -= 1;
        let top = within.at(at).top;
        starts[at as usize] = start_of(alloc, tree, bindings, &mut newest, at, top)? as u32;
    }
    Ok(starts)
}
