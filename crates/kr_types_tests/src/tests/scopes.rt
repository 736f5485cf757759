// The scopes of `class A { void m() { int x = x; } }`.
ghost use Rattle.std.specs.Prelude.{◌<◌, length};
ghost use Rattle.kr_types_scopes.specs.Scoped.{AreScopes};

use kr_ast::{Node, Primitive, Tree};
use kr_base::NoMemory;
use kr_sources::{Unread, tree_of};
use kr_types_scopes::{Scopes, judged_law, local_law};
use std::alloc::Global;

/// Whether a node is the type `int`.
fn is_int(tree: &Tree, node: Option<u32>) -> bool {
    match node {
        None => false,
        Some(node) => {
            node < tree.nodes()
                && matches!(
                    tree.entry(node).node,
                    Node::PrimitiveType {
                        primitive: Primitive::Int
                    }
                )
        }
    }
}

/// Whether `x` is the first local at a node, with the type `int`, and `y` is none.
fn has_local(tree: &Tree, scopes: &Scopes, node: u32) -> bool
    requires scopes { AreScopes tree.now scopes.now.bindings.items scopes.now.within.items }
    requires within { node < length tree.now.entries }
{
    match scopes.local(tree, node, b"x") {
        None => false,
        Some(local) => {
            local.number == 0
                && is_int(tree, local.declared)
                && scopes.local(tree, node, b"y").is_none()
        }
    }
}

/// The declared type at a node, if there is one.
fn declared_at(scopes: &Scopes, node: u32) -> Option<u32> {
    if (node as usize) < scopes.within.len() {
        scopes.at(node).declared
    } else {
        None
    }
}

/// Whether no local is in scope at a node.
fn has_no_locals(scopes: &Scopes, node: u32) -> bool {
    (node as usize) < scopes.within.len() && scopes.at(node).top == 0
}

/// Whether a node is one of these three, with the scope that it should have: the declared type, where `x` isn't in scope yet; the
/// declarator, which has that type; the initial value, where it is.
fn is_scoped(tree: &Tree, scopes: &Scopes, node: u32) -> bool
    requires scopes { AreScopes tree.now scopes.now.bindings.items scopes.now.within.items }
    requires within { node < length tree.now.entries }
{
    match tree.entry(node).node {
        Node::PrimitiveType {
            primitive: Primitive::Int,
        } => scopes.local(tree, node, b"x").is_none(),
        Node::Declarator { .. } => is_int(tree, declared_at(scopes, node)),
        Node::Variable { .. } => has_local(tree, scopes, node),
        _ => false,
    }
}

/// How many nodes have their scope so.
fn scoped_nodes(tree: &Tree, scopes: &Scopes) -> u32
    requires { AreScopes tree.now scopes.now.bindings.items scopes.now.within.items }
{
    let mut count: u32 = 0;
    for node in 0..tree.nodes() {
        if is_scoped(tree, scopes, node) {
            count = count.saturating_add(1);
        }
    }
    count
}

/// The three nodes have their scopes, and nothing is in scope at the last node, the whole tree.
fn scopes_fit(alloc: Global, tree: &Tree) -> Result<bool, NoMemory> {
    let scopes = Scopes::of(alloc, tree)?;
    Ok(scoped_nodes(tree, &scopes) == 3 && has_no_locals(&scopes, tree.nodes().saturating_sub(1)))
}

#[test]
fn a_local_is_in_scope_from_its_own_initial_value_on(rt: HostRuntime) -> Result<(), Unread> {
    let tree = tree_of(rt.alloc(), 0, "class A { void m() { int x = x; } }")?;
    let fit = scopes_fit(rt.alloc(), &tree)?;
    assert!(rt; fit);
    local_law();
    judged_law();
    Ok(())
}
