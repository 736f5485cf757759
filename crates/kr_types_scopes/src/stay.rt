// Parts with the same scope as their parent.
ghost use Rattle.std.specs.Prelude.{◌≡◌, ◌<◌, ℕ, IsTrue, List, length};
ghost use Rattle.kr_ast.specs.Arena.{tree_in};
ghost use Rattle.kr_types_meaning.specs.Handing.{handed};
ghost use Rattle.kr_types_scopes.specs.declared.within.Binding.{Binding};
ghost use Rattle.kr_types_scopes.specs.declared.within.Within.{Within as Kept};
ghost use Rattle.kr_types_scopes.specs.Settings.{Setting, scope_in};
ghost use Rattle.kr_types_scopes.specs.Changes.{changed};
ghost use Rattle.kr_types_scopes.specs.Tasks.{Leaves, StaysPlainly};

use crate::Role;
use crate::change::{Change, first_change, rest_change};
use kr_ast::{Node, Tree};

/// Whether a change leaves a scope with this role unchanged.
#[inline(always)]
fn changes_nothing(change: Change, role: Role) -> bool
    ensures { (g : Setting) (at : ℕ) (bs : List Binding) (w : Kept) → w.role ≡ role → IsTrue result → changed g at (scope_in g bs w) change ≡ scope_in g bs w }
{
    match change {
        Change::Same => true,
        Change::Value => match role {
            Role::AsValue => true,
            _ => false,
        },
        _ => false,
    }
}

/// Whether a part of a node that declares no local has the node's scope, which has this role.
#[inline(always)]
fn stays_plainly(node: Node, position: u8, role: Role) -> bool
    ensures { IsTrue result → StaysPlainly node position role }
{
    if position == 0 {
        changes_nothing(first_change(node), role)
    } else {
        changes_nothing(rest_change(node), role)
    }
}

/// Whether a node leaves the scope unchanged.
#[inline(always)]
fn leaves_scope(node: Node) -> bool
    ensures { IsTrue result → Leaves node }
{
    match node {
        Node::Cons { .. }
        | Node::Local { .. }
        | Node::Signature { .. }
        | Node::Declarator { .. }
        | Node::Parameter { .. } => false,
        _ => true,
    }
}

/// Whether a part has the scope of its parent, which has this role. It may have even if the answer is no.
#[inline(always)]
pub(crate) fn stays(tree: &Tree, role: Role, node: u32, position: u8) -> bool
    requires { node < length tree.now.entries }
    ensures { (g : Setting) (bs : List Binding) (w : Kept) → g.tree ≡ tree.now → w.role ≡ role → IsTrue result → handed (scope_in g bs w) (tree_in tree.now node) position ≡ scope_in g bs w }
{
    let above = tree.entry(node).node;
    match above {
        Node::Cons { first, .. } => position == 0 || leaves_scope(tree.entry(first).node),
        Node::Declarator { .. } | Node::For { .. } | Node::Method { .. } => false,
        Node::Signature { .. } => position < 2,
        Node::Constructor { .. } | Node::Catch { .. } | Node::Signals { .. } => position == 0,
        _ => stays_plainly(above, position, role),
    }
}
