// The scope that a node hands to each of its parts.
ghost use Rattle.std.specs.Prelude.{◌≡◌, List, ◌≤◌, ◌<◌, [], length, OnOk};
ghost use Rattle.kr_ast.specs.Arena.{tree_in};
ghost use Rattle.kr_types_meaning.specs.Scopes.{after};
ghost use Rattle.kr_types_scopes.specs.declared.within.Binding.{Binding};
ghost use Rattle.kr_types_scopes.specs.Settings.{Setting, IsChain, scope_in};
ghost use Rattle.kr_types_meaning.specs.Handing.{handed, second, third, for_part, signals_part};
ghost use Rattle.kr_types_scopes.specs.Tasks.{IsStep, HandsPlainly};

use crate::after::after;
use crate::bindings::bind_declared;
use crate::change::{apply, first_change, rest_change};
use crate::tasks::Tasks;
use crate::within::{Binding, Part, Role, Within};
use kr_ast::{Node, Tree};
use kr_base::NoMemory;

/// Turns a scope into the one after a node, for a later part; for the first part it stays.
fn after_first(
    tree: &Tree,
    bindings: &mut Vec<Binding>,
    tasks: &mut Tasks,
    here: &mut Within,
    first: u32,
    position: u8,
) -> Result<(), NoMemory>
    requires at { first < length tree.now.entries }
    requires top { here.old.top ≤ length bindings.old.items }
    requires chain { IsChain bindings.old.items }
    requires none { tasks.old ≡ [] }
    ensures made { OnOk result (IsStep tree.now bindings.old.items bindings.new.items here.new (λ g. second position (scope_in g bindings.old.items here.old) (after (scope_in g bindings.old.items here.old) (tree_in g.tree first)))) }
    ensures none { OnOk result (tasks.new ≡ []) }
{
    if position == 0 {
        Ok(())
    } else {
        after(tree, bindings, tasks, here, first)
    }
}

/// Turns a scope into that of a part of a signature: after its parameters for the contracts.
fn after_signature(
    tree: &Tree,
    bindings: &mut Vec<Binding>,
    tasks: &mut Tasks,
    here: &mut Within,
    node: u32,
    position: u8,
) -> Result<(), NoMemory>
    requires at { node < length tree.now.entries }
    requires top { here.old.top ≤ length bindings.old.items }
    requires chain { IsChain bindings.old.items }
    requires none { tasks.old ≡ [] }
    ensures made { OnOk result (IsStep tree.now bindings.old.items bindings.new.items here.new (λ g. third position (scope_in g bindings.old.items here.old) (after (scope_in g bindings.old.items here.old) (tree_in g.tree node)))) }
    ensures none { OnOk result (tasks.new ≡ []) }
{
    if position < 2 {
        Ok(())
    } else {
        after(tree, bindings, tasks, here, node)
    }
}

/// Turns a scope into that of a part of a `for`, after its initial statements.
fn in_for(here: &mut Within, position: u8)
    ensures top { here.new.top ≡ here.old.top }
    ensures scope { (g : Setting) (bs : List Binding) → scope_in g bs here.new ≡ for_part position (scope_in g bs here.old) }
{
    if position == 2 {
        here.role = Role::AsStatement;
    } else if position > 2 {
        here.is_in_loop = true;
    }
}

/// Turns a scope into that of a part of a `signals` clause, after what it declares.
fn in_signals(here: &mut Within, position: u8)
    ensures top { here.new.top ≡ here.old.top }
    ensures scope { (g : Setting) (bs : List Binding) → scope_in g bs here.new ≡ signals_part position (scope_in g bs here.old) }
{
    if position > 0 {
        here.part = Part::Signalling;
        here.role = Role::AsValue;
    }
}

/// Turns a scope into that of a part of a node that declares no local.
fn plainly(here: &mut Within, at: u32, node: Node, position: u8)
    ensures top { here.new.top ≤ here.old.top }
    ensures handed { HandsPlainly here.old at node position here.new }
{
    if position == 0 {
        apply(here, at, first_change(node))
    } else {
        apply(here, at, rest_change(node))
    }
}

/// Turns a node's scope into that of a part.
#[inline(never)]
pub(crate) fn hand_on(
    tree: &Tree,
    bindings: &mut Vec<Binding>,
    tasks: &mut Tasks,
    here: &mut Within,
    node: u32,
    position: u8,
) -> Result<(), NoMemory>
    requires at { node < length tree.now.entries }
    requires top { here.old.top ≤ length bindings.old.items }
    requires chain { IsChain bindings.old.items }
    requires none { tasks.old ≡ [] }
    ensures made { OnOk result (IsStep tree.now bindings.old.items bindings.new.items here.new (λ g. handed (scope_in g bindings.old.items here.old) (tree_in g.tree node) position)) }
    ensures none { OnOk result (tasks.new ≡ []) }
{
    let entry = tree.entry(node);
    match entry.node {
        Node::Cons { first, .. } => after_first(tree, bindings, tasks, here, first, position),
        Node::Declarator { name, .. } => bind_declared(tree, bindings, here, name),
        Node::For { initial, .. } => {
            after_first(tree, bindings, tasks, here, initial, position)?;
            in_for(here, position);
            Ok(())
        }
        Node::Method {
            is_static,
            signature,
            ..
        } => {
            here.is_static = is_static;
            after_first(tree, bindings, tasks, here, signature, position)
        }
        Node::Signature { .. } => after_signature(tree, bindings, tasks, here, node, position),
        Node::Catch { declared, .. } => {
            after_first(tree, bindings, tasks, here, declared, position)
        }
        Node::Signals { declared, .. } => {
            after_first(tree, bindings, tasks, here, declared, position)?;
            in_signals(here, position);
            Ok(())
        }
        Node::Constructor { parameters, .. } => {
            after_first(tree, bindings, tasks, here, parameters, position)
        }
        _ => {
            plainly(here, node, entry.node, position);
            Ok(())
        }
    }
}
