// The scope after a node: its declarations are in scope for the following nodes.
ghost use Rattle.std.specs.Prelude.{◌≡◌, ◌≤◌, ◌<◌, [], length, OnOk};
ghost use Rattle.kr_ast.specs.Arena.{tree_in};
ghost use Rattle.kr_types_meaning.specs.Scopes.{after};
ghost use Rattle.kr_types_scopes.specs.Settings.{IsChain, scope_in};
ghost use Rattle.kr_types_scopes.specs.declared.tasks.Task.TheVariants.{Pass};
ghost use Rattle.kr_types_scopes.specs.Tasks.{IsStep, IsPassed, node_of};

use crate::bindings::{bind, bind_declared};
use crate::tasks::{Task, Tasks};
use crate::within::{Binding, Declaring, Within};
use kr_ast::{Node, Tree};
use kr_base::NoMemory;

/// Passes a node, as far as its parts: those are tasks.
fn pass_node(
    tree: &Tree,
    bindings: &mut Vec<Binding>,
    tasks: &mut Tasks,
    here: &mut Within,
    node: u32,
) -> Result<(), NoMemory>
    requires at { node < length tree.now.entries }
    requires top { here.old.top ≤ length bindings.old.items }
    requires chain { IsChain bindings.old.items }
    ensures { OnOk result (IsPassed tree.now bindings.old.items bindings.new.items here.old (Pass node) tasks.old tasks.new here.new) }
{
    match tree.entry(node).node {
        Node::Cons { first, rest } => {
            tasks.push(Task::Pass(rest))?;
            tasks.push(Task::Pass(first))?;
            Ok(())
        }
        Node::Local {
            declared,
            declarators,
        } => {
            here.declaring = Declaring::Locals;
            here.declared = Some(declared);
            tasks.push(Task::Pass(declarators))?;
            Ok(())
        }
        Node::Signature {
            result,
            parameters,
            ..
        } => {
            tasks.push(Task::SetResult(result))?;
            tasks.push(Task::Pass(parameters))?;
            Ok(())
        }
        Node::Declarator { name, .. } => bind_declared(tree, bindings, here, name),
        Node::Parameter { declared, name } => bind(tree, bindings, here, name, Some(declared)),
        _ => Ok(()),
    }
}

/// Does a task, but for tasks of its own.
fn pass(
    tree: &Tree,
    bindings: &mut Vec<Binding>,
    tasks: &mut Tasks,
    here: &mut Within,
    task: Task,
) -> Result<(), NoMemory>
    requires at { node_of task < length tree.now.entries }
    requires top { here.old.top ≤ length bindings.old.items }
    requires chain { IsChain bindings.old.items }
    ensures { OnOk result (IsPassed tree.now bindings.old.items bindings.new.items here.old task tasks.old tasks.new here.new) }
{
    match task {
        Task::Pass(node) => pass_node(tree, bindings, tasks, here, node),
        Task::SetResult(result) => {
            here.result = Some(result);
            Ok(())
        }
    }
}

/// Turns a scope into the one after a node, part by part.
fn walk(
    tree: &Tree,
    bindings: &mut Vec<Binding>,
    tasks: &mut Tasks,
    here: &mut Within,
    node: u32,
) -> Result<(), NoMemory>
    requires at { node < length tree.now.entries }
    requires top { here.old.top ≤ length bindings.old.items }
    requires chain { IsChain bindings.old.items }
    requires none { tasks.old ≡ [] }
    ensures made { OnOk result (IsStep tree.now bindings.old.items bindings.new.items here.new (λ g. after (scope_in g bindings.old.items here.old) (tree_in g.tree node))) }
    ensures none { OnOk result (tasks.new ≡ []) }
{
    pass_node(tree, bindings, tasks, here, node)?;
    while let Some(task) = tasks.pop() {
        pass(tree, bindings, tasks, here, task)?;
    }
    Ok(())
}

/// Turns a scope into the one after a node; most nodes leave it unchanged.
pub fn after(
    tree: &Tree,
    bindings: &mut Vec<Binding>,
    tasks: &mut Tasks,
    here: &mut Within,
    node: u32,
) -> Result<(), NoMemory>
    requires at { node < length tree.now.entries }
    requires top { here.old.top ≤ length bindings.old.items }
    requires chain { IsChain bindings.old.items }
    requires none { tasks.old ≡ [] }
    ensures made { OnOk result (IsStep tree.now bindings.old.items bindings.new.items here.new (λ g. after (scope_in g bindings.old.items here.old) (tree_in g.tree node))) }
    ensures none { OnOk result (tasks.new ≡ []) }
{
    match tree.entry(node).node {
        Node::Cons { .. } => walk(tree, bindings, tasks, here, node),
        Node::Local { .. } => walk(tree, bindings, tasks, here, node),
        Node::Signature { .. } => walk(tree, bindings, tasks, here, node),
        Node::Declarator { .. } => walk(tree, bindings, tasks, here, node),
        Node::Parameter { .. } => walk(tree, bindings, tasks, here, node),
        _ => Ok(()),
    }
}
