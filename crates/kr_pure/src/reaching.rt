// The walk over the predicate's code.
ghost use Rattle.std.specs.Prelude.{◌≡◌, Some, All, IfOk, IsTrue, map, slice_get};
ghost use Rattle.kr_ast.specs.declared.node.Entry.{Entry as EntryMeant};
ghost use Rattle.kr_ast.specs.Files.{IsNode};
ghost use Rattle.kr_types.specs.Programs.{IsProgram};
ghost use Rattle.kr_pure.specs.Walk.{walk_parts};
ghost use Rattle.kr_pure.specs.Found.{AreFound, IsAdded};
ghost use Rattle.kr_code_members.specs.Nodes.{AreMemberNodes, arena_at};
ghost use Rattle.kr_space_problem.specs.Posed.{IsPosed};
ghost use Rattle.kr_space_problem.specs.Subjects.{IsSubject};
ghost use Rattle.kr_pure.specs.Reach.{AreArenas, ArePredicateCode, IsBelow, IsStep, IsWalked, RunsNothing, beside};

use crate::entries::entries_run;
use crate::node_list::NodeList;
use crate::roots::root_entries;
use crate::{Found, count_nodes};
use kr_ast::{Node, NodeId, Parts, tree_of};
use kr_base::NoMemory;
use kr_code_members::MemberNodes;
use kr_space_problem::{Problem, Subject};
use kr_types::Program;
use std::alloc::Global;

/// The parts that the walk goes into: nodes in a type are no code.
fn walked_parts(node: Node) -> Parts
    ensures { result ≡ walk_parts node }
{
    match node {
        Node::GenericType { .. } | Node::DiamondType { .. } | Node::ArrayType { .. } => {
            Node::Nil.parts()
        }
        _ => node.parts(),
    }
}

/// Adds the parts of a node.
fn add_parts(program: &Program, at: NodeId, found: &mut Found) -> Result<(), NoMemory>
    requires program { IsProgram program.now }
    requires node { IsNode program.now.trees.items at }
    requires found { AreFound program.now.trees.items found.old }
    ensures found { IfOk result (λ done. AreFound program.now.trees.items found.new) }
    ensures added { IfOk result (λ done. (e : EntryMeant) → slice_get (arena_at program.now at.file).entries at.node ≡ Some e → IsAdded found.old.nodes.items (map (beside at) (walk_parts e.node)) found.new.nodes.items) }
{
    let entry = tree_of(&program.trees, at.file).entry(at.node);
    let parts = walked_parts(entry.node);
    for part in parts.as_slice() {
        let beside = NodeId {
            file: at.file,
            node: *part,
        };
        found.add(&program.trees, beside)?;
    }
    Ok(())
}

/// Whether a node of this kind runs no other code: it calls nothing, and creates no object.
fn runs_nothing(node: Node) -> bool
    ensures { IsTrue result → RunsNothing node }
{
    match node {
        Node::Call { .. }
        | Node::MethodCall { .. }
        | Node::SuperCall { .. }
        | Node::ObjectCreation { .. } => false,
        _ => true,
    }
}

/// Adds the parts of a node, and the entries of what it may run.
fn follow(
    alloc: Global,
    problem: &Problem,
    nodes: &MemberNodes,
    at: NodeId,
    found: &mut Found,
) -> Result<(), NoMemory>
    requires posed { IsPosed problem.now }
    requires arenas { AreArenas problem.now.program.trees.items }
    requires nodes { AreMemberNodes problem.now.program nodes.now }
    requires node { IsNode problem.now.program.trees.items at }
    requires found { AreFound problem.now.program.trees.items found.old }
    ensures found { IfOk result (λ done. AreFound problem.now.program.trees.items found.new) }
    ensures step { IfOk result (λ done. IsStep problem.now at found.old.nodes.items found.new.nodes.items) }
{
    let program = &problem.program;
    add_parts(program, at, found)?;
    let entry = tree_of(&program.trees, at.file).entry(at.node);
    if runs_nothing(entry.node) {
        return Ok(());
    }
    let entries = entries_run(alloc, problem, nodes, at)?;
    found.add_all(&program.trees, &entries)
}

/// Follows each node that is found.
fn walk_on(
    alloc: Global,
    problem: &Problem,
    nodes: &MemberNodes,
    found: &mut Found,
) -> Result<(), NoMemory>
    requires posed { IsPosed problem.now }
    requires arenas { AreArenas problem.now.program.trees.items }
    requires nodes { AreMemberNodes problem.now.program nodes.now }
    requires found { AreFound problem.now.program.trees.items found.old }
    requires below { All (IsBelow problem.now) found.old.nodes.items }
    ensures found { IfOk result (λ done. AreFound problem.now.program.trees.items found.new) }
    ensures walked { IfOk result (λ done. IsWalked problem.now found.old.nodes.items found.new.nodes.items) }
{
    let mut next = 0;
    while next < found.nodes.len() {
        let at = found.nodes.at(next);
        follow(alloc, problem, nodes, at, found)?;
        next += 1;
    }
    Ok(())
}

/// The nodes of the predicate's code.
pub fn predicate_nodes(
    alloc: Global,
    problem: &Problem,
    subject: &Subject,
) -> Result<NodeList, NoMemory>
    requires posed { IsPosed problem.now }
    requires subject { IsSubject problem.now subject.now }
    ensures { IfOk result (λ nodes. ArePredicateCode problem.now nodes.items) }
{
    let trees = problem.program.trees.as_slice();
    let count = count_nodes(trees);
    let mut found = Found::none(alloc, trees, count)?;
    let entries = root_entries(alloc, problem, subject)?;
    found.add_all(trees, &entries)?;
    walk_on(alloc, problem, &subject.members, &mut found)?;
    Ok(found.into_nodes())
}
