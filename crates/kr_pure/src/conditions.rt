// The conditions of contracts, as entries of code.
ghost use Rattle.std.specs.Prelude.{◌≡◌, ◌++◌, [], List, IfOk, MatchOption, flat_map};
ghost use Rattle.kr_classes_table.specs.Table.{items};
ghost use Rattle.kr_types_meaning.specs.Running.{running};
ghost use Rattle.kr_laws_types.specs.Derivation.{AreContractLines};
ghost use Rattle.kr_types.specs.Programs.{IsProgram};
ghost use Rattle.kr_mean.specs.Code.{Node as CodeNode};
ghost use Rattle.kr_code_members.specs.Nodes.{IsThere, node_scope, node_tree};
ghost use Rattle.kr_pure.specs.Entries.{Enter, IsCondition, IsLine, line_code, stated};

use kr_ast::{Node, NodeId, tree_of};
use kr_base::NoMemory;
use kr_code_members::list_nodes;
use kr_types::Program;
use std::alloc::Global;

/// The conditions that are looked at before a call, or those of `ensures` and `signals` after it.
#[derive(Clone, Copy)]
pub(crate) enum Side {
    Required,
    Ensured,
}

/// The condition of a line, if it is one of that side.
fn condition_of(program: &Program, side: Side, file: u32, line: u32) -> Option<u32>
    requires program { IsProgram program.now }
    requires line { IsLine program.now file line }
    ensures { MatchOption result (stated side (running (node_scope program.now file line)) (node_tree program.now file line) ≡ []) (λ n. IsCondition program.now side file line n) }
{
    match tree_of(&program.trees, file).entry(line).node {
        Node::Requires { condition } => match side {
            Side::Required => Some(condition),
            Side::Ensured => None,
        },
        Node::Ensures { condition } => match side {
            Side::Required => None,
            Side::Ensured => Some(condition),
        },
        Node::Signals { condition, .. } => match side {
            Side::Required => None,
            Side::Ensured => Some(condition),
        },
        _ => None,
    }
}

/// Adds the condition of a line, if it is one of that side.
fn add_condition(
    program: &Program,
    side: Side,
    file: u32,
    line: u32,
    entries: &mut Vec<NodeId>,
) -> Result<(), NoMemory>
    requires program { IsProgram program.now }
    requires line { IsLine program.now file line }
    ensures { (before : List CodeNode) → IfOk result (λ done. Enter program.now before entries.old.items → Enter program.now (before ++ line_code side (running (node_scope program.now file line)) (node_tree program.now file line)) entries.new.items) }
{
    match condition_of(program, side, file, line) {
        None => Ok(()),
        Some(node) => {
            entries.push(NodeId { file, node })?;
            Ok(())
        }
    }
}

/// Adds the conditions of that side in a list of contract lines.
pub(crate) fn add_conditions(
    alloc: Global,
    program: &Program,
    side: Side,
    file: u32,
    lines: u32,
    entries: &mut Vec<NodeId>,
) -> Result<(), NoMemory>
    requires program { IsProgram program.now }
    requires lines { IsThere program.now file lines }
    requires shape { AreContractLines (node_tree program.now file lines) }
    ensures { (before : List CodeNode) → IfOk result (λ done. Enter program.now before entries.old.items → Enter program.now (before ++ flat_map (line_code side (running (node_scope program.now file lines))) (items (node_tree program.now file lines))) entries.new.items) }
{
    let nodes = list_nodes(alloc, program, file, lines)?;
    for line in nodes.iter() {
        add_condition(program, side, file, *line, entries)?;
    }
    Ok(())
}
