// The entries of what a node may run.
ghost use Rattle.std.specs.Prelude.{IfOk};
ghost use Rattle.kr_mean.specs.Code.{code_run};
ghost use Rattle.kr_code_members.specs.Nodes.{AreMemberNodes, IsThere};
ghost use Rattle.kr_space_problem.specs.Posed.{IsPosed, posed};
ghost use Rattle.kr_pure.specs.Entries.{Enter, node_of};

use crate::members::{add_bodies, add_classes};
use kr_ast::NodeId;
use kr_base::NoMemory;
use kr_code_members::MemberNodes;
use kr_pure_effects::runs_of;
use kr_space_problem::Problem;
use std::alloc::Global;

/// Where the code is entered that a node may run.
pub(crate) fn entries_run(
    alloc: Global,
    problem: &Problem,
    nodes: &MemberNodes,
    at: NodeId,
) -> Result<Vec<NodeId>, NoMemory>
    requires posed { IsPosed problem.now }
    requires nodes { AreMemberNodes problem.now.program nodes.now }
    requires node { IsThere problem.now.program at.file at.node }
    ensures { IfOk result (λ entries. Enter problem.now.program (code_run (posed problem.now).program (node_of problem.now.program at)) entries.items) }
{
    let program = &problem.program;
    let runs = runs_of(alloc, program, at.file, at.node)?;
    let mut entries = Vec::new(alloc);
    add_bodies(program, nodes, &runs.methods, &mut entries)?;
    add_classes(program, nodes, &runs.classes, &mut entries)?;
    Ok(entries)
}
