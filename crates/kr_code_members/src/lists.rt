// Lists whose items declare nothing for the items after them.
ghost use Rattle.std.specs.Prelude.{◌≡◌, [], All, IfOk, MatchOption, map};
ghost use Rattle.kr_classes_table.specs.Table.{items};
ghost use Rattle.kr_types.specs.Programs.{IsProgram};
ghost use Rattle.kr_code_members.specs.Nodes.{IsThere, node_scope, node_tree};
ghost use Rattle.kr_code_members.specs.Walk.{AreStill, IsIn, IsSplit};

use crate::nodes::entry;
use kr_ast::Node;
use kr_base::NoMemory;
use kr_types::Program;
use std::alloc::Global;

/// The first item of a list and the rest.
#[tactic(auto, using(crate::proofs::Items::splits, crate::proofs::Items::no_items))]
fn first_item(program: &Program, file: u32, list: u32) -> Option<(u32, u32)>
    requires program { IsProgram program.now }
    requires list { IsThere program.now file list }
    ensures { MatchOption result (items (node_tree program.now file list) ≡ []) (λ p. IsSplit program.now file list p.0 p.1) }
{
    match entry(program, file, list).node {
        Node::Cons { first, rest } => Some((first, rest)),
        _ => None,
    }
}

/// The nodes of a list's items.
pub fn list_nodes(
    alloc: Global,
    program: &Program,
    file: u32,
    list: u32,
) -> Result<Vec<u32>, NoMemory>
    requires program { IsProgram program.now }
    requires list { IsThere program.now file list }
    requires still { AreStill (node_scope program.now file list) (items (node_tree program.now file list)) }
    ensures stand { IfOk result (λ nodes. All (IsIn program.now file (node_scope program.now file list)) nodes.items) }
    ensures shown { IfOk result (λ nodes. map (node_tree program.now file) nodes.items ≡ items (node_tree program.now file list)) }
{
    let mut nodes = Vec::new(alloc);
    let mut at = list;
    while let Some((item, rest)) = first_item(program, file, at) {
        nodes.push(item)?;
        at = rest;
    }
    Ok(nodes)
}
