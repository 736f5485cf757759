// The nodes of one file of one node, found twice.
ghost use Rattle.std.specs.Prelude.{◌≡◌, ◌<◌, ◌^◌, IfOk, length};
ghost use Rattle.kr_pure.specs.Found.{AreFound};
ghost use Rattle.kr_types.specs.Programs.{all_entries};
ghost use Rattle.kr_ast.specs.Files.{IsNode};

use kr_ast::{Forest, Node, NodeId, Tree};
use kr_base::{NoMemory, Place};
use kr_pure::{Found, count_nodes};
use std::alloc::Global;

/// A file without classes.
fn empty(alloc: Global) -> Result<Tree, NoMemory>
    ensures { IfOk result (λ tree. length tree.entries ≡ 1) }
{
    let mut forest = Forest::new(alloc);
    let place = Place {
        file: 0,
        line: 1,
        col: 1,
    };
    forest.put(place, Node::Nil)?;
    Ok(forest.finish())
}

fn add_twice(found: &mut Found, trees: &[Tree], at: NodeId) -> Result<(), NoMemory>
    requires few { length (all_entries trees.now) < 2 ^ 32 }
    requires node { IsNode trees.now at }
    requires found { AreFound trees.now found.old }
{
    found.add(trees, at)?;
    found.add_all(trees, &[at])
}

/// How many nodes are found where this one is added twice.
fn found_twice(alloc: Global, trees: &[Tree], at: NodeId) -> Result<usize, NoMemory>
    requires few { length (all_entries trees.now) < 2 ^ 32 }
    requires node { IsNode trees.now at }
{
    let mut found = Found::none(alloc, trees, count_nodes(trees))?;
    add_twice(&mut found, trees, at)?;
    Ok(found.into_nodes().len())
}

#[test]
fn a_node_is_found_once(rt: HostRuntime) -> Result<(), NoMemory> {
    let tree = empty(rt.alloc())?;
    let trees = vec![in rt.alloc(); tree]?;
    let count = count_nodes(&trees);
    let found = found_twice(rt.alloc(), &trees, NodeId { file: 0, node: 0 })?;
    assert_eq!(rt; count, 1);
    assert_eq!(rt; found, 1);
    Ok(())
}
