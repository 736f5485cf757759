// `class A { A a = new A(); }`: its creation touches objects of `A`, and runs code of `A`.
ghost use Rattle.std.specs.Prelude.{◌≡◌, ◌<◌, length};
ghost use Rattle.kr_ast.specs.Files.{file_at};
ghost use Rattle.kr_types.specs.Programs.{IsProgram};

use kr_ast::{Tree, tree_of};
use kr_base::{NoMemory, Place};
use kr_pure_effects::{Touch, runs_of, touch_of};
use kr_sources::{Unread, program_of};
use kr_types::Program;
use std::alloc::Global;

/// Whether a node is at the creation's place.
fn is_creation(tree: &Tree, node: u32) -> bool
    requires { node < length tree.now.entries }
{
    let place = Place {
        file: 0,
        line: 1,
        col: 17,
    };
    tree.entry(node).place == place
}

/// Whether a node touches objects of the class, and runs code of the class alone.
fn is_effect(alloc: Global, program: &Program, node: u32) -> Result<bool, NoMemory>
    requires program { IsProgram program.now }
    requires file { 0 < length program.now.trees.items }
    requires node { node < length (file_at program.now.trees.items 0).entries }
{
    let runs = runs_of(alloc, program, 0, node)?;
    Ok(
        runs.methods.len() == 0
            && runs.classes.len() == 1
            && touch_of(program, 0, node) == Touch::Objects(0),
    )
}

/// How many nodes at the creation's place have these effects.
fn effects(alloc: Global, program: &Program) -> Result<u32, NoMemory>
    requires program { IsProgram program.now }
    requires alone { length program.now.trees.items ≡ 1 }
{
    let tree = tree_of(&program.trees, 0);
    let mut count: u32 = 0;
    for node in 0..tree.nodes() {
        if is_creation(tree, node) && is_effect(alloc, program, node)? {
            count = count.saturating_add(1);
        }
    }
    Ok(count)
}

#[test]
fn a_creation(rt: HostRuntime) -> Result<(), Unread> {
    let program = program_of(rt.alloc(), "class A { A a = new A(); }")?;
    let nodes = program.nodes();
    let effects = effects(rt.alloc(), &program)?;
    assert_eq!(rt; nodes, 14);
    assert_eq!(rt; effects, 1);
    Ok(())
}
