// `class A { int v = 7; }` is typed.
ghost use Rattle.kr_types.specs.Programs.{IsProgram};
ghost use Rattle.std.specs.Prelude.{◌≡◌, length};

use kr_ast::tree_of;
use kr_base::Place;
use kr_sources::{Unread, program_of};
use kr_types::Program;

fn column(col: u32) -> Place {
    Place {
        file: 0,
        line: 1,
        col,
    }
}

/// How many nodes at the initial value are an int.
fn ints_at_value(program: &Program) -> u32
    requires program { IsProgram program.now }
    requires alone { length program.now.trees.items ≡ 1 }
{
    let int = program.table.types.int();
    let mut count: u32 = 0;
    let tree = tree_of(&program.trees, 0);
    for node in 0..tree.nodes() {
        if tree.entry(node).place == column(19) {
            if program.type_of(0, node) != Some(int) {
                return 0;
            }
            count = count.saturating_add(1);
        }
    }
    count
}

#[test]
fn an_int_field(rt: HostRuntime) -> Result<(), Unread> {
    let program = program_of(rt.alloc(), "class A { int v = 7; }")?;
    let nodes = program.nodes();
    let ints = ints_at_value(&program);
    assert_eq!(rt; nodes, 12);
    assert_eq!(rt; ints, 1);
    Ok(())
}
