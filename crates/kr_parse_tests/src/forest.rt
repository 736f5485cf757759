// A small tree, built and read.
ghost use Rattle.std.specs.Prelude.{◌≡◌, ◌∷◌, [], length, IfOk};
ghost use Rattle.kr_ast.specs.Arena.{AreNamesIn};

use kr_ast::{BinaryOperator, Forest, Name, Node, Tree};
use kr_base::{NoMemory, Place};
use std::alloc::{AllocError, Global};

fn column(col: u32) -> Place {
    Place {
        file: 0,
        line: 1,
        col,
    }
}

/// `count + 7`
fn sum(alloc: Global) -> Result<(Tree, Name), NoMemory>
    ensures count { IfOk result (λ r. length r.0.entries ≡ 3) }
    ensures named { IfOk result (λ r. AreNamesIn r.0.text (r.1 ∷ [])) }
{
    let mut forest = Forest::new(alloc);
    let name = forest.add_name(b"count")?;
    let right = forest.put(column(9), Node::Number { value: 7 })?;
    let left = forest.put(column(1), Node::Variable { name })?;
    forest.put(
        column(1),
        Node::Binary {
            operator: BinaryOperator::Add,
            left,
            right,
        },
    )?;
    Ok((forest.finish(), name))
}

/// Appends each node's column, parent and position.
fn push_nodes(alloc: Global, text: &mut String, tree: &Tree) -> Result<(), AllocError> {
    for at in 0..tree.nodes() {
        let entry = tree.entry(at);
        let node = format!(in alloc; "; {} {} {}", entry.place.col, entry.parent, entry.position)?;
        text.push_str(node.as_str())?;
    }
    Ok(())
}

/// The name and each node of a tree.
fn shown(alloc: Global, tree: &Tree, name: Name) -> Result<String, AllocError>
    requires { AreNamesIn tree.now.text (name ∷ []) }
{
    let mut text = String::from_utf8_lossy(alloc, tree.name(name))?;
    push_nodes(alloc, &mut text, tree)?;
    Ok(text)
}

/// The sum's name and nodes.
pub(crate) fn of_sum(alloc: Global) -> Result<String, AllocError> {
    match sum(alloc) {
        Ok((tree, name)) => shown(alloc, &tree, name),
        Err(_) => String::from_str(alloc, "no memory"),
    }
}
